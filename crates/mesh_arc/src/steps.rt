//! The steps of an arc.

ghost use Rattle.std.specs.Prelude.{◌≡◌, ◌*◌, ◌^◌, ◌≤◌, ◌*ℤ◌, int_le, unsigned_abs, length, [], vec_capacity, IsOk};
ghost use Rattle.std.specs.Prelude.{OnOk, OnErr};
ghost use Rattle.mesh_plane.specs.Bounds.{IsSafe};
ghost use Rattle.mesh_plane.specs.Plane.{cross as cross_of, dot as dot_of};
ghost use Rattle.mesh_sine.specs.Sine.{IsWithinOne};
ghost use Rattle.mesh_arc.specs.Arcs.{ahead as ahead_of, is_within as is_within_of, is_good as is_good_of};
ghost use Rattle.mesh_arc.specs.Arcs.{is_passed as is_passed_of, turned_list};
ghost use Rattle.mesh_arc.specs.Private.Steps.{step_count, ends_before, directions_by};

use crate::arc::ArcDirection;
use mesh_num::num::{IntNumber, IntVector, Rotation, UnitIntVector};
use std::alloc::AllocError;
use std::marker::Model;

// The most directions of an arc.
const MOST_DIRECTIONS: u32 = 1536;

/// The steps of an arc: the rotation of each, the sine and cosine, times 2^30, of the greatest gap, and the sense.
#[derive(Drop)]
pub(crate) struct Steps<I: IntNumber> {
    rotation: Rotation<I>,
    bound: (i32, i32),
    sense: ArcDirection,
}

impl<I: IntNumber> Model for Steps<I> {
    ghost use Rattle.mesh_sine.specs.Sine.{IsWithinOne};
    ghost use Rattle.mesh_arc.specs.Private.Steps.{Steps};

    ghost Value = { Steps };

    ghost view = { λ s. record { step = s.rotation; bound = s.bound; sense = s.sense } };

    ghost invariant = { λ s. IsWithinOne s.bound };
}

impl<I: IntNumber> Steps<I> {
    /// Steps by this rotation in this sense, with gaps of at most the angle with this sine and cosine.
    pub(crate) fn new(rotation: Rotation<I>, bound: (i32, i32), sense: ArcDirection) -> Self
        requires { IsWithinOne bound }
        ensures { result ≡ record { step = rotation; bound = bound; sense = sense } }
    {
        Steps {
            rotation,
            bound,
            sense,
        }
    }

    /// Replaces the directions by those of the arc between two. After a refusal there are none.
    pub(crate) fn fill(
        &self,
        from: UnitIntVector<I>,
        to: UnitIntVector<I>,
        directions: &mut Vec<UnitIntVector<I>>,
    ) -> Result<(), AllocError>
        ensures ok { OnOk result (directions.new.items ≡ directions_by self.now from to) }
        ensures err { OnErr result (directions.new.items ≡ []) }
        ensures room { length (directions_by self.now from to) ≤ vec_capacity directions.old → IsOk result }
        ensures capacity { vec_capacity directions.old ≤ vec_capacity directions.new }
    {
        directions.clear();
        if self.is_within(from, to) {
            return Ok(());
        }
        if let Err(error) = self.push(from, to, directions) {
            directions.clear();
            return Err(error);
        }
        Ok(())
    }

    // Adds the directions after `from` until the end is passed or a step is not good.
    fn push(
        &self,
        from: UnitIntVector<I>,
        to: UnitIntVector<I>,
        directions: &mut Vec<UnitIntVector<I>>,
    ) -> Result<(), AllocError>
        requires { directions.old.items ≡ [] }
        ensures ok { OnOk result (directions.new.items ≡ turned_list self.now.step from (step_count self.now from to)) }
        ensures room { step_count self.now from to ≤ vec_capacity directions.old → IsOk result }
        ensures capacity { vec_capacity directions.old ≤ vec_capacity directions.new }
    {
        let mut current = from;
        for _ in 0..MOST_DIRECTIONS {
            let next = self.rotation.apply(current);
            if self.ends(to, current, next) {
                return Ok(());
            }
            directions.push(next)?;
            current = next;
        }
        Ok(())
    }

    // Whether the arc ends before the step from `current` to `next`.
    fn ends(&self, to: UnitIntVector<I>, current: UnitIntVector<I>, next: UnitIntVector<I>) -> bool
        ensures { result ≡ ends_before self.now to current next }
    {
        !self.is_good(current, next) || self.is_passed(to, current, next)
    }

    // Whether a step leads ahead, by at most the bound.
    fn is_good(&self, from: UnitIntVector<I>, to: UnitIntVector<I>) -> bool
        ensures { result ≡ is_good_of self.now.sense self.now.bound from to }
    {
        self.is_within(from, to) && 0 < ahead(self.sense, from, to)
    }

    // Whether a direction lies ahead of another by at most the bound.
    fn is_within(&self, from: UnitIntVector<I>, to: UnitIntVector<I>) -> bool
        ensures { result ≡ is_within_of self.now.sense self.now.bound from to }
    {
        let ahead = ahead(self.sense, from, to);
        let dot = dot(from, to);
        0 <= ahead && (0 < dot && is_flat(self.bound.0, self.bound.1, ahead, dot))
    }

    // Whether the step from `current` to `next` comes to the end or passes it.
    fn is_passed(
        &self,
        end: UnitIntVector<I>,
        current: UnitIntVector<I>,
        next: UnitIntVector<I>,
    ) -> bool
        ensures { result ≡ is_passed_of self.now.sense end current next }
    {
        0 <= ahead(self.sense, current, end)
            && (0 <= dot(current, end) && ahead(self.sense, next, end) <= 0)
    }
}

// Whether an angle, by its products, is at most the one with this sine and cosine.
fn is_flat(sine: i32, cosine: i32, ahead: i128, dot: i128) -> bool
    requires ahead { unsigned_abs ahead ≤ 2 ^ 63 }
    requires dot { unsigned_abs dot ≤ 2 ^ 63 }
    ensures { result ≡ int_le (ahead *ℤ cosine) (dot *ℤ sine) }
{
    ahead * cosine as i128 <= dot * sine as i128
}

// Above 0 where `w` lies ahead of `v` in this sense.
fn ahead<I: IntNumber>(sense: ArcDirection, v: UnitIntVector<I>, w: UnitIntVector<I>) -> i128
    ensures value { result ≡ ahead_of sense v w }
    ensures size { unsigned_abs result ≤ 2 ^ 63 }
{
    let cross = cross(v, w);
    match sense {
        ArcDirection::Counterclockwise => cross,
        ArcDirection::Clockwise => -cross,
    }
}

// The cross product of two directions.
fn cross<I: IntNumber>(v: UnitIntVector<I>, w: UnitIntVector<I>) -> i128
    ensures value { result ≡ cross_of v w }
    ensures size { unsigned_abs result ≤ 2 ^ 63 }
{
    I::wide_to_i128(vector(v).cross_product(&vector(w)))
}

// The dot product of two directions.
fn dot<I: IntNumber>(v: UnitIntVector<I>, w: UnitIntVector<I>) -> i128
    ensures value { result ≡ dot_of v w }
    ensures size { unsigned_abs result ≤ 2 ^ 63 }
{
    I::wide_to_i128(vector(v).dot_product(&vector(w)))
}

// A direction as a vector.
fn vector<I: IntNumber>(direction: UnitIntVector<I>) -> IntVector<I>
    ensures value { result ≡ direction }
    ensures safe { IsSafe (2 * I.unit) result }
{
    IntVector::new(direction.x().to_wide(), direction.y().to_wide())
}
