//! What a join is asked for at an outer corner.

ghost use Rattle.std.specs.Prelude.{◌≡◌, [], ◌∷◌, ◌^◌, ◌≤◌, ◌&&◌, Some, None, if◌then◌else◌};
ghost use Rattle.std.specs.Prelude.{◌+ℤ◌, ◌-ℤ◌, unsigned_abs, int_le};
ghost use Rattle.mesh_plane.specs.Plane.{plus, minus, cross as cross_of, dot as dot_of, turn as turn_of};
ghost use Rattle.mesh_plane.specs.Winding.{same_point};
ghost use Rattle.mesh_num.specs.Rectangle.{IsSafeWidened};
ghost use Rattle.mesh_join.specs.Joints.{runs_ahead};
ghost use Rattle.mesh_join.specs.Private.Miters.{IsNarrow, IsPointPair, IsSummand, IsVectorPair};
ghost use Rattle.mesh_join.specs.Miters.{is_near as is_near_to, are_usable};

use mesh_arc::arc::ArcDirection;
use mesh_num::num::convert::{narrow, widen};
use mesh_num::num::{IntNumber, IntPoint, UnitIntVector};
use std::marker::Model;

/// A point or a vector in 128 bits.
pub(crate) type Pair = (i128, i128);

/// An outer corner, the points that its sections are moved to, their directions, how far they are moved, and the sense
/// of the turn. Contracts see the record of all.
#[derive(Drop)]
pub(crate) struct Joint<I: IntNumber> {
    pub(crate) center: IntPoint<I>,
    pub(crate) first: IntPoint<I>,
    pub(crate) last: IntPoint<I>,
    pub(crate) incoming: UnitIntVector<I>,
    pub(crate) outgoing: UnitIntVector<I>,
    pub(crate) radius: I,
    pub(crate) sense: ArcDirection,
}

impl<I: IntNumber> Model for Joint<I> {
    ghost use Rattle.mesh_join.specs.Joints.{Joint, joint};
    ghost use Rattle.mesh_join.specs.Joints.{HaveLength};

    ghost Value = { Joint };

    ghost view = { λ j. joint j.center j.first j.last j.incoming j.outgoing (I.value j.radius) j.sense };

    ghost invariant = { λ j. HaveLength I.unit j.incoming j.outgoing };
}

impl<I: IntNumber> Joint<I> {
    /// The point with these coordinates, if it is away from the corner by at most the padding in each coordinate.
    pub(crate) fn near(&self, padding: i128, point: Pair) -> Option<IntPoint<I>>
        requires { IsSafeWidened I.unit padding self.now.center }
        ensures { result ≡ (if is_near_to padding self.now.center point then Some point else None) }
    {
        if is_near(padding, coordinates(self.center), point) {
            Some(IntPoint::new(narrow(point.0), narrow(point.1)))
        } else {
            None
        }
    }

    /// The point with these coordinates, if it can be used in a join.
    pub(crate) fn usable_point(&self, padding: i128, point: Pair) -> Option<IntPoint<I>>
        requires { IsSafeWidened I.unit padding self.now.center }
        ensures { result ≡ (if are_usable padding self.now (point ∷ []) then Some point else None) }
    {
        let point = self.near(padding, point)?;
        if self.runs_through(point) {
            Some(point)
        } else {
            None
        }
    }

    /// Both points with these coordinates, if they can be used in a join.
    pub(crate) fn usable_pair(
        &self,
        padding: i128,
        start: Pair,
        end: Pair,
    ) -> Option<(IntPoint<I>, IntPoint<I>)>
        requires { IsSafeWidened I.unit padding self.now.center }
        ensures { result ≡ (if are_usable padding self.now (start ∷ end ∷ []) then Some (start, end) else None) }
    {
        let start = self.near(padding, start)?;
        let end = self.near(padding, end)?;
        if self.runs_through_both(start, end) {
            Some((start, end))
        } else {
            None
        }
    }

    /// Whether neither the edge from `last` to the point nor that from the point to the last point turns back.
    pub(crate) fn runs_on(&self, last: IntPoint<I>, point: IntPoint<I>) -> bool
        ensures { result ≡ (runs_ahead self.now (last, point) && runs_ahead self.now (point, self.now.last)) }
    {
        self.runs_ahead(last, point) && self.runs_ahead(point, self.last)
    }

    // Whether no edge through the point turns back round the corner.
    fn runs_through(&self, point: IntPoint<I>) -> bool
        ensures { result ≡ (runs_ahead self.now (self.now.first, point) && runs_ahead self.now (point, self.now.last)) }
    {
        self.runs_ahead(self.first, point) && self.runs_ahead(point, self.last)
    }

    // Whether no edge through both points turns back round the corner.
    fn runs_through_both(&self, start: IntPoint<I>, end: IntPoint<I>) -> bool
        ensures { result ≡ (runs_ahead self.now (self.now.first, start)
            && (runs_ahead self.now (start, end) && runs_ahead self.now (end, self.now.last))) }
    {
        self.runs_ahead(self.first, start)
            && (self.runs_ahead(start, end) && self.runs_ahead(end, self.last))
    }

    // Whether the edge does not turn back round the corner.
    fn runs_ahead(&self, from: IntPoint<I>, to: IntPoint<I>) -> bool
        ensures { result ≡ runs_ahead self.now (from, to) }
    {
        let turn = turn(coordinates(self.center), coordinates(from), coordinates(to));
        match self.sense {
            ArcDirection::Counterclockwise => 0 <= turn,
            ArcDirection::Clockwise => turn <= 0,
        }
    }
}

// Above 0 where `to` lies to the left of the line from `center` to `from`.
fn turn(center: Pair, from: Pair, to: Pair) -> i128
    requires center { IsPointPair center }
    requires from { IsPointPair from }
    requires to { IsPointPair to }
    ensures { result ≡ turn_of center from to }
{
    cross(difference(from, center), difference(to, center))
}

/// A point in 128 bits.
pub(crate) fn coordinates<I: IntNumber>(point: IntPoint<I>) -> Pair
    ensures value { result ≡ point }
    ensures narrow { IsPointPair result }
{
    (widen(point.x), widen(point.y))
}

/// Whether two points are one.
pub(crate) fn is_one_point(p: Pair, q: Pair) -> bool
    requires p { IsPointPair p }
    requires q { IsPointPair q }
    ensures { result ≡ same_point p q }
{
    p.0 == q.0 && p.1 == q.1
}

// Whether a point is away from another by at most the padding in each coordinate.
fn is_near(padding: i128, center: Pair, point: Pair) -> bool
    requires center { IsNarrow (2 ^ 40) center }
    requires padding { unsigned_abs padding ≤ 2 ^ 40 }
    ensures { result ≡ is_near_to padding center point }
{
    is_between(point.0, center.0, padding) && is_between(point.1, center.1, padding)
}

// Whether a coordinate is away from another by at most the padding.
fn is_between(coordinate: i128, center: i128, padding: i128) -> bool
    requires center { unsigned_abs center ≤ 2 ^ 40 }
    requires padding { unsigned_abs padding ≤ 2 ^ 40 }
    ensures { result ≡ (int_le (center -ℤ padding) coordinate && int_le coordinate (center +ℤ padding)) }
{
    center - padding <= coordinate && coordinate <= center + padding
}

/// A point moved by a vector.
pub(crate) fn sum(point: Pair, vector: Pair) -> Pair
    requires point { IsSummand point }
    requires vector { IsSummand vector }
    ensures { result ≡ plus point vector }
{
    (point.0 + vector.0, point.1 + vector.1)
}

/// A point moved back by a vector, or the vector from the second point to the first.
pub(crate) fn difference(point: Pair, vector: Pair) -> Pair
    requires point { IsSummand point }
    requires vector { IsSummand vector }
    ensures { result ≡ minus point vector }
{
    (point.0 - vector.0, point.1 - vector.1)
}

/// The cross product of two vectors.
pub(crate) fn cross(v: Pair, w: Pair) -> i128
    requires v { IsVectorPair v }
    requires w { IsVectorPair w }
    ensures { result ≡ cross_of v w }
{
    v.0 * w.1 - v.1 * w.0
}

/// The dot product of two vectors.
pub(crate) fn dot(v: Pair, w: Pair) -> i128
    requires v { IsVectorPair v }
    requires w { IsVectorPair w }
    ensures { result ≡ dot_of v w }
{
    v.0 * w.0 + v.1 * w.1
}
