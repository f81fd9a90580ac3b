//! Miters.

ghost use Rattle.std.specs.Prelude.{◌≡◌, ◌≢◌, [], ◌∷◌, ◌^◌, ◌≤◌, length, take, vec_capacity, IsOk, OnOk, OnErr};
ghost use Rattle.std.specs.Prelude.{pos, ◌*ℤ◌, unsigned_abs, int_lt};
ghost use Rattle.mesh_plane.specs.Bounds.{IsWithin};
ghost use Rattle.mesh_plane.specs.Plane.{minus, cross as cross_of};
ghost use Rattle.mesh_num.specs.Direction.{scaled_direction};
ghost use Rattle.mesh_num.specs.Quotient.{rounded_product as product_over};
ghost use Rattle.mesh_num.specs.Rectangle.{IsSafeWidened};
ghost use Rattle.mesh_sine.specs.Sine.{IsWithinOne};
ghost use Rattle.mesh_join.specs.Appending.{Appends, HasRoomForEdges};
ghost use Rattle.mesh_join.specs.Joins.{IsJoint};
ghost use Rattle.mesh_join.specs.Methods.{style_of_miter};
ghost use Rattle.mesh_join.specs.Private.Miters.{IsHalfSine, IsNarrow, IsPointPair, IsSummand};
ghost use Rattle.mesh_join.specs.Private.Miters.{usable_edges, miter_edges, turn_products};
ghost use Rattle.mesh_join.specs.Miters.{sharpest as sharpest_of, slightest as slightest_of, half_sharpest as half_of};
ghost use Rattle.mesh_join.specs.Miters.{reach as reach_of, miter_padding, is_slight as is_slight_at};
ghost use Rattle.mesh_join.specs.Miters.{is_sharp as is_sharp_at, clip_points as clip_points_of, peak as peak_of};

use crate::joint::{Joint, Pair, coordinates, cross, difference, dot, sum};
use crate::route::{push_straight, push_through, push_through_both};
use mesh_num::num::convert::widen;
use mesh_num::num::quotient::rounded_product;
use mesh_num::num::{Angle, IntNumber, UnitIntVector};
use mesh_num::shape::segment::Segment;
use std::alloc::AllocError;
use std::marker::Model;

// The sharpest angles between sections that miters are asked for, in bits: 5 degrees, cut, and just below half a turn.
const LEAST_SHARPEST: u32 = 59_652_323;

const GREATEST_SHARPEST: u32 = (1 << 31) - 1;

// The greatest turn below which a miter is a bevel, in bits: half a turn.
const GREATEST_SLIGHTEST: u32 = 1 << 31;

/// A miter, with the sines and cosines that corners are compared with. Contracts see the angles that were asked for.
#[derive(Debug, Drop)]
pub(crate) struct Miter {
    angle: Angle,
    min_turn: Angle,
    // Sine and cosine, times 2^30, of the slightest turn, the sharpest angle and half of it.
    slightest: (i32, i32),
    sharpest: (i32, i32),
    half: (i32, i32),
}

impl Model for Miter {
    ghost use Rattle.mesh_join.specs.Private.Miters.{HasSines};
    ghost use Rattle.mesh_join.specs.Miters.{MiterStyle};

    ghost Value = { MiterStyle };

    ghost view = { λ m. record { angle = m.angle; min_turn = m.min_turn } };

    ghost invariant = { λ m. HasSines m.angle m.min_turn m.slightest m.sharpest m.half };
}

// The sharpest angle between sections that has a peak.
fn sharpest(angle: Angle) -> Angle
    ensures { result ≡ sharpest_of angle }
{
    Angle::from_bits(angle.bits().max(LEAST_SHARPEST).min(GREATEST_SHARPEST))
}

// The turn below which a miter is a bevel.
fn slightest(min_turn: Angle) -> Angle
    ensures { result ≡ slightest_of min_turn }
{
    Angle::from_bits(min_turn.bits().min(GREATEST_SLIGHTEST))
}

// Sine and cosine of half the sharpest angle.
fn half_sharpest(angle: Angle) -> (i32, i32)
    ensures value { result ≡ half_of angle }
    ensures bounded { IsWithinOne result }
{
    Angle::from_bits(sharpest(angle).bits() / 2).sin_cos()
}

// How far a miter reaches from its corner, by the sine of half its sharpest angle.
fn reach<I: IntNumber>(radius: I, sine: i32) -> i128
    requires { IsHalfSine sine }
    ensures value { result ≡ reach_of sine (I.value radius) }
    ensures fits { IsWithin I.Wide.half result }
{
    let size = widen(radius).abs();
    if size == 0 {
        return 0;
    }
    rounded_product(size, 1 << 30, sine as i128) + 2
}

/// How far a miter reaches from its corner in each coordinate, in grid units.
pub(crate) fn padding<I: IntNumber>(angle: Angle, radius: I) -> I::Wide
    ensures { I.Wide.value result ≡ miter_padding angle (I.value radius) }
{
    I::wide_from_i128(reach(radius, half_sharpest(angle).0))
}

impl Miter {
    /// A miter with a peak for angles from `angle`, and bevels for turns below `min_turn`.
    pub(crate) fn new(angle: Angle, min_turn: Angle) -> Self
        ensures { result ≡ record { angle = angle; min_turn = min_turn } }
    {
        Miter {
            angle,
            min_turn,
            slightest: slightest(min_turn).sin_cos(),
            sharpest: sharpest(angle).sin_cos(),
            half: half_sharpest(angle),
        }
    }

    /// Adds the edges of the miter at a joint. Where there is room for them it succeeds. After a refusal the vector is
    /// cut back to its old length.
    pub(crate) fn add<I: IntNumber>(
        &self,
        joint: &Joint<I>,
        segments: &mut Vec<Segment<I>>,
    ) -> Result<(), AllocError>
        requires { IsJoint I.unit (style_of_miter self.now) joint.now }
        ensures ok { OnOk result (Appends segments.old segments.new (miter_edges self.now I.unit joint.now)) }
        ensures err { OnErr result (segments.new.items ≡ segments.old.items) }
        ensures room { HasRoomForEdges segments.old (miter_edges self.now I.unit joint.now) → IsOk result }
        ensures capacity { vec_capacity segments.old ≤ vec_capacity segments.new }
    {
        let length = segments.len();
        if let Err(error) = self.push(joint, segments) {
            segments.truncate(length);
            return Err(error);
        }
        Ok(())
    }

    fn push<I: IntNumber>(
        &self,
        joint: &Joint<I>,
        segments: &mut Vec<Segment<I>>,
    ) -> Result<(), AllocError>
        requires { IsJoint I.unit (style_of_miter self.now) joint.now }
        ensures ok { OnOk result (Appends segments.old segments.new (miter_edges self.now I.unit joint.now)) }
        ensures kept { take (length segments.old.items) segments.new.items ≡ segments.old.items }
        ensures room { HasRoomForEdges segments.old (miter_edges self.now I.unit joint.now) → IsOk result }
        ensures capacity { vec_capacity segments.old ≤ vec_capacity segments.new }
    {
        if self.is_slight(joint) {
            return push_straight(joint.first, joint.last, segments);
        }
        let padding = self.padding_at(joint);
        if self.is_sharp(joint) {
            let (start, end) = self.clip_points(joint);
            push_clipped(joint, padding, start, end, segments)
        } else {
            push_peak(joint, padding, peak(joint), segments)
        }
    }

    // Whether the corner is bevelled at once: it does not turn, or by less than the least turn.
    fn is_slight<I: IntNumber>(&self, joint: &Joint<I>) -> bool
        ensures { result ≡ is_slight_at self.now.min_turn joint.now }
    {
        let (cross, dot) = products(joint);
        cross == 0 || is_angle_below(self.slightest.0, self.slightest.1, cross, dot)
    }

    // Whether the angle between the corner's sections is below the sharpest that has a peak.
    fn is_sharp<I: IntNumber>(&self, joint: &Joint<I>) -> bool
        ensures { result ≡ is_sharp_at self.now.angle joint.now }
    {
        let (cross, dot) = products(joint);
        is_angle_below(self.sharpest.0, self.sharpest.1, cross, -dot)
    }

    // How far the miter reaches from its corner.
    fn padding_at<I: IntNumber>(&self, joint: &Joint<I>) -> i128
        ensures { result ≡ miter_padding self.now.angle joint.now.radius }
    {
        reach(joint.radius, self.half.0)
    }

    // The ends of the edge that clips a sharp peak.
    fn clip_points<I: IntNumber>(&self, joint: &Joint<I>) -> (Pair, Pair)
        ensures { (result.0 ∷ result.1 ∷ []) ≡ clip_points_of self.now.angle I.unit joint.now }
    {
        let reach = clip_reach(joint.radius, self.half.0, self.half.1);
        (
            sum(coordinates(joint.first), scaled(joint.incoming, reach)),
            difference(coordinates(joint.last), scaled(joint.outgoing, reach)),
        )
    }
}

// The cross and the dot product of both directions.
fn products<I: IntNumber>(joint: &Joint<I>) -> (i128, i128)
    ensures value { result ≡ turn_products joint.now }
    ensures narrow { IsNarrow (2 ^ 63) result }
{
    let incoming = coordinates_of(joint.incoming);
    let outgoing = coordinates_of(joint.outgoing);
    (cross(incoming, outgoing), dot(incoming, outgoing))
}

// Adds the edges of a clipped peak, or the bevel where the clipping edge can't be used.
fn push_clipped<I: IntNumber>(
    joint: &Joint<I>,
    padding: i128,
    start: Pair,
    end: Pair,
    segments: &mut Vec<Segment<I>>,
) -> Result<(), AllocError>
    requires { IsSafeWidened I.unit padding joint.now.center }
    ensures ok { OnOk result (Appends segments.old segments.new (usable_edges padding joint.now (start ∷ end ∷ []))) }
    ensures kept { take (length segments.old.items) segments.new.items ≡ segments.old.items }
    ensures room { HasRoomForEdges segments.old (usable_edges padding joint.now (start ∷ end ∷ [])) → IsOk result }
    ensures capacity { vec_capacity segments.old ≤ vec_capacity segments.new }
{
    match joint.usable_pair(padding, start, end) {
        Some(edge) => push_through_both(joint.first, edge.0, edge.1, joint.last, segments),
        None => push_straight(joint.first, joint.last, segments),
    }
}

// Adds the edges through a peak, or the bevel where it can't be used.
fn push_peak<I: IntNumber>(
    joint: &Joint<I>,
    padding: i128,
    peak: Pair,
    segments: &mut Vec<Segment<I>>,
) -> Result<(), AllocError>
    requires { IsSafeWidened I.unit padding joint.now.center }
    ensures ok { OnOk result (Appends segments.old segments.new (usable_edges padding joint.now (peak ∷ []))) }
    ensures kept { take (length segments.old.items) segments.new.items ≡ segments.old.items }
    ensures room { HasRoomForEdges segments.old (usable_edges padding joint.now (peak ∷ [])) → IsOk result }
    ensures capacity { vec_capacity segments.old ≤ vec_capacity segments.new }
{
    match joint.usable_point(padding, peak) {
        Some(peak) => push_through(joint.first, peak, joint.last, segments),
        None => push_straight(joint.first, joint.last, segments),
    }
}

// The point in which the moved sections meet.
fn peak<I: IntNumber>(joint: &Joint<I>) -> Pair
    requires { cross_of joint.now.incoming joint.now.outgoing ≢ pos 0 }
    ensures { result ≡ peak_of joint.now }
{
    let product = products(joint).0;
    let first = coordinates(joint.first);
    let (x, y) = coordinates_of(joint.incoming);
    let share = peak_share(
        first,
        coordinates(joint.last),
        coordinates_of(joint.outgoing),
    );
    let along = (
        rounded_product(x, share, product),
        rounded_product(y, share, product),
    );
    sum(first, along)
}

// How much of the incoming direction leads from the first point to the peak.
fn peak_share(first: Pair, last: Pair, outgoing: Pair) -> i128
    requires first { IsPointPair first }
    requires last { IsPointPair last }
    requires outgoing { IsNarrow (2 ^ 30) outgoing }
    ensures value { result ≡ cross_of (minus last first) outgoing }
    ensures size { unsigned_abs result ≤ 2 ^ 63 }
{
    cross(difference(last, first), outgoing)
}

// How far the sections run on before a sharp peak is clipped.
fn clip_reach<I: IntNumber>(radius: I, sine: i32, cosine: i32) -> i128
    requires { IsHalfSine sine }
    ensures value { result ≡ product_over (I.value radius) cosine sine }
    ensures size { unsigned_abs result ≤ 2 ^ 62 }
{
    rounded_product(widen(radius), cosine as i128, sine as i128)
}

// A direction times a reach.
fn scaled<I: IntNumber>(direction: UnitIntVector<I>, reach: i128) -> Pair
    requires { unsigned_abs reach ≤ 2 ^ 62 }
    ensures value { result ≡ scaled_direction I.unit reach direction }
    ensures narrow { IsSummand result }
{
    let (x, y) = coordinates_of(direction);
    let unit = widen(I::UNIT);
    (
        rounded_product(x, reach, unit),
        rounded_product(y, reach, unit),
    )
}

// The components of a direction in 128 bits.
fn coordinates_of<I: IntNumber>(direction: UnitIntVector<I>) -> Pair
    ensures value { result ≡ direction }
    ensures narrow { IsNarrow (2 ^ 30) result }
{
    (widen(direction.x()), widen(direction.y()))
}

// Whether the angle between two vectors is below one of at most half a turn, whose sine and cosine are given, by the
// vectors' cross and dot product.
fn is_angle_below(sine: i32, cosine: i32, cross: i128, dot: i128) -> bool
    requires cross { unsigned_abs cross ≤ 2 ^ 64 }
    requires dot { unsigned_abs dot ≤ 2 ^ 64 }
    ensures { result ≡ int_lt (cosine *ℤ pos (unsigned_abs cross)) (sine *ℤ dot) }
{
    cosine as i128 * cross.abs() < sine as i128 * dot
}
