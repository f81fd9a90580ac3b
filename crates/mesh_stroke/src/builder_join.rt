//! Joins between two neighbouring sections.

ghost use Rattle.std.specs.Prelude.{◌≡◌, ◌≢◌, ◌≤◌, ◌*◌, ◌++◌, pos, ◌≤ℤ◌, ℤ, length, take, vec_capacity};
ghost use Rattle.std.specs.Prelude.{IsOk, OnOk};
ghost use Rattle.std.specs.Ordering.{int_cmp, is_lt};
ghost use Rattle.mesh_plane.specs.Bounds.{IsSafe};
ghost use Rattle.mesh_plane.specs.Plane.{cross, minus};
ghost use Rattle.mesh_join.specs.Appending.{Appends, HasRoomForEdges};
ghost use Rattle.mesh_join.specs.Joins.{HasFew};
ghost use Rattle.mesh_join.specs.Styles.{JoinStyle};
ghost use Rattle.mesh_join.specs.declared.style.StrokeSide.TheVariants.{Both};
ghost use Rattle.mesh_stroke.specs.Private.Sections.{own_edge, faced_edges, faced_side, opposite_side, IsCorner, IsMade};
ghost use Rattle.mesh_stroke.specs.Private.Sections.{CornersAddUp};
ghost use Rattle.mesh_stroke.specs.Strokes.{corner_edges, inner_edges, outer_edges};

use crate::section::StrokeSection;
use mesh_join::arc::ArcDirection;
use mesh_join::join::Join;
use mesh_join::style::StrokeSide;
use mesh_num::num::{IntNumber, WideNumber};
use mesh_num::shape::segment::{Segment, SubjectSegments};
use std::alloc::AllocError;
use std::cmp::Ordering;

/// Connects two neighbouring sections.
pub(crate) trait JoinBuilder<I: IntNumber> {
    ghost style: { Self → JoinStyle };

    /// Adds the join on the side that the path turns away from, and on the other the edges through the vertex; of a
    /// half what lies on its side. Where there is room for them it succeeds, but for a round join. After a refusal the
    /// vector still begins with what it held.
    fn add_join(
        &mut self,
        previous: &StrokeSection<I>,
        next: &StrokeSection<I>,
        radius: I,
        side: StrokeSide,
        segments: &mut Vec<Segment<I>>,
    ) -> Result<(), AllocError>
        requires { IsCorner I.unit (I.value radius) (style self.old) (previous.now, next.now) }
        ensures ok { OnOk result (Appends segments.old segments.new
            (corner_edges I.unit (I.value radius) side (style self.old) (own_edge previous.now, own_edge next.now))) }
        ensures kept { take (length segments.old.items) segments.new.items ≡ segments.old.items }
        ensures room { HasFew (style self.old) → HasRoomForEdges segments.old
            (corner_edges I.unit (I.value radius) side (style self.old) (own_edge previous.now, own_edge next.now))
            → IsOk result }
        ensures capacity { vec_capacity segments.old ≤ vec_capacity segments.new }
        ensures same { style self.new ≡ style self.old };
}

impl<I: IntNumber> JoinBuilder<I> for Join<I> {
    ghost style = { λ join. join };

    fn add_join(
        &mut self,
        previous: &StrokeSection<I>,
        next: &StrokeSection<I>,
        radius: I,
        side: StrokeSide,
        segments: &mut Vec<Segment<I>>,
    ) -> Result<(), AllocError> {
        let turn = turn_between(previous, next);
        let faced = faced_side(side, turn);
        if turn.is_lt() {
            return add_facing(
                self,
                &next.reversed(),
                &previous.reversed(),
                radius,
                faced,
                segments,
            );
        }
        add_facing(self, previous, next, radius, faced, segments)
    }
}

/// The side that is drawn, as a corner with this turn is faced: one that turns to the right is seen from its other end.
/// The join lies on the right of a faced corner, also where the path turns exactly back.
#[tactic(auto, using(crate::proofs::Corners::left_and_right_add_up, crate::proofs::Corners::right_and_left_add_up))]
fn faced_side(side: StrokeSide, turn: Ordering) -> StrokeSide
    ensures value { result ≡ faced_side side (is_lt turn) }
    ensures halves { side ≢ Both → CornersAddUp result (faced_side (opposite_side side) (is_lt turn)) }
{
    match side {
        StrokeSide::Both => StrokeSide::Both,
        StrokeSide::Left => match turn {
            Ordering::Less => StrokeSide::Right,
            Ordering::Equal => StrokeSide::Left,
            Ordering::Greater => StrokeSide::Left,
        },
        StrokeSide::Right => match turn {
            Ordering::Less => StrokeSide::Left,
            Ordering::Equal => StrokeSide::Right,
            Ordering::Greater => StrokeSide::Right,
        },
    }
}

/// How much the path turns to the left from one section to the next, compared with 0.
fn turn_between<I: IntNumber>(previous: &StrokeSection<I>, next: &StrokeSection<I>) -> Ordering
    requires previous { IsSafe (2 * I.unit) (minus previous.now.b previous.now.a) }
    requires next { IsSafe (2 * I.unit) (minus next.now.b next.now.a) }
    ensures { result ≡ int_cmp (cross (minus previous.now.b previous.now.a) (minus next.now.b next.now.a)) (pos 0) }
{
    let before = previous.b - previous.a;
    let turn = before.cross_product(&(next.b - next.a));
    turn.to_i128().cmp(&0)
}

/// Adds what is drawn at a corner that does not turn to the right.
fn add_facing<I: IntNumber>(
    join: &mut Join<I>,
    previous: &StrokeSection<I>,
    next: &StrokeSection<I>,
    radius: I,
    side: StrokeSide,
    segments: &mut Vec<Segment<I>>,
) -> Result<(), AllocError>
    requires corner { IsCorner I.unit (I.value radius) join.old (previous.now, next.now) }
    requires facing { pos 0 ≤ℤ cross (minus previous.now.b previous.now.a) (minus next.now.b next.now.a) }
    ensures ok { OnOk result (Appends segments.old segments.new (faced_edges I.unit (I.value radius) side join.old
        (own_edge previous.now, own_edge next.now))) }
    ensures kept { take (length segments.old.items) segments.new.items ≡ segments.old.items }
    ensures room { HasFew join.old → HasRoomForEdges segments.old (faced_edges I.unit (I.value radius) side join.old
        (own_edge previous.now, own_edge next.now)) → IsOk result }
    ensures capacity { vec_capacity segments.old ≤ vec_capacity segments.new }
    ensures same { join.new ≡ join.old }
{
    match side {
        StrokeSide::Both => {
            add_inner(previous, next, segments)?;
            add_outer(join, previous, next, radius, segments)
        }
        StrokeSide::Left => add_inner(previous, next, segments),
        StrokeSide::Right => add_outer(join, previous, next, radius, segments),
    }
}

/// Adds the edges through the vertex of a corner, on its left.
fn add_inner<I: IntNumber>(
    previous: &StrokeSection<I>,
    next: &StrokeSection<I>,
    segments: &mut Vec<Segment<I>>,
) -> Result<(), AllocError>
    ensures ok { (radius : ℤ) → IsMade I.unit radius previous.now → IsMade I.unit radius next.now → OnOk result
        (Appends segments.old segments.new
        (inner_edges I.unit radius (own_edge previous.now, own_edge next.now))) }
    ensures kept { take (length segments.old.items) segments.new.items ≡ segments.old.items }
    ensures room { (radius : ℤ) → IsMade I.unit radius previous.now → IsMade I.unit radius next.now
        → HasRoomForEdges segments.old
        (inner_edges I.unit radius (own_edge previous.now, own_edge next.now)) → IsOk result }
    ensures capacity { vec_capacity segments.old ≤ vec_capacity segments.new }
{
    segments.push_non_degenerate(next.a_left, next.a)?;
    segments.push_non_degenerate(previous.b, previous.b_left)
}

/// Adds the join of a corner that does not turn to the right, on its right.
fn add_outer<I: IntNumber>(
    join: &mut Join<I>,
    previous: &StrokeSection<I>,
    next: &StrokeSection<I>,
    radius: I,
    segments: &mut Vec<Segment<I>>,
) -> Result<(), AllocError>
    requires corner { IsCorner I.unit (I.value radius) join.old (previous.now, next.now) }
    requires facing { pos 0 ≤ℤ cross (minus previous.now.b previous.now.a) (minus next.now.b next.now.a) }
    ensures ok { OnOk result (Appends segments.old segments.new
        (outer_edges I.unit (I.value radius) join.old (own_edge previous.now, own_edge next.now))) }
    ensures kept { take (length segments.old.items) segments.new.items ≡ segments.old.items }
    ensures room { HasFew join.old → HasRoomForEdges segments.old
        (outer_edges I.unit (I.value radius) join.old (own_edge previous.now, own_edge next.now)) → IsOk result }
    ensures capacity { vec_capacity segments.old ≤ vec_capacity segments.new }
    ensures same { join.new ≡ join.old }
{
    join.add(
        previous.b,
        previous.b_right,
        next.a_right,
        previous.direction,
        next.direction,
        radius,
        ArcDirection::Counterclockwise,
        segments,
    )
}
