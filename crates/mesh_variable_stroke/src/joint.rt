//! Joints of two neighbouring sections of a chain.

ghost use Rattle.std.specs.Prelude.{◌≡◌, ◌≤◌, length, take, vec_capacity, OnOk, false, pos, int_lt};
ghost use Rattle.mesh_plane.specs.Bounds.{IsSafe};
ghost use Rattle.mesh_plane.specs.Plane.{minus, cross};
ghost use Rattle.mesh_join.specs.Appending.{Appends};
ghost use Rattle.mesh_variable_stroke.specs.Private.Walks.{IsGoodJoint};
ghost use Rattle.mesh_variable_stroke.specs.VariableStrokes.{joint_edges, left_edges, right_edges};
ghost use Rattle.mesh_variable_stroke.specs.VariableStrokes.{is_apart as are_apart};
ghost use Rattle.mesh_variable_stroke.specs.VariableStrokes.{has_left_arc as is_left_arc};
ghost use Rattle.mesh_variable_stroke.specs.VariableStrokes.{has_right_arc as is_right_arc};
ghost use Rattle.mesh_variable_stroke.specs.VariableStrokes.{left_turn as left_turn_of, right_turn as right_turn_of};
ghost use Rattle.mesh_variable_stroke.specs.VariableStrokes.{middle_turn as middle_turn_of};

use crate::chain_end::ChainEnd;
use crate::ends::{add_end, add_start, end_center, start_center};
use mesh_circle::section::Section;
use mesh_circle::sweep::Sweep;
use mesh_circle::sweeper::Sweeper;
use mesh_join::route::push_straight;
use mesh_num::num::point::is_one_point;
use mesh_num::num::{IntNumber, IntPoint};
use mesh_num::shape::segment::Segment;
use std::alloc::AllocError;

/// Adds what is drawn between two neighbouring sections: where they do not meet, both end straight.
pub(crate) fn add_joint<I: IntNumber>(
    sweeper: &mut Sweeper<I>,
    previous: &Section<I>,
    next: &Section<I>,
    segments: &mut Vec<Segment<I>>,
) -> Result<(), AllocError>
    requires { IsGoodJoint I.unit (previous.now, next.now) }
    ensures ok { OnOk result (Appends segments.old segments.new
        (joint_edges I.unit sweeper.old (previous.now, next.now))) }
    ensures kept { take (length segments.old.items) segments.new.items ≡ segments.old.items }
    ensures capacity { vec_capacity segments.old ≤ vec_capacity segments.new }
    ensures same { sweeper.new ≡ sweeper.old }
{
    if is_apart(previous, next) {
        add_end(sweeper, previous, ChainEnd::Butt, segments)?;
        return add_start(sweeper, next, ChainEnd::Butt, segments);
    }
    add_left(sweeper, previous, next, segments)?;
    add_right(sweeper, previous, next, segments)
}

// Whether two sections do not meet.
fn is_apart<I: IntNumber>(previous: &Section<I>, next: &Section<I>) -> bool
    ensures { result ≡ are_apart (previous.now, next.now) }
{
    !is_one_point(end_center(previous), start_center(next))
}

// Adds the left side of a joint, back along the path.
fn add_left<I: IntNumber>(
    sweeper: &mut Sweeper<I>,
    previous: &Section<I>,
    next: &Section<I>,
    segments: &mut Vec<Segment<I>>,
) -> Result<(), AllocError>
    requires good { IsGoodJoint I.unit (previous.now, next.now) }
    requires met { are_apart (previous.now, next.now) ≡ false }
    ensures ok { OnOk result (Appends segments.old segments.new
        (left_edges I.unit sweeper.old (previous.now, next.now))) }
    ensures kept { take (length segments.old.items) segments.new.items ≡ segments.old.items }
    ensures capacity { vec_capacity segments.old ≤ vec_capacity segments.new }
    ensures same { sweeper.new ≡ sweeper.old }
{
    if has_left_arc(previous, next) {
        sweeper.add_arc(
            end_center(previous),
            next.a_left,
            previous.b_left,
            Sweep::Minor,
            segments,
        )
    } else {
        push_straight(next.a_left, previous.b_left, segments)
    }
}

// Adds the right side of a joint.
fn add_right<I: IntNumber>(
    sweeper: &mut Sweeper<I>,
    previous: &Section<I>,
    next: &Section<I>,
    segments: &mut Vec<Segment<I>>,
) -> Result<(), AllocError>
    requires good { IsGoodJoint I.unit (previous.now, next.now) }
    ensures ok { OnOk result (Appends segments.old segments.new
        (right_edges I.unit sweeper.old (previous.now, next.now))) }
    ensures kept { take (length segments.old.items) segments.new.items ≡ segments.old.items }
    ensures capacity { vec_capacity segments.old ≤ vec_capacity segments.new }
    ensures same { sweeper.new ≡ sweeper.old }
{
    if has_right_arc(previous, next) {
        sweeper.add_arc(
            end_center(previous),
            previous.b_right,
            next.a_right,
            Sweep::Major,
            segments,
        )
    } else {
        push_straight(previous.b_right, next.a_right, segments)
    }
}

// Whether there is an arc on the left.
fn has_left_arc<I: IntNumber>(previous: &Section<I>, next: &Section<I>) -> bool
    requires { IsGoodJoint I.unit (previous.now, next.now) }
    ensures { result ≡ is_left_arc (previous.now, next.now) }
{
    opens_left(previous, next) || turns_right(previous, next)
}

// Whether there is an arc on the right.
fn has_right_arc<I: IntNumber>(previous: &Section<I>, next: &Section<I>) -> bool
    requires { IsGoodJoint I.unit (previous.now, next.now) }
    ensures { result ≡ is_right_arc (previous.now, next.now) }
{
    opens_right(previous, next) || !turns_right(previous, next)
}

// Whether the left tangents turn away from each other.
fn opens_left<I: IntNumber>(previous: &Section<I>, next: &Section<I>) -> bool
    requires { IsGoodJoint I.unit (previous.now, next.now) }
    ensures { result ≡ int_lt (pos 0) (left_turn_of (previous.now, next.now)) }
{
    0 < left_turn(previous, next)
}

// Whether the right tangents turn away from each other.
fn opens_right<I: IntNumber>(previous: &Section<I>, next: &Section<I>) -> bool
    requires { IsGoodJoint I.unit (previous.now, next.now) }
    ensures { result ≡ int_lt (pos 0) (right_turn_of (previous.now, next.now)) }
{
    0 < right_turn(previous, next)
}

// Whether the path turns to the right.
fn turns_right<I: IntNumber>(previous: &Section<I>, next: &Section<I>) -> bool
    requires { IsGoodJoint I.unit (previous.now, next.now) }
    ensures { result ≡ int_lt (middle_turn_of (previous.now, next.now)) (pos 0) }
{
    middle_turn(previous, next) < 0
}

// How the left tangents turn, back along the path.
fn left_turn<I: IntNumber>(previous: &Section<I>, next: &Section<I>) -> i128
    requires { IsGoodJoint I.unit (previous.now, next.now) }
    ensures { result ≡ left_turn_of (previous.now, next.now) }
{
    turn_between(next.a_left, next.b_left, previous.a_left, previous.b_left)
}

// How the right tangents turn.
fn right_turn<I: IntNumber>(previous: &Section<I>, next: &Section<I>) -> i128
    requires { IsGoodJoint I.unit (previous.now, next.now) }
    ensures { result ≡ right_turn_of (previous.now, next.now) }
{
    turn_between(
        previous.a_right,
        previous.b_right,
        next.a_right,
        next.b_right,
    )
}

// How the path turns.
fn middle_turn<I: IntNumber>(previous: &Section<I>, next: &Section<I>) -> i128
    requires { IsGoodJoint I.unit (previous.now, next.now) }
    ensures { result ≡ middle_turn_of (previous.now, next.now) }
{
    turn_between(
        start_center(previous),
        end_center(previous),
        start_center(next),
        end_center(next),
    )
}

// The cross product of the vectors from `a` to `b` and from `c` to `d`.
fn turn_between<I: IntNumber>(
    a: IntPoint<I>,
    b: IntPoint<I>,
    c: IntPoint<I>,
    d: IntPoint<I>,
) -> i128
    requires a { IsSafe I.unit a }
    requires b { IsSafe I.unit b }
    requires c { IsSafe I.unit c }
    requires d { IsSafe I.unit d }
    ensures { result ≡ cross (minus b a) (minus d c) }
{
    I::wide_to_i128((b - a).cross_product(&(d - c)))
}
