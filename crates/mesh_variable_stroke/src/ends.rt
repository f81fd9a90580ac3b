//! Both ends of a chain that has sections.

ghost use Rattle.std.specs.Prelude.{◌≡◌, ◌≤◌, length, take, vec_capacity, OnOk};
ghost use Rattle.mesh_join.specs.Appending.{Appends};
ghost use Rattle.mesh_variable_stroke.specs.Private.Walks.{IsGoodSection};
ghost use Rattle.mesh_variable_stroke.specs.VariableStrokes.{start_edges, end_edges, sweep_at as sweep_at_circle};

use crate::chain_end::ChainEnd;
use mesh_circle::circle::Circle;
use mesh_circle::section::Section;
use mesh_circle::sweep::Sweep;
use mesh_circle::sweeper::Sweeper;
use mesh_join::route::push_straight;
use mesh_num::num::convert::is_less;
use mesh_num::num::{IntNumber, IntPoint};
use mesh_num::shape::segment::Segment;
use std::alloc::AllocError;

/// Adds the end of a chain at the start of its first section.
pub(crate) fn add_start<I: IntNumber>(
    sweeper: &mut Sweeper<I>,
    first: &Section<I>,
    end: ChainEnd,
    segments: &mut Vec<Segment<I>>,
) -> Result<(), AllocError>
    requires { IsGoodSection I.unit first.now }
    ensures ok { OnOk result (Appends segments.old segments.new (start_edges I.unit sweeper.old end first.now)) }
    ensures kept { take (length segments.old.items) segments.new.items ≡ segments.old.items }
    ensures capacity { vec_capacity segments.old ≤ vec_capacity segments.new }
    ensures same { sweeper.new ≡ sweeper.old }
{
    match end {
        ChainEnd::Butt => push_straight(first.a_left, first.a_right, segments),
        ChainEnd::Round => sweeper.add_arc(
            start_center(first),
            first.a_left,
            first.a_right,
            sweep_at(first.a, first.b),
            segments,
        ),
    }
}

/// Adds the end of a chain at the end of its last section.
pub(crate) fn add_end<I: IntNumber>(
    sweeper: &mut Sweeper<I>,
    last: &Section<I>,
    end: ChainEnd,
    segments: &mut Vec<Segment<I>>,
) -> Result<(), AllocError>
    requires { IsGoodSection I.unit last.now }
    ensures ok { OnOk result (Appends segments.old segments.new (end_edges I.unit sweeper.old end last.now)) }
    ensures kept { take (length segments.old.items) segments.new.items ≡ segments.old.items }
    ensures capacity { vec_capacity segments.old ≤ vec_capacity segments.new }
    ensures same { sweeper.new ≡ sweeper.old }
{
    match end {
        ChainEnd::Butt => push_straight(last.b_right, last.b_left, segments),
        ChainEnd::Round => sweeper.add_arc(
            end_center(last),
            last.b_right,
            last.b_left,
            sweep_at(last.b, last.a),
            segments,
        ),
    }
}

/// How far points on one ray are apart at a circle of a section.
fn sweep_at<I: IntNumber>(own: Circle<I>, other: Circle<I>) -> Sweep
    ensures { result ≡ sweep_at_circle own other }
{
    if is_less(other.radius, own.radius) {
        Sweep::Major
    } else {
        Sweep::Minor
    }
}

/// The vertex at which a section starts.
pub(crate) fn start_center<I: IntNumber>(section: &Section<I>) -> IntPoint<I>
    ensures { result ≡ section.now.a.center }
{
    section.a.center
}

/// The vertex at which a section ends.
pub(crate) fn end_center<I: IntNumber>(section: &Section<I>) -> IntPoint<I>
    ensures { result ≡ section.now.b.center }
{
    section.b.center
}
