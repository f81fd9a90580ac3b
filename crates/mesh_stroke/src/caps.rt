//! The caps of both ends of an open path.

ghost use Rattle.std.specs.Prelude.{◌≡◌, ◌≤◌, ◌↔◌, ℤ, length, take, vec_capacity, IsTrue, IsOk, OnOk};
ghost use Rattle.mesh_join.specs.Appending.{Appends, HasRoomForEdges};
ghost use Rattle.mesh_join.specs.declared.style.StrokeSide.TheVariants.{Both};
ghost use Rattle.mesh_stroke.specs.Caps.{drawn_cap, DrawsDirectly};
ghost use Rattle.mesh_stroke.specs.Ends.{half_turn};
ghost use Rattle.mesh_stroke.specs.Kinds.{kind_of};
ghost use Rattle.mesh_stroke.specs.Private.Sections.{own_edge, AreEnds, CapsCount, IsMade};
ghost use Rattle.mesh_stroke.specs.Strokes.{half_ends, heading, open_ends};

use crate::cap::Cap;
use crate::end::PathEnd;
use crate::section::StrokeSection;
use mesh_join::style::{IntStrokeStyle, StrokeSide};
use mesh_num::num::IntNumber;
use mesh_num::shape::segment::{Segment, SubjectSegments};
use std::alloc::{AllocError, Global};
use std::marker::Model;

/// The caps at the start and at the end of an open path. Contracts see both kinds.
#[derive(Drop)]
pub(crate) struct BothCaps<'a, I: IntNumber> {
    start: Cap<'a, I>,
    end: Cap<'a, I>,
}

impl<'a, I: IntNumber> Model for BothCaps<'a, I> {
    ghost use Rattle.mesh_stroke.specs.Caps.{CapKind};

    ghost Value = { CapKind × CapKind };

    ghost view = { λ c. (c.start, c.end) };
}

impl<'a, I: IntNumber> BothCaps<'a, I> {
    /// The caps of a style. It takes no memory.
    pub(crate) fn new(alloc: Global, style: &'a IntStrokeStyle<I>) -> Self
        ensures { result ≡ (kind_of style.now.start_cap, kind_of style.now.end_cap) }
    {
        BothCaps {
            start: Cap::new(alloc, &style.start_cap),
            end: Cap::new(alloc, &style.end_cap),
        }
    }

    /// Adds the ends of an open path with these first and last sections: its caps, or the straight ends of a half.
    /// Where there is room for their edges it succeeds, but for a round cap. After a refusal the vector still begins
    /// with what it held.
    pub(crate) fn add_ends(
        &mut self,
        first: &StrokeSection<I>,
        last: &StrokeSection<I>,
        radius: I,
        side: StrokeSide,
        segments: &mut Vec<Segment<I>>,
    ) -> Result<(), AllocError>
        requires { AreEnds I.unit (I.value radius) (drawn_cap side self.old.0) (drawn_cap side self.old.1)
            first.now last.now }
        ensures ok { OnOk result (Appends segments.old segments.new (open_ends I.unit (I.value radius) side
            self.old.0 self.old.1 (own_edge first.now) (own_edge last.now))) }
        ensures kept { take (length segments.old.items) segments.new.items ≡ segments.old.items }
        ensures room { DrawsDirectly (drawn_cap side self.old.0) → DrawsDirectly (drawn_cap side self.old.1)
            → HasRoomForEdges segments.old (open_ends I.unit (I.value radius) side
            self.old.0 self.old.1 (own_edge first.now) (own_edge last.now)) → IsOk result }
        ensures capacity { vec_capacity segments.old ≤ vec_capacity segments.new }
        ensures same { self.new ≡ self.old }
    {
        if has_caps(side) {
            return self.add(first, last, radius, segments);
        }
        cut_off(first, last, side, segments)
    }

    /// Adds the caps of an open path with these first and last sections.
    fn add(
        &mut self,
        first: &StrokeSection<I>,
        last: &StrokeSection<I>,
        radius: I,
        segments: &mut Vec<Segment<I>>,
    ) -> Result<(), AllocError>
        requires { AreEnds I.unit (I.value radius) self.old.0 self.old.1 first.now last.now }
        ensures ok { OnOk result (Appends segments.old segments.new
            (open_ends I.unit (I.value radius) Both self.old.0 self.old.1 (own_edge first.now) (own_edge last.now))) }
        ensures kept { take (length segments.old.items) segments.new.items ≡ segments.old.items }
        ensures room { DrawsDirectly self.old.0 → DrawsDirectly self.old.1 → HasRoomForEdges segments.old
            (open_ends I.unit (I.value radius) Both self.old.0 self.old.1 (own_edge first.now) (own_edge last.now))
            → IsOk result }
        ensures capacity { vec_capacity segments.old ≤ vec_capacity segments.new }
        ensures same { self.new ≡ self.old }
    {
        self.start
            .add(&end_of(&first.reversed(), radius), segments)?;
        self.end.add(&end_of(last, radius), segments)
    }
}

/// Whether an open path that is drawn on this side ends in its caps: a half is cut off straight, and no cap counts.
fn has_caps(side: StrokeSide) -> bool
    ensures value { IsTrue result ↔ (side ≡ Both) }
    ensures count { CapsCount side result }
{
    match side {
        StrokeSide::Both => true,
        StrokeSide::Left => false,
        StrokeSide::Right => false,
    }
}

/// Adds the straight ends of a half of an open path with these first and last sections.
fn cut_off<I: IntNumber>(
    first: &StrokeSection<I>,
    last: &StrokeSection<I>,
    side: StrokeSide,
    segments: &mut Vec<Segment<I>>,
) -> Result<(), AllocError>
    ensures ok { (radius : ℤ) → IsMade I.unit radius first.now → IsMade I.unit radius last.now → OnOk result
        (Appends segments.old segments.new
        (half_ends I.unit radius side (own_edge first.now) (own_edge last.now))) }
    ensures kept { take (length segments.old.items) segments.new.items ≡ segments.old.items }
    ensures room { (radius : ℤ) → IsMade I.unit radius first.now → IsMade I.unit radius last.now
        → HasRoomForEdges segments.old
        (half_ends I.unit radius side (own_edge first.now) (own_edge last.now)) → IsOk result }
    ensures capacity { vec_capacity segments.old ≤ vec_capacity segments.new }
{
    let first = first.on_side(side);
    let last = last.on_side(side);
    segments.push_non_degenerate(first.a_left, first.a_right)?;
    segments.push_non_degenerate(last.b_right, last.b_left)
}

/// The end of a section.
fn end_of<I: IntNumber>(section: &StrokeSection<I>, radius: I) -> PathEnd<I>
    requires { IsMade I.unit (I.value radius) section.now }
    ensures { result ≡ half_turn I.unit (I.value radius) section.now.b (heading I.unit (own_edge section.now)) }
{
    PathEnd {
        center: section.b,
        right: section.b_right,
        left: section.b_left,
        outward: section.direction,
        inward: section.direction.opposite(),
        radius,
    }
}
