//! Draws the offset curve of one contour.

ghost use Rattle.std.specs.Prelude.{◌≡◌, ◌*◌, ◌≤◌, length, pos, vec_capacity, OnOk, OnErr, IsOk, ◌++◌};
ghost use Rattle.std.specs.List.{All};
ghost use Rattle.std.specs.List.Sorted.{IsPermutation};
ghost use Rattle.mesh_plane.specs.Winding.{IsBalanced};
ghost use Rattle.mesh_num.specs.Segments.{IsSubject};
ghost use Rattle.mesh_lattice.specs.Reach.{AreEdgesSafe};
ghost use Rattle.mesh_join.specs.Cleaned.{AllEqual, cleaned_sections};
ghost use Rattle.mesh_join.specs.Joins.{offset_padding, HasFew};
ghost use Rattle.mesh_join.specs.Styles.{style_of};
ghost use Rattle.mesh_offset.specs.Adding.{added, added_edges, Keeps};
ghost use Rattle.mesh_offset.specs.Built.{Adds};
ghost use Rattle.mesh_offset.specs.Drawing.{NeverTurnedRound, WindAsContourAndPieces, WindsByCount};
ghost use Rattle.mesh_offset.specs.Adding.{HasRoomFor};
ghost use Rattle.mesh_offset.specs.Padding.{AreEndsNear};
ghost use Rattle.mesh_outline.specs.Building.{style_for, IsMovable};
ghost use Rattle.mesh_outline.specs.Drawn.{WindAsContour};
ghost use Rattle.mesh_outline.specs.Kinds.{way_for};
ghost use Rattle.mesh_outline.specs.Private.Sections.{corner_segments, offset_join, top_segments, IsCorner};
ghost use Rattle.mesh_outline.specs.Outline.{outline_edges, outline_pieces};
ghost use Rattle.mesh_outline.specs.Reach.{DifferWithinReach};

use crate::builder_join::{JoinBuilder, is_outer};
use crate::kind::ContourKind;
use crate::section::OffsetSection;
use mesh_join::join::Join;
use mesh_join::style::IntOutlineStyle;
use mesh_join::uniq_iter::UniqueSegmentsIter;
use mesh_num::num::{IntNumber, IntPoint};
use mesh_num::shape::segment::{Segment, SubjectSegments};
use std::alloc::{AllocError, Global};
use std::marker::Model;

/// Draws the offset curve of a contour: its sections moved sideways by an offset and joined at the corners. Contracts
/// see the offset and the style of the joins.
#[derive(Drop)]
pub struct OutlineBuilder<I: IntNumber> {
    offset: I,
    join: Join<I>,
}

impl<I: IntNumber> Model for OutlineBuilder<I> {
    ghost use Rattle.mesh_join.specs.Styles.{OffsetJoin};

    ghost Value = { OffsetJoin };

    ghost view = { λ b. record { offset = I.value b.offset; join = b.join } };
}

impl<I: IntNumber> OutlineBuilder<I> {
    /// A builder with this offset in grid units: to the right of the contour's edges, or to their left where it is
    /// negative.
    pub fn new(offset: I, join: Join<I>) -> Self
        ensures { result ≡ record { offset = I.value offset; join = join } }
    {
        OutlineBuilder { offset, join }
    }

    /// A builder for a contour of this double area, in this style. Outer boundaries (area above 0) move by the outer
    /// offset, holes (area below 0) by the inner offset; contours of area 0 do not move, which gives `None`. It
    /// allocates nothing.
    pub fn for_area(alloc: Global, style: &IntOutlineStyle<I>, double_area: i128) -> Option<Self>
        ensures { result ≡ style_for (style_of I.value style.now) double_area }
    {
        Self::for_kind(alloc, style, ContourKind::of_area(double_area))
    }

    /// A builder for a contour of this kind, in this style, or `None` for a kind that does not move. It allocates
    /// nothing.
    pub fn for_kind(alloc: Global, style: &IntOutlineStyle<I>, kind: ContourKind) -> Option<Self>
        ensures { result ≡ way_for (style_of I.value style.now) kind }
    {
        let offset = match kind {
            ContourKind::Outer => style.outer_offset,
            ContourKind::Hole => style.inner_offset,
            ContourKind::Ignored => return None,
        };
        let join = Join::new(alloc, style.join, style.miter_min_turn);
        Some(OutlineBuilder::new(offset, join))
    }

    /// Adds the offset curve of the closed contour through these points to `segments`. Every point has to stay in the
    /// safe range when it moves by the padding of the joins.
    ///
    /// What the vector holds stays, and its capacity never shrinks. Where there is no point, or all points are equal,
    /// nothing is allocated and the capacity stays as it is. Without round joins there are at most four edges for each
    /// section, and the call succeeds where the vector has room for them. After an error the vector has its old length.
    pub fn build(
        &mut self,
        path: &[IntPoint<I>],
        segments: &mut Vec<Segment<I>>,
    ) -> Result<(), AllocError>
        requires { All (IsMovable I.unit self.old) path.now }
        // What is added, and what stays.
        ensures kept { OnOk result (Keeps segments.old.items segments.new.items) }
        ensures edges { OnOk result (IsPermutation (added_edges segments.old.items segments.new.items)
            (outline_edges I.unit self.old path.now)) }
        ensures form { OnOk result (All IsSubject (added segments.old.items segments.new.items)) }
        ensures few { HasFew self.old.join → OnOk result (length (added segments.old.items segments.new.items)
            ≤ 4 * length (cleaned_sections path.now)) }
        ensures refused { OnErr result (segments.new.items ≡ segments.old.items) }
        ensures nothing { AllEqual path.now → IsOk result }
        ensures room { HasFew self.old.join → HasRoomFor segments.old (length (outline_edges I.unit self.old path.now))
            → IsOk result }
        ensures room_for_four { HasFew self.old.join → HasRoomFor segments.old (4 * length (cleaned_sections path.now))
            → IsOk result }
        ensures capacity { vec_capacity segments.old ≤ vec_capacity segments.new }
        ensures no_memory { AllEqual path.now → vec_capacity segments.new ≡ vec_capacity segments.old }
        ensures same { self.new ≡ self.old }

        // The edges close up, and stay near the contour.
        ensures balanced { OnOk result (IsBalanced (added_edges segments.old.items segments.new.items)) }
        ensures near { OnOk result (AreEndsNear (offset_padding self.old) path.now
            (added_edges segments.old.items segments.new.items)) }
        ensures safe { OnOk result (AreEdgesSafe I.unit (added_edges segments.old.items segments.new.items)) }
        ensures reach { OnOk result (DifferWithinReach self.old path.now
            (added_edges segments.old.items segments.new.items)) }

        // How they wind.
        ensures sum { OnOk result (WindAsContourAndPieces path.now (outline_pieces I.unit self.old path.now)
            (added_edges segments.old.items segments.new.items)) }
        ensures pieces { OnOk result (NeverTurnedRound self.old.offset (outline_pieces I.unit self.old path.now)) }
        ensures count { OnOk result (WindsByCount self.old.offset path.now (outline_pieces I.unit self.old path.now)
            (added_edges segments.old.items segments.new.items)) }
        ensures zero { self.old.offset ≡ pos 0 → OnOk result (WindAsContour path.now
            (added_edges segments.old.items segments.new.items)) }
    {
        let length = segments.len();
        if let Err(error) = draw(&mut self.join, self.offset, path, segments) {
            segments.truncate(length);
            return Err(error);
        }
        Ok(())
    }
}

fn feed_join<I: IntNumber>(
    join: &mut Join<I>,
    offset: I,
    previous: &OffsetSection<I>,
    next: &OffsetSection<I>,
    segments: &mut Vec<Segment<I>>,
) -> Result<(), AllocError>
    requires { IsCorner I.unit (offset_join (I.value offset) join.old) (previous.now, next.now) }
    ensures ok { OnOk result (segments.new.items ≡ segments.old.items
        ++ corner_segments I.unit (offset_join (I.value offset) join.old) (previous.now, next.now)) }
    ensures room { HasFew join.old → HasRoomFor segments.old
        (length (corner_segments I.unit (offset_join (I.value offset) join.old) (previous.now, next.now)))
        → IsOk result }
    ensures capacity { vec_capacity segments.old ≤ vec_capacity segments.new }
    ensures kept { Keeps segments.old.items segments.new.items }
    ensures same { join.new ≡ join.old }
{
    if is_outer(offset, previous, next) {
        return join.add_join(offset, previous, next, segments);
    }
    segments.push_non_degenerate(previous.b_top, previous.b)?;
    segments.push_non_degenerate(next.a, next.a_top)
}

fn feed_section<I: IntNumber>(
    join: &mut Join<I>,
    offset: I,
    previous: &OffsetSection<I>,
    next: &OffsetSection<I>,
    segments: &mut Vec<Segment<I>>,
) -> Result<(), AllocError>
    requires { IsCorner I.unit (offset_join (I.value offset) join.old) (previous.now, next.now) }
    ensures ok { OnOk result (segments.new.items ≡ segments.old.items
        ++ (corner_segments I.unit (offset_join (I.value offset) join.old) (previous.now, next.now)
        ++ top_segments next.now)) }
    ensures room { HasFew join.old → HasRoomFor segments.old
        (length (corner_segments I.unit (offset_join (I.value offset) join.old) (previous.now, next.now)
        ++ top_segments next.now)) → IsOk result }
    ensures capacity { vec_capacity segments.old ≤ vec_capacity segments.new }
    ensures kept { Keeps segments.old.items segments.new.items }
    ensures same { join.new ≡ join.old }
{
    feed_join(join, offset, previous, next, segments)?;
    segments.push_non_degenerate(next.a_top, next.b_top)
}

fn draw<I: IntNumber>(
    join: &mut Join<I>,
    offset: I,
    path: &[IntPoint<I>],
    segments: &mut Vec<Segment<I>>,
) -> Result<(), AllocError>
    requires { All (IsMovable I.unit (offset_join (I.value offset) join.old)) path.now }
    ensures ok { OnOk result (Adds segments.old.items segments.new.items
        (outline_edges I.unit (offset_join (I.value offset) join.old) path.now)) }
    ensures kept { Keeps segments.old.items segments.new.items }
    ensures same { join.new ≡ join.old }
    ensures nothing { AllEqual path.now → IsOk result }
    ensures room { HasFew join.old → HasRoomFor segments.old
        (length (outline_edges I.unit (offset_join (I.value offset) join.old) path.now)) → IsOk result }
    ensures capacity { vec_capacity segments.old ≤ vec_capacity segments.new }
    ensures no_memory { AllEqual path.now → vec_capacity segments.new ≡ vec_capacity segments.old }
{
    let Some(mut sections) = UniqueSegmentsIter::new(path) else {
        return Ok(());
    };
    let Some(first) = sections.next() else {
        return Ok(());
    };
    let first = OffsetSection::new(first.a, first.b, offset);
    segments.push_non_degenerate(first.a_top, first.b_top)?;
    let mut previous = first;
    for segment in sections {
        let next = OffsetSection::new(segment.a, segment.b, offset);
        feed_section(join, offset, &previous, &next, segments)?;
        previous = next;
    }
    feed_join(join, offset, &previous, &first, segments)
}
