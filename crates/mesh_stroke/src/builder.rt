//! Draws the offset curve of one path's stroke.

ghost use Rattle.std.specs.Prelude.{◌≡◌, ◌↔◌, ◌++◌, ◌+◌, ◌*◌, ◌≤◌, [], length, vec_capacity};
ghost use Rattle.std.specs.Prelude.{pos, ◌≤ℤ◌, ◌<ℤ◌, IsTrue, IsOk, OnOk, OnErr};
ghost use Rattle.std.specs.List.{All};
ghost use Rattle.std.specs.List.Sorted.{IsPermutation};
ghost use Rattle.mesh_plane.specs.Winding.{IsBalanced};
ghost use Rattle.mesh_num.specs.Segments.{segments_of, IsSubject};
ghost use Rattle.mesh_lattice.specs.Reach.{AreEdgesSafe};
ghost use Rattle.mesh_offset.specs.Adding.{added, added_edges, Keeps};
ghost use Rattle.mesh_offset.specs.Built.{Adds};
ghost use Rattle.mesh_join.specs.Joins.{HasFew};
ghost use Rattle.mesh_join.specs.Appending.{HasRoomForEdges};
ghost use Rattle.mesh_join.specs.declared.style.StrokeSide.TheVariants.{Both};
ghost use Rattle.mesh_offset.specs.Adding.{HasRoomFor};
ghost use Rattle.mesh_offset.specs.Padding.{AreEndsNear};
ghost use Rattle.mesh_offset.specs.Pieces.{WindAsPieces};
ghost use Rattle.mesh_stroke.specs.Building.{style_with, HasDirectCaps, HasFewCapEdges, IsStrokable};
ghost use Rattle.mesh_stroke.specs.Drawn.{HasStockCaps, PiecesWindOnce, WindsAsManyPieces};
ghost use Rattle.mesh_stroke.specs.Private.Sections.{own_edge, HasRoomToDraw, IsCorner};
ghost use Rattle.mesh_stroke.specs.Halves.{HalvesAddUp, MakeTheWhole};
ghost use Rattle.mesh_stroke.specs.Paths.{path_edges};
ghost use Rattle.mesh_stroke.specs.Reach.{WindWithinReach};
ghost use Rattle.mesh_stroke.specs.Reversal.{CountAlike, reversed_edges};
ghost use Rattle.mesh_stroke.specs.Strokes.{corner_edges, side_edges, drawn_edges, stroke_edges, stroke_pieces};
ghost use Rattle.mesh_stroke.specs.Styles.{stroke_padding, stroke_style_of};

use crate::builder_join::JoinBuilder;
use crate::caps::BothCaps;
use crate::path::PathEdges;
use crate::section::StrokeSection;
use mesh_join::join::Join;
use mesh_join::style::{IntStrokeStyle, StrokeSide};
use mesh_num::num::convert::is_less;
use mesh_num::num::{IntNumber, IntPoint};
use mesh_num::shape::segment::Segment;
use mesh_offset::radius::stroke_radius;
use std::alloc::{AllocError, Global};
use std::marker::Model;

/// Draws the offset curve of a path's stroke: both sides of its edges, joined at the corners and closed by caps at the
/// ends of an open path; or one half of it, between the path and its left or right side, with straight ends. It borrows
/// the style. Contracts see the radius, the side, the joins and the caps.
#[derive(Drop)]
pub struct StrokeBuilder<'a, I: IntNumber> {
    radius: I,
    side: StrokeSide,
    join: Join<I>,
    caps: BothCaps<'a, I>,
}

impl<'a, I: IntNumber> Model for StrokeBuilder<'a, I> {
    ghost use Rattle.mesh_stroke.specs.Building.{style_with};
    ghost use Rattle.mesh_stroke.specs.Styles.{StrokeStyle};

    ghost Value = { StrokeStyle };

    ghost view = { λ b. style_with (I.value b.radius) b.side b.join b.caps };
}

impl<'a, I: IntNumber> StrokeBuilder<'a, I> {
    /// A builder of strokes in this style. It allocates nothing.
    pub fn new(alloc: Global, style: &'a IntStrokeStyle<I>) -> Self
        ensures { result ≡ stroke_style_of I.value style.now }
    {
        StrokeBuilder {
            radius: stroke_radius(style.width),
            side: style.side,
            join: Join::new(alloc, style.join, style.miter_min_turn),
            caps: BothCaps::new(alloc, style),
        }
    }

    /// Adds the offset curve of the path through these points to `segments`. A closed path goes on from its last point
    /// to its first, and has no caps; a half ignores the caps. Every point has to stay in the safe range when it moves
    /// by the padding of the style.
    ///
    /// What the vector holds stays, and its capacity never shrinks. For a radius of at most 1, and where all points are
    /// equal, nothing is added, nothing is allocated, and the capacity stays as it is. Without round joins, and without
    /// round caps at the ends of an open path that is drawn on both sides, the call succeeds where the vector has room
    /// for the edges; with butt or square caps, or none, these are at most seven for each edge of the path and six
    /// more. After an error the vector has its old length.
    pub fn build(
        &mut self,
        path: &[IntPoint<I>],
        closed: bool,
        segments: &mut Vec<Segment<I>>,
    ) -> Result<(), AllocError>
        requires { All (IsStrokable I.unit self.old) path.now }
        // What is added, and what stays.
        ensures kept { OnOk result (Keeps segments.old.items segments.new.items) }
        ensures edges { OnOk result (IsPermutation (added_edges segments.old.items segments.new.items)
            (stroke_edges I.unit self.old closed path.now)) }
        ensures form { OnOk result (All IsSubject (added segments.old.items segments.new.items)) }
        ensures few { HasFew self.old.join → HasFewCapEdges self.old closed → OnOk result
            (length (added segments.old.items segments.new.items) ≤ 7 * length (path_edges closed path.now) + 6) }
        ensures refused { OnErr result (segments.new.items ≡ segments.old.items) }
        ensures thin { self.old.radius ≤ℤ pos 1 → IsOk result
            × (vec_capacity segments.new ≡ vec_capacity segments.old) }
        ensures no_section { path_edges closed path.now ≡ [] → IsOk result
            × (vec_capacity segments.new ≡ vec_capacity segments.old) }
        ensures room { HasFew self.old.join → HasDirectCaps self.old closed
            → HasRoomFor segments.old (length (stroke_edges I.unit self.old closed path.now)) → IsOk result }
        ensures room_for_seven { HasFew self.old.join → HasFewCapEdges self.old closed
            → HasRoomFor segments.old (7 * length (path_edges closed path.now) + 6) → IsOk result }
        ensures capacity { vec_capacity segments.old ≤ vec_capacity segments.new }
        ensures same { self.new ≡ self.old }

        // The edges close up, and stay near the path.
        ensures balanced { OnOk result (IsBalanced (added_edges segments.old.items segments.new.items)) }
        ensures near { OnOk result (AreEndsNear (stroke_padding self.old) path.now
            (added_edges segments.old.items segments.new.items)) }
        ensures safe { OnOk result (AreEdgesSafe I.unit (added_edges segments.old.items segments.new.items)) }
        ensures reach { OnOk result (WindWithinReach self.old closed path.now
            (added_edges segments.old.items segments.new.items)) }

        // How they wind.
        ensures sum { OnOk result (WindAsPieces (stroke_pieces I.unit self.old closed path.now)
            (added_edges segments.old.items segments.new.items)) }
        ensures pieces { HasStockCaps self.old closed
            → PiecesWindOnce (stroke_pieces I.unit self.old closed path.now) }
        ensures count { HasStockCaps self.old closed → OnOk result (WindsAsManyPieces
            (stroke_pieces I.unit self.old closed path.now) (added_edges segments.old.items segments.new.items)) }

        // The reversed path has the same stroke, but for one half.
        ensures reversal { self.old.side ≡ Both → OnOk result (CountAlike (reversed_edges I.unit self.old closed path.now)
            (added_edges segments.old.items segments.new.items)) }

        // Both halves make the whole.
        ensures halves { HalvesAddUp I.unit self.old closed path.now }
        ensures whole { OnOk result (MakeTheWhole I.unit self.old closed path.now
            (added_edges segments.old.items segments.new.items)) }
    {
        let length = segments.len();
        if let Err(error) = draw(
            &mut self.join,
            &mut self.caps,
            self.radius,
            self.side,
            path,
            closed,
            segments,
        ) {
            segments.truncate(length);
            return Err(error);
        }
        Ok(())
    }
}

/// Adds the edges of a stroke, nothing for a radius of at most 1.
fn draw<I: IntNumber>(
    join: &mut Join<I>,
    caps: &mut BothCaps<'_, I>,
    radius: I,
    side: StrokeSide,
    path: &[IntPoint<I>],
    closed: bool,
    segments: &mut Vec<Segment<I>>,
) -> Result<(), AllocError>
    requires { All (IsStrokable I.unit (style_with (I.value radius) side join.old caps.old)) path.now }
    ensures ok { OnOk result (Adds segments.old.items segments.new.items
        (stroke_edges I.unit (style_with (I.value radius) side join.old caps.old) closed path.now)) }
    ensures kept { Keeps segments.old.items segments.new.items }
    ensures thin { I.value radius ≤ℤ pos 1 → IsOk result
        × (vec_capacity segments.new ≡ vec_capacity segments.old) }
    ensures no_section { path_edges closed path.now ≡ [] → IsOk result
        × (vec_capacity segments.new ≡ vec_capacity segments.old) }
    ensures room { HasFew join.old → HasDirectCaps (style_with (I.value radius) side join.old caps.old) closed
        → HasRoomFor segments.old
        (length (stroke_edges I.unit (style_with (I.value radius) side join.old caps.old) closed path.now))
        → IsOk result }
    ensures capacity { vec_capacity segments.old ≤ vec_capacity segments.new }
    ensures same_join { join.new ≡ join.old }
    ensures same_caps { caps.new ≡ caps.old }
{
    if is_drawn(radius) {
        return draw_path(join, caps, radius, side, path, closed, segments);
    }
    Ok(())
}

/// Whether a stroke of this radius is drawn.
fn is_drawn<I: IntNumber>(radius: I) -> bool
    ensures { IsTrue result ↔ pos 1 <ℤ I.value radius }
{
    is_less(I::ONE, radius)
}

/// Adds the edges of a stroke of a radius of at least 0.
fn draw_path<I: IntNumber>(
    join: &mut Join<I>,
    caps: &mut BothCaps<'_, I>,
    radius: I,
    side: StrokeSide,
    path: &[IntPoint<I>],
    closed: bool,
    segments: &mut Vec<Segment<I>>,
) -> Result<(), AllocError>
    requires path { All (IsStrokable I.unit (style_with (I.value radius) side join.old caps.old)) path.now }
    requires radius { pos 0 ≤ℤ I.value radius }
    ensures ok { OnOk result (Adds segments.old.items segments.new.items
        (drawn_edges I.unit (style_with (I.value radius) side join.old caps.old) closed (path_edges closed path.now))) }
    ensures kept { Keeps segments.old.items segments.new.items }
    ensures no_section { path_edges closed path.now ≡ [] → IsOk result
        × (vec_capacity segments.new ≡ vec_capacity segments.old) }
    ensures room { HasFew join.old → HasDirectCaps (style_with (I.value radius) side join.old caps.old) closed
        → HasRoomToDraw segments.old I.unit (style_with (I.value radius) side join.old caps.old) closed path.now
        → IsOk result }
    ensures capacity { vec_capacity segments.old ≤ vec_capacity segments.new }
    ensures same_join { join.new ≡ join.old }
    ensures same_caps { caps.new ≡ caps.old }
{
    let Some(mut edges) = PathEdges::new(path, closed) else {
        return Ok(());
    };
    let Some(edge) = edges.next() else {
        return Ok(());
    };
    let first = StrokeSection::new(edge.a, edge.b, radius);
    first.add(side, segments)?;
    let mut previous = first;
    for edge in edges {
        let next = StrokeSection::new(edge.a, edge.b, radius);
        add_section(join, &previous, &next, radius, side, segments)?;
        previous = next;
    }
    if closed {
        return join.add_join(&previous, &first, radius, side, segments);
    }
    caps.add_ends(&first, &previous, radius, side, segments)
}

/// Adds what is drawn at the corner between two sections, and then the sides of the second.
fn add_section<I: IntNumber>(
    join: &mut Join<I>,
    previous: &StrokeSection<I>,
    next: &StrokeSection<I>,
    radius: I,
    side: StrokeSide,
    segments: &mut Vec<Segment<I>>,
) -> Result<(), AllocError>
    requires { IsCorner I.unit (I.value radius) join.old (previous.now, next.now) }
    ensures ok { OnOk result (segments.new.items ≡ segments.old.items
        ++ segments_of (corner_edges I.unit (I.value radius) side join.old (own_edge previous.now, own_edge next.now)
        ++ side_edges I.unit (I.value radius) side (own_edge next.now))) }
    ensures kept { Keeps segments.old.items segments.new.items }
    ensures room { HasFew join.old → HasRoomForEdges segments.old
        (corner_edges I.unit (I.value radius) side join.old (own_edge previous.now, own_edge next.now)
        ++ side_edges I.unit (I.value radius) side (own_edge next.now)) → IsOk result }
    ensures capacity { vec_capacity segments.old ≤ vec_capacity segments.new }
    ensures same { join.new ≡ join.old }
{
    join.add_join(previous, next, radius, side, segments)?;
    next.add(side, segments)
}
