//! Outlines, drawn by the library.

ghost use Rattle.std.specs.Prelude.{◌≡◌, map, IfOk};
ghost use Rattle.std.specs.List.{All};
ghost use Rattle.std.specs.List.Sorted.{IsPermutation};
ghost use Rattle.mesh_num.specs.Paths.{paths_of};
ghost use Rattle.mesh_num.specs.Rectangle.{IsSafeWidened};
ghost use Rattle.mesh_num.specs.Segments.{edges_of};
ghost use Rattle.mesh_join.specs.Joins.{outline_padding};
ghost use Rattle.mesh_join.specs.Styles.{style_of};
ghost use Rattle.mesh_offset.specs.Padding.{ArePathsSafe};
ghost use Rattle.mesh_outline.specs.Kinds.{contour_kind};
ghost use Rattle.mesh_drawing.specs.Order.{by_values};
ghost use Rattle.mesh_drawing.specs.Drawings.{AreListed, IsListed, served_edges};
ghost use Rattle.mesh_drawing.specs.Drawn.{drawn_outline};

use crate::drawable::{Drawable, ShapeOptions};
use crate::drawing::Outline;
use crate::edge::sorted_edges;
use i_overlay_mesh::IntOutlineError;
use i_overlay_mesh::outline::builder::OutlineBuilder;
use i_overlay_mesh::outline::kind::{ContourKind, contour_kinds};
use i_overlay_mesh::outline::offset::IntOutlineOffset;
use mesh_below::nearness::{NearShapes, SplitCount};
use mesh_join::style::IntOutlineStyle;
use mesh_num::num::{IntPoint, OverlayInt};
use mesh_num::shape::buffer::IntShapes;
use mesh_num::shape::edge::DirectedEdge;
use mesh_num::shape::segment::Segment;
use mesh_offset::error::IntNearnessError;
use std::alloc::{AllocError, Global};

impl<I: OverlayInt> Drawable<I> for Outline<I> {
    ghost drawn = { drawn_outline I.value };

    fn validate(&self) -> Result<(), IntOutlineError> {
        self.paths.validate_outline(&self.style)
    }

    fn edges(&self, alloc: Global) -> Result<Vec<Vec<DirectedEdge<I>>>, IntOutlineError> {
        let kinds = contour_kinds(&self.paths, alloc)?;
        Ok(edge_lists(alloc, &self.paths, &kinds, &self.style)?)
    }

    fn shapes(
        &self,
        alloc: Global,
        options: &ShapeOptions<I>,
    ) -> Result<IntShapes<I>, IntOutlineError> {
        self.paths.outline_custom(alloc, &self.style, options.0)
    }

    fn near_shapes(
        &self,
        alloc: Global,
        options: &ShapeOptions<I>,
        count: &mut SplitCount,
    ) -> Result<NearShapes<I>, IntNearnessError> {
        self.paths
            .outline_with_nearness(alloc, &self.style, options.0, count)
    }
}

/// The edges of the outline of each path, which is of the kind that stands at its place, in their order.
fn edge_lists<I: OverlayInt>(
    alloc: Global,
    paths: &[Vec<IntPoint<I>>],
    kinds: &[ContourKind],
    style: &IntOutlineStyle<I>,
) -> Result<Vec<Vec<DirectedEdge<I>>>, AllocError>
    requires safe { ArePathsSafe I.unit (outline_padding (style_of I.value style.now)) (paths_of paths.now) }
    requires kinds { kinds.now ≡ map contour_kind (paths_of paths.now) }
    ensures { IfOk result (λ lists. AreListed (by_values I.cmp I.of_value)
        (served_edges I.unit (style_of I.value style.now)) (paths_of paths.now) (paths_of lists.items)) }
{
    let mut lists = Vec::with_capacity(alloc, paths.len())?;
    for (index, path) in paths.iter().enumerate() {
        lists.push(edge_list(alloc, path, kinds[index], style)?)?;
    }
    Ok(lists)
}

/// The edges of the outline of a path of this kind, in their order.
fn edge_list<I: OverlayInt>(
    alloc: Global,
    path: &[IntPoint<I>],
    kind: ContourKind,
    style: &IntOutlineStyle<I>,
) -> Result<Vec<DirectedEdge<I>>, AllocError>
    requires safe { All (IsSafeWidened I.unit (outline_padding (style_of I.value style.now))) path.now }
    requires kind { kind ≡ contour_kind path.now }
    ensures { IfOk result (λ edges. IsListed (by_values I.cmp I.of_value)
        (served_edges I.unit (style_of I.value style.now)) path.now edges.items) }
{
    let segments = path_segments(alloc, path, kind, style)?;
    sorted_edges(alloc, &segments)
}

/// The segments of the outline of a path of this kind, none where it is ignored.
fn path_segments<I: OverlayInt>(
    alloc: Global,
    path: &[IntPoint<I>],
    kind: ContourKind,
    style: &IntOutlineStyle<I>,
) -> Result<Vec<Segment<I>>, AllocError>
    requires safe { All (IsSafeWidened I.unit (outline_padding (style_of I.value style.now))) path.now }
    requires kind { kind ≡ contour_kind path.now }
    ensures { IfOk result (λ ss. IsPermutation (edges_of ss.items)
        (served_edges I.unit (style_of I.value style.now) path.now)) }
{
    let mut segments = Vec::new(alloc);
    let Some(mut builder) = OutlineBuilder::for_kind(alloc, style, kind) else {
        return Ok(segments);
    };
    builder.build(path, &mut segments)?;
    Ok(segments)
}
