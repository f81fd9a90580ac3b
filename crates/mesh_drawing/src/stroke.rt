//! Strokes, drawn by the library.

ghost use Rattle.std.specs.Prelude.{◌≡◌, IfOk};
ghost use Rattle.std.specs.List.{All};
ghost use Rattle.mesh_num.specs.Paths.{paths_of};
ghost use Rattle.mesh_offset.specs.Padding.{ArePathsSafe};
ghost use Rattle.mesh_stroke.specs.Building.{IsStrokable};
ghost use Rattle.mesh_stroke.specs.Strokes.{stroke_edges};
ghost use Rattle.mesh_stroke.specs.Styles.{stroke_padding};
ghost use Rattle.mesh_drawing.specs.Order.{by_values};
ghost use Rattle.mesh_drawing.specs.Drawings.{AreListed, IsListed};
ghost use Rattle.mesh_drawing.specs.Drawn.{drawn_stroke};

use crate::drawable::{Drawable, ShapeOptions};
use crate::drawing::Stroke;
use crate::edge::sorted_edges;
use i_overlay_mesh::IntOutlineError;
use i_overlay_mesh::stroke::builder::StrokeBuilder;
use i_overlay_mesh::stroke::offset::IntStrokeOffset;
use mesh_below::nearness::{NearShapes, SplitCount};
use mesh_num::num::{IntPoint, OverlayInt};
use mesh_num::shape::buffer::IntShapes;
use mesh_num::shape::edge::DirectedEdge;
use mesh_offset::error::IntNearnessError;
use std::alloc::{AllocError, Global};

impl<I: OverlayInt> Drawable<I> for Stroke<I> {
    ghost drawn = { drawn_stroke I.value };

    fn validate(&self) -> Result<(), IntOutlineError> {
        self.paths.validate_stroke(&self.style)
    }

    fn edges(&self, alloc: Global) -> Result<Vec<Vec<DirectedEdge<I>>>, IntOutlineError> {
        let mut builder = StrokeBuilder::new(alloc, &self.style);
        Ok(edge_lists(alloc, &self.paths, self.closed, &mut builder)?)
    }

    fn shapes(
        &self,
        alloc: Global,
        options: &ShapeOptions<I>,
    ) -> Result<IntShapes<I>, IntOutlineError> {
        self.paths
            .stroke_custom(alloc, &self.style, self.closed, options.0)
    }

    fn near_shapes(
        &self,
        alloc: Global,
        options: &ShapeOptions<I>,
        count: &mut SplitCount,
    ) -> Result<NearShapes<I>, IntNearnessError> {
        self.paths
            .stroke_with_nearness(alloc, &self.style, self.closed, options.0, count)
    }
}

/// The edges of the stroke of each path, in their order, by this builder.
fn edge_lists<I: OverlayInt>(
    alloc: Global,
    paths: &[Vec<IntPoint<I>>],
    closed: bool,
    builder: &mut StrokeBuilder<'_, I>,
) -> Result<Vec<Vec<DirectedEdge<I>>>, AllocError>
    requires { ArePathsSafe I.unit (stroke_padding builder.old) (paths_of paths.now) }
    ensures { IfOk result (λ lists. AreListed (by_values I.cmp I.of_value)
        (stroke_edges I.unit builder.old closed) (paths_of paths.now) (paths_of lists.items)) }
{
    let mut lists = Vec::with_capacity(alloc, paths.len())?;
    for path in paths {
        lists.push(edge_list(alloc, path, closed, builder)?)?;
    }
    Ok(lists)
}

/// The edges of the stroke of a path, in their order. The builder stays as it is.
fn edge_list<I: OverlayInt>(
    alloc: Global,
    path: &[IntPoint<I>],
    closed: bool,
    builder: &mut StrokeBuilder<'_, I>,
) -> Result<Vec<DirectedEdge<I>>, AllocError>
    requires { All (IsStrokable I.unit builder.old) path.now }
    ensures listed { IfOk result (λ edges. IsListed (by_values I.cmp I.of_value)
        (stroke_edges I.unit builder.old closed) path.now edges.items) }
    ensures same { builder.new ≡ builder.old }
{
    let mut segments = Vec::new(alloc);
    builder.build(path, closed, &mut segments)?;
    sorted_edges(alloc, &segments)
}
