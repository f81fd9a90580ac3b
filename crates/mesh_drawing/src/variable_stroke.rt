//! Strokes of variable width, drawn by the library.

ghost use Rattle.std.specs.Prelude.{◌≡◌, IfOk};
ghost use Rattle.mesh_num.specs.Paths.{paths_of};
ghost use Rattle.mesh_variable_stroke.specs.Drawn.{greatest_radius, AreStrokable};
ghost use Rattle.mesh_variable_stroke.specs.VariableStrokes.{variable_stroke_edges};
ghost use Rattle.mesh_variable_stroke.specs.Strokable.{ArePathsStrokable};
ghost use Rattle.mesh_drawing.specs.Order.{by_values};
ghost use Rattle.mesh_drawing.specs.Drawings.{AreListed, IsListed};
ghost use Rattle.mesh_drawing.specs.Drawn.{drawn_variable_stroke};

use crate::drawable::{Drawable, ShapeOptions};
use crate::drawing::VariableStroke;
use crate::edge::sorted_edges;
use i_overlay_mesh::IntOutlineError;
use i_overlay_mesh::variable_stroke::builder::VariableStrokeBuilder;
use i_overlay_mesh::variable_stroke::offset::IntVariableStrokeOffset;
use mesh_below::nearness::{NearShapes, SplitCount};
use mesh_join::style::IntStrokeVertex;
use mesh_num::num::OverlayInt;
use mesh_num::shape::buffer::IntShapes;
use mesh_num::shape::edge::DirectedEdge;
use mesh_offset::error::IntNearnessError;
use std::alloc::{AllocError, Global};

impl<I: OverlayInt> Drawable<I> for VariableStroke<I> {
    ghost drawn = { drawn_variable_stroke };

    fn validate(&self) -> Result<(), IntOutlineError> {
        self.paths.validate_variable_stroke()
    }

    fn edges(&self, alloc: Global) -> Result<Vec<Vec<DirectedEdge<I>>>, IntOutlineError> {
        let mut builder = VariableStrokeBuilder::new(alloc, self.style);
        Ok(edge_lists(alloc, &self.paths, &mut builder)?)
    }

    fn shapes(
        &self,
        alloc: Global,
        options: &ShapeOptions<I>,
    ) -> Result<IntShapes<I>, IntOutlineError> {
        self.paths
            .variable_stroke_custom(alloc, self.style, options.0)
    }

    fn near_shapes(
        &self,
        alloc: Global,
        options: &ShapeOptions<I>,
        count: &mut SplitCount,
    ) -> Result<NearShapes<I>, IntNearnessError> {
        self.paths
            .variable_stroke_with_nearness(alloc, self.style, options.0, count)
    }
}

/// The edges of the stroke of each path, in their order, by this builder.
fn edge_lists<I: OverlayInt>(
    alloc: Global,
    paths: &[Vec<IntStrokeVertex<I>>],
    builder: &mut VariableStrokeBuilder<I>,
) -> Result<Vec<Vec<DirectedEdge<I>>>, AllocError>
    requires { ArePathsStrokable I.unit (paths_of paths.now) }
    ensures { IfOk result (λ lists. AreListed (by_values I.cmp I.of_value)
        (variable_stroke_edges I.unit builder.old) (paths_of paths.now) (paths_of lists.items)) }
{
    let mut lists = Vec::with_capacity(alloc, paths.len())?;
    for path in paths {
        lists.push(edge_list(alloc, path, builder)?)?;
    }
    Ok(lists)
}

/// The edges of the stroke of a path, in their order. The builder stays as it is.
fn edge_list<I: OverlayInt>(
    alloc: Global,
    path: &[IntStrokeVertex<I>],
    builder: &mut VariableStrokeBuilder<I>,
) -> Result<Vec<DirectedEdge<I>>, AllocError>
    requires { AreStrokable I.unit (greatest_radius path.now) path.now }
    ensures listed { IfOk result (λ edges. IsListed (by_values I.cmp I.of_value)
        (variable_stroke_edges I.unit builder.old) path.now edges.items) }
    ensures same { builder.new ≡ builder.old }
{
    let mut segments = Vec::new(alloc);
    builder.build(path, &mut segments)?;
    sorted_edges(alloc, &segments)
}
