//! The edges of one path before they are resolved, and paths of vertices that are lent. Each name is taken from the
//! module of the library that it belongs to.

ghost use Rattle.std.specs.Prelude.{◌≡◌, ◌↔◌, ◌-◌, [], length, get_or, IfOk, IfSome, IsNone};
ghost use Rattle.std.specs.List.Sorted.{IsPermutation};
ghost use Rattle.mesh_num.specs.Segments.{edges_of};
ghost use Rattle.mesh_join.specs.Styles.{outer, style_of};
ghost use Rattle.mesh_outline.specs.Outline.{outline_edges};
ghost use Rattle.mesh_stroke.specs.Strokes.{stroke_edges};
ghost use Rattle.mesh_stroke.specs.Styles.{stroke_style_of};
ghost use Rattle.mesh_variable_stroke.specs.VariableStrokes.{variable_stroke_edges};

use i_overlay_mesh::outline::{IntOutlineOffset, OutlineBuilder};
use i_overlay_mesh::stroke::{IntStrokeOffset, StrokeBuilder};
use i_overlay_mesh::variable_stroke::{
    ContourResourceIterator, IntVariableStrokeOffset, IntVariableStrokeSource,
    ShapeResourceIterator, VariableStrokeBuilder,
};
use i_overlay_mesh::{
    IntOutlineError, IntOutlineStyle, IntPoint, IntStrokeError, IntStrokeStyle, IntStrokeVertex,
    IntVariableStrokeError, IntVariableStrokeStyle, OverlayInt, Segment,
};
use mesh_join::join::Join;
use std::alloc::Global;

/// The edges of the outline of a contour in this style, by its outer offset.
pub fn outlined<I: OverlayInt>(
    alloc: Global,
    contour: &Vec<IntPoint<I>>,
    style: &IntOutlineStyle<I>,
) -> Result<Vec<Segment<I>>, IntOutlineError>
    ensures { IfOk result (λ segments. IsPermutation (edges_of segments.items)
        (outline_edges I.unit (outer (style_of I.value style.now)) contour.now.items)) }
{
    contour.validate_outline(style)?;
    let join = Join::new(alloc, style.join, style.miter_min_turn);
    let mut builder = OutlineBuilder::new(style.outer_offset, join);
    let mut segments = Vec::new(alloc);
    builder.build(contour, &mut segments)?;
    Ok(segments)
}

/// The edges of the stroke of a path in this style.
pub fn stroked<I: OverlayInt>(
    alloc: Global,
    path: &Vec<IntPoint<I>>,
    style: &IntStrokeStyle<I>,
    closed: bool,
) -> Result<Vec<Segment<I>>, IntStrokeError>
    ensures { IfOk result (λ segments. IsPermutation (edges_of segments.items)
        (stroke_edges I.unit (stroke_style_of I.value style.now) closed path.now.items)) }
{
    path.validate_stroke(style)?;
    let mut builder = StrokeBuilder::new(alloc, style);
    let mut segments = Vec::new(alloc);
    builder.build(path, closed, &mut segments)?;
    Ok(segments)
}

/// The edges of the stroke of a path that has at each vertex the width which stands there.
pub fn variably_stroked<I: OverlayInt>(
    alloc: Global,
    path: &Vec<IntStrokeVertex<I>>,
    style: IntVariableStrokeStyle,
) -> Result<Vec<Segment<I>>, IntVariableStrokeError>
    ensures { IfOk result (λ segments. IsPermutation (edges_of segments.items)
        (variable_stroke_edges I.unit style.arc path.now.items)) }
{
    path.validate_variable_stroke()?;
    let mut builder = VariableStrokeBuilder::new(alloc, style);
    let mut segments = Vec::new(alloc);
    builder.build(path, &mut segments)?;
    Ok(segments)
}

/// The vertices of the last path of a source, `None` where it has no path.
pub fn last_path<I: OverlayInt, S: IntVariableStrokeSource<I>>(
    source: &S,
) -> Option<&[IntStrokeVertex<I>]>
    ensures none { IsNone result ↔ (S.paths source.now ≡ []) }
    ensures value { IfSome result (λ path. path.now
        ≡ get_or (S.paths source.now) (length (S.paths source.now) - 1) []) }
{
    let last = source.path_count().checked_sub(1)?;
    Some(source.path_at(last))
}

/// How many paths are lent by a slice of paths, and by a slice of vertices, which is one.
pub fn lent_counts<I: OverlayInt>(
    paths: &[Vec<IntStrokeVertex<I>>],
    path: &[IntStrokeVertex<I>],
) -> (usize, usize)
    ensures { result ≡ (length paths.now, 1) }
{
    (
        ShapeResourceIterator::with_slice(paths).len(),
        ContourResourceIterator::with_slice(path).len(),
    )
}
