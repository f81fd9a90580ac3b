//! Drawings out of lists and numbers.

ghost use Rattle.mesh_drawing.specs.Drawn.{drawn_of};
ghost use Rattle.mesh_arrays.specs.Drawings.{IsOutlineOf, IsStrokeOf, IsVariableStrokeOf};
ghost use Rattle.mesh_arrays.specs.Failures.{IsRead};

use crate::failure::Failure;
use crate::lists::read_lists;
use crate::numbers::Flat;
use crate::styles::{FlatArc, FlatOutlineStyle, FlatStrokeStyle, flag};
use mesh_drawing::drawing::{Drawing, Outline, Stroke, VariableStroke};
use mesh_join::style::{IntStrokeVertex, IntVariableStrokeStyle};
use mesh_num::num::{IntPoint, OverlayInt};
use std::alloc::Global;

/// The outline of contours that stand end to end in `points`; `ends` has for each contour, in order, how many points
/// stand in it and before it. `Malformed`: these are no ends of paths, or the style stands for none. `OutOfMemory`:
/// memory was refused. There is no other failure.
pub fn outline<I: OverlayInt, P: Flat<Item = IntPoint<I>>>(
    alloc: Global,
    points: &[P],
    ends: &[usize],
    style: &FlatOutlineStyle,
) -> Result<Drawing<I>, Failure>
    ensures { IsRead (drawn_of I.value) (IsOutlineOf I.unit P.item_of points.now ends.now style.now) result }
{
    let Some(style) = style.style() else {
        return Err(Failure::Malformed);
    };
    let paths = read_lists(alloc, points, ends)?;
    Ok(Drawing::Outline(Outline { paths, style }))
}

/// The stroke of paths that stand end to end in `points`, with the points of custom caps; `ends` has for each path, in
/// order, how many points stand in it and before it. `Malformed`: these are no ends of paths, or the style stands for
/// none. `OutOfMemory`: memory was refused. There is no other failure.
pub fn stroke<I: OverlayInt, P: Flat<Item = IntPoint<I>>>(
    alloc: Global,
    points: &[P],
    ends: &[usize],
    style: &FlatStrokeStyle,
    start_points: &[P],
    end_points: &[P],
) -> Result<Drawing<I>, Failure>
    ensures { IsRead (drawn_of I.value)
        (IsStrokeOf I.unit P.item_of points.now ends.now style.now (start_points.now, end_points.now)) result }
{
    let Some(closed) = flag(style.closed) else {
        return Err(Failure::Malformed);
    };
    let style = style.style(alloc, start_points, end_points)?;
    let paths = read_lists(alloc, points, ends)?;
    Ok(Drawing::Stroke(Stroke {
        paths,
        style,
        closed,
    }))
}

/// The stroke of paths of vertices that stand end to end in `vertices`; `ends` has for each path, in order, how many
/// vertices stand in it and before it. `Malformed`: these are no ends of paths. `OutOfMemory`: memory was
/// refused. There is no other failure.
pub fn variable_stroke<I: OverlayInt, V: Flat<Item = IntStrokeVertex<I>>>(
    alloc: Global,
    vertices: &[V],
    ends: &[usize],
    arc: &FlatArc,
) -> Result<Drawing<I>, Failure>
    ensures { IsRead (drawn_of I.value) (IsVariableStrokeOf V.item_of vertices.now ends.now arc.now) result }
{
    let paths = read_lists(alloc, vertices, ends)?;
    let style = IntVariableStrokeStyle::new().arc(arc.options());
    Ok(Drawing::VariableStroke(VariableStroke { paths, style }))
}
