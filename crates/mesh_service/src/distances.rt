//! Distances between the shapes of a drawing and what they are drawn of.

ghost use Rattle.std.specs.Prelude.{◌≡◌, ◌≤◌, ◌^◌, None, IfOk, MatchOption, map};
ghost use Rattle.mesh_num.specs.Paths.{paths_of, shapes_of};
ghost use Rattle.mesh_variable_stroke.specs.Drawn.{vertex_points};
ghost use Rattle.mesh_drawing.specs.Drawn.{drawn_of, drawn_outline, drawn_stroke, drawn_variable_stroke};
ghost use Rattle.mesh_drawing.specs.Paddings.{DoesStayInRange};
ghost use Rattle.mesh_service.specs.Distances.{AreAskedDistances, AreDistances, IsToldClearance};

use mesh_clearance::clearance::clearance_of;
use mesh_drawing::drawing::{Drawing, Outline, Stroke, VariableStroke};
use mesh_inner::reach::inner_reach;
use mesh_join::style::IntStrokeVertex;
use mesh_num::num::{IntNumber, IntPoint, OverlayInt};
use mesh_num::shape::buffer::IntShapes;
use std::alloc::{AllocError, Global};

/// Distances of the shapes of a drawing, as their squares, in square grid units.
#[derive(Debug, Clone, Copy, PartialEq, Eq)]
pub struct Distances {
    /// The least distance between an edge of the shapes and what they are drawn of, rounded down: the contours of an
    /// outline, the paths of a stroke, or the centers of a stroke of variable width. `None` where there is no edge or no
    /// section, or where the square does not fit.
    pub clearance: Option<u64>,
    /// How near to its paths a stroke holds each point for certain. `None` where nothing is told of the stroke, and of an
    /// outline or a stroke of variable width.
    pub reach: Option<u64>,
}

/// The distances of the shapes of a drawing, where they are asked for. It fails only where memory is refused.
pub(crate) fn asked_distances<I: OverlayInt>(
    alloc: Global,
    drawing: &Drawing<I>,
    shapes: &IntShapes<I>,
    are_asked: bool,
) -> Result<Option<Distances>, AllocError>
    requires { DoesStayInRange I.unit (drawn_of I.value drawing.now) }
    ensures { IfOk result
        (AreAskedDistances are_asked I.unit (drawn_of I.value drawing.now) (shapes_of shapes.now.items)) }
{
    if !are_asked {
        return Ok(None);
    }
    Ok(Some(distances_of(alloc, drawing, shapes)?))
}

/// The distances of the shapes of a drawing.
fn distances_of<I: OverlayInt>(
    alloc: Global,
    drawing: &Drawing<I>,
    shapes: &IntShapes<I>,
) -> Result<Distances, AllocError>
    requires { DoesStayInRange I.unit (drawn_of I.value drawing.now) }
    ensures { IfOk result (AreDistances I.unit (drawn_of I.value drawing.now) (shapes_of shapes.now.items)) }
{
    match drawing {
        Drawing::Outline(outline) => outline_distances(alloc, outline, shapes),
        Drawing::Stroke(stroke) => stroke_distances(alloc, stroke, shapes),
        Drawing::VariableStroke(stroke) => variable_stroke_distances(alloc, stroke, shapes),
    }
}

fn outline_distances<I: OverlayInt>(
    alloc: Global,
    outline: &Outline<I>,
    shapes: &IntShapes<I>,
) -> Result<Distances, AllocError>
    ensures { IfOk result (AreDistances I.unit (drawn_outline I.value outline.now) (shapes_of shapes.now.items)) }
{
    let clearance = told_clearance(alloc, shapes, &outline.paths, true)?;
    Ok(Distances {
        clearance,
        reach: None,
    })
}

fn stroke_distances<I: OverlayInt>(
    alloc: Global,
    stroke: &Stroke<I>,
    shapes: &IntShapes<I>,
) -> Result<Distances, AllocError>
    requires { DoesStayInRange I.unit (drawn_stroke I.value stroke.now) }
    ensures { IfOk result (AreDistances I.unit (drawn_stroke I.value stroke.now) (shapes_of shapes.now.items)) }
{
    let clearance = told_clearance(alloc, shapes, &stroke.paths, stroke.closed)?;
    let reach = inner_reach(alloc, &stroke.style, &stroke.paths, stroke.closed)?;
    Ok(Distances { clearance, reach })
}

fn variable_stroke_distances<I: OverlayInt>(
    alloc: Global,
    stroke: &VariableStroke<I>,
    shapes: &IntShapes<I>,
) -> Result<Distances, AllocError>
    ensures { IfOk result (AreDistances I.unit (drawn_variable_stroke stroke.now) (shapes_of shapes.now.items)) }
{
    let centers = all_centers(alloc, &stroke.paths)?;
    let clearance = told_clearance(alloc, shapes, &centers, false)?;
    Ok(Distances {
        clearance,
        reach: None,
    })
}

/// How near the edges of shapes come to paths, where that fits.
fn told_clearance<I: IntNumber>(
    alloc: Global,
    shapes: &IntShapes<I>,
    paths: &Vec<Vec<IntPoint<I>>>,
    are_closed: bool,
) -> Result<Option<u64>, AllocError>
    ensures { IfOk result (IsToldClearance are_closed (shapes_of shapes.now.items) (paths_of paths.now.items)) }
{
    Ok(in_64_bits(clearance_of(alloc, shapes, paths, are_closed)?))
}

/// A number, where it fits.
fn in_64_bits(found: Option<u128>) -> Option<u64>
    ensures { MatchOption found (result ≡ None)
        (λ number. MatchOption result (2 ^ 64 ≤ number) (λ fitting. fitting ≡ number)) }
{
    let number = found?;
    if number > u64::MAX as u128 {
        return None;
    }
    Some(number as u64)
}

/// The paths through the points of vertices.
fn all_centers<I: IntNumber>(
    alloc: Global,
    paths: &[Vec<IntStrokeVertex<I>>],
) -> Result<Vec<Vec<IntPoint<I>>>, AllocError>
    ensures { IfOk result (λ centers. paths_of centers.items ≡ map vertex_points (paths_of paths.now)) }
{
    let mut all = Vec::with_capacity(alloc, paths.len())?;
    for path in paths {
        all.push(centers(alloc, path)?)?;
    }
    Ok(all)
}

fn centers<I: IntNumber>(
    alloc: Global,
    path: &[IntStrokeVertex<I>],
) -> Result<Vec<IntPoint<I>>, AllocError>
    ensures { IfOk result (λ points. points.items ≡ vertex_points path.now) }
{
    let mut points = Vec::with_capacity(alloc, path.len())?;
    for vertex in path {
        points.push(vertex.point)?;
    }
    Ok(points)
}
