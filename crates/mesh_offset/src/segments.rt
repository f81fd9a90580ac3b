//! Edges of contours and shapes added to segments, as they are or the other way about.

ghost use Rattle.std.specs.Prelude.{[], ◌∷◌, OnOk};
ghost use Rattle.std.specs.List.{flat_map};
ghost use Rattle.mesh_num.specs.Paths.{paths_of, shapes_of};
ghost use Rattle.mesh_plane.specs.Winding.{boundary};
ghost use Rattle.mesh_offset.specs.Adding.{AddsInSense, answer_edges};

use mesh_below::below::FillRule;
use mesh_num::num::{IntNumber, IntPoint};
use mesh_num::shape::buffer::IntShapes;
use mesh_num::shape::resource::IntShapeResource;
use mesh_num::shape::segment::{Segment, SubjectSegments};
use std::alloc::AllocError;

/// Adds the edges of all contours of a source: as they are in the sense `Positive`, the other way about in the sense
/// `Negative`.
pub fn add_paths<I: IntNumber, S: IntShapeResource<I>>(
    source: &S,
    fill: FillRule,
    segments: &mut Vec<Segment<I>>,
) -> Result<(), AllocError>
    ensures { OnOk result (AddsInSense fill segments.old.items segments.new.items
        (flat_map boundary (S.paths source.now))) }
{
    for index in 0..source.path_count() {
        add_closed(source.path_at(index), fill, segments)?;
    }
    Ok(())
}

/// Adds the edges of all contours of shapes, in this sense.
pub fn add_shapes<I: IntNumber>(
    shapes: &IntShapes<I>,
    fill: FillRule,
    segments: &mut Vec<Segment<I>>,
) -> Result<(), AllocError>
    ensures { OnOk result (AddsInSense fill segments.old.items segments.new.items
        (answer_edges (shapes_of shapes.now.items))) }
{
    for shape in shapes {
        add_shape(shape, fill, segments)?;
    }
    Ok(())
}

/// Adds the edges of the contours of one shape.
fn add_shape<I: IntNumber>(
    shape: &Vec<Vec<IntPoint<I>>>,
    fill: FillRule,
    segments: &mut Vec<Segment<I>>,
) -> Result<(), AllocError>
    ensures { OnOk result (AddsInSense fill segments.old.items segments.new.items
        (flat_map boundary (paths_of shape.now.items))) }
{
    for contour in shape {
        add_closed(contour.as_slice(), fill, segments)?;
    }
    Ok(())
}

/// Adds the edges of the closed contour through these points.
fn add_closed<I: IntNumber>(
    contour: &[IntPoint<I>],
    fill: FillRule,
    segments: &mut Vec<Segment<I>>,
) -> Result<(), AllocError>
    ensures { OnOk result (AddsInSense fill segments.old.items segments.new.items (boundary contour.now)) }
{
    let Some((first, rest)) = contour.split_first() else {
        return Ok(());
    };
    let mut previous = *first;
    for point in rest {
        add_edge(previous, *point, fill, segments)?;
        previous = *point;
    }
    add_edge(previous, *first, fill, segments)
}

/// Adds one edge, or nothing where its ends are one point.
fn add_edge<I: IntNumber>(
    start: IntPoint<I>,
    end: IntPoint<I>,
    fill: FillRule,
    segments: &mut Vec<Segment<I>>,
) -> Result<(), AllocError>
    ensures { OnOk result (AddsInSense fill segments.old.items segments.new.items ((start, end) ∷ [])) }
{
    match fill {
        FillRule::Positive => segments.push_non_degenerate(start, end),
        FillRule::Negative => segments.push_non_degenerate(end, start),
    }
}
