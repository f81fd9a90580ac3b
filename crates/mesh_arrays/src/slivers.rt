//! Shapes in lists, without their slivers.

ghost use Rattle.mesh_arrays.specs.ShapeRooms.{LeavesShapes, shape_lists, shape_room};
ghost use Rattle.mesh_arrays.specs.Slivers.{IsSliverAnswer};
ghost use Rattle.mesh_arrays.specs.Telling.{TellsAnswer};

use crate::failure::Failure;
use crate::given::read_shapes;
use crate::numbers::Flat;
use crate::outcome::Outcome;
use crate::shapes::{FlatShapes, ShapeCounts, hand_over_shapes};
use mesh_num::num::{IntNumber, IntPoint};
use mesh_slivers::slivers::without_slivers;
use std::alloc::Global;

/// Tells the given shapes without their slivers, as `left_shapes` finds them. `RoomTooSmall`: they do not fit, and the
/// lists are as they were.
pub fn tell_without_slivers<I: IntNumber, P: Flat<Item = IntPoint<I>>>(
    alloc: Global,
    points: &[P],
    contour_ends: &[usize],
    shape_ends: &[usize],
    width: u32,
    left_points: &mut [P],
    left_contour_ends: &mut [usize],
    left_shape_ends: &mut [usize],
    counts: &mut ShapeCounts,
) -> Outcome
    ensures { TellsAnswer
        (IsSliverAnswer P.item_of (shape_lists points.now contour_ends.now shape_ends.now) width) LeavesShapes
        (shape_room left_points.old left_contour_ends.old left_shape_ends.old counts.old)
        (shape_room left_points.new left_contour_ends.new left_shape_ends.new counts.new) result }
{
    let answer = left_shapes(alloc, points, contour_ends, shape_ends, width);
    hand_over_shapes(
        &answer,
        left_points,
        left_contour_ends,
        left_shape_ends,
        counts,
    )
}

/// The shapes that stand end to end in `points`, without their slivers: contours whose vertices all lie at most `width`
/// grid units from the line from the first one to the one farthest from it. Holes that are slivers go, and shapes all of
/// whose contours are. `contour_ends` has for each contour, in order, how many points stand in it and before it, and
/// `shape_ends` for each shape how many contours. `Malformed`: these are no ends of contours, or of shapes.
/// `OutOfMemory`: memory was refused. There is no other failure.
fn left_shapes<I: IntNumber, P: Flat<Item = IntPoint<I>>>(
    alloc: Global,
    points: &[P],
    contour_ends: &[usize],
    shape_ends: &[usize],
    width: u32,
) -> Result<FlatShapes<P>, Failure>
    ensures { IsSliverAnswer P.item_of (shape_lists points.now contour_ends.now shape_ends.now) width result }
{
    let shapes = read_shapes(alloc, points, contour_ends, shape_ends)?;
    let left = without_slivers(shapes, width);
    Ok(FlatShapes::of(alloc, &left)?)
}
