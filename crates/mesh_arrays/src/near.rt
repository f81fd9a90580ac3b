//! Room for shapes and their nearness.

ghost use Rattle.mesh_arrays.specs.ShapeRooms.{LeavesNear, near_room};
ghost use Rattle.mesh_arrays.specs.Telling.{IsTold};

use crate::failure::Failure;
use crate::outcome::Outcome;
use crate::shapes::{FlatShapes, ShapeCounts};

/// Shapes of contours, end to end in lists, and their nearness.
#[derive(Drop)]
pub struct NearFlatShapes<P> {
    /// The shapes.
    pub shapes: FlatShapes<P>,
    /// The distance, in 64ths of a grid unit, rounded up: the shapes are exact at each point that is farther from each
    /// drawn edge, where distance is the greater of both coordinates' differences. 0 where rounding moved nothing.
    pub nearness: u64,
}

/// Copies the shapes to the beginnings of the caller's lists where all of them fit, and tells how many items each has,
/// and the nearness. `RoomTooSmall`: they do not fit, and the lists are as they were. Where there are no shapes, all is
/// as it was.
pub fn hand_over_near<P: Copy>(
    answer: &Result<NearFlatShapes<P>, Failure>,
    points: &mut [P],
    contour_ends: &mut [usize],
    shape_ends: &mut [usize],
    counts: &mut ShapeCounts,
    nearness: &mut u64,
) -> Outcome
    ensures { IsTold LeavesNear answer.now
        (near_room points.old contour_ends.old shape_ends.old counts.old nearness.old)
        (near_room points.new contour_ends.new shape_ends.new counts.new nearness.new) result }
{
    let near = match answer {
        Ok(near) => near,
        Err(failure) => return Outcome::of(*failure),
    };
    *counts = near.shapes.counts();
    *nearness = near.nearness;
    near.shapes.put_in(points, contour_ends, shape_ends)
}
