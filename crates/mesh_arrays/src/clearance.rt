//! How near shapes in lists come to paths.

ghost use Rattle.std.specs.Prelude.{◌≡◌, ◌-◌, ◌^◌, MatchOption, min};
ghost use Rattle.mesh_arrays.specs.Clearances.{IsClearanceAnswer};
ghost use Rattle.mesh_arrays.specs.EndToEnd.{path_lists};
ghost use Rattle.mesh_arrays.specs.ShapeRooms.{shape_lists};
ghost use Rattle.mesh_arrays.specs.Telling.{LeavesNumber, TellsAnswer};

use crate::failure::Failure;
use crate::given::read_shapes;
use crate::lists::read_lists;
use crate::numbers::Flat;
use crate::outcome::Outcome;
use crate::room::hand_over_number;
use crate::styles::flag;
use mesh_clearance::clearance::clearance_of;
use mesh_num::num::{IntNumber, IntPoint};
use std::alloc::Global;

/// Tells how near the given shapes come to the given paths, as `clearance_between` finds it. Where there is no answer,
/// what is told stays as it was.
pub fn tell_clearance<I: IntNumber, P: Flat<Item = IntPoint<I>>>(
    alloc: Global,
    points: &[P],
    contour_ends: &[usize],
    shape_ends: &[usize],
    path_points: &[P],
    path_ends: &[usize],
    closed: u32,
    clearance: &mut u64,
) -> Outcome
    ensures { TellsAnswer
        (IsClearanceAnswer P.item_of (shape_lists points.now contour_ends.now shape_ends.now)
        (path_lists path_points.now path_ends.now) closed) LeavesNumber clearance.old clearance.new result }
{
    let answer = clearance_between(
        alloc,
        points,
        contour_ends,
        shape_ends,
        path_points,
        path_ends,
        closed,
    );
    hand_over_number(&answer, clearance)
}

/// How near the edges of the shapes that stand end to end in `points` come to the paths that stand end to end in
/// `path_points`: the square of the least distance, in grid units and rounded down. It is `u64::MAX` where that is
/// greater, and where there is no edge or no section. `contour_ends` has for each contour, in order, how many points stand
/// in it and before it, `shape_ends` for each shape how many contours, and `path_ends` for each path how many points.
/// Where `closed` is 1, each path goes on from its last point to its first; where it is 0, none does.
///
/// Round each point whose squared distance from a path is less than the answer, the shapes wind as round each vertex of
/// the path. So where one vertex of each path is inside, so is each point that is so near to one.
///
/// `Malformed`: these are no ends of contours, of shapes or of paths, or `closed` is another number. `OutOfMemory`: memory
/// was refused. There is no other failure.
fn clearance_between<I: IntNumber, P: Flat<Item = IntPoint<I>>>(
    alloc: Global,
    points: &[P],
    contour_ends: &[usize],
    shape_ends: &[usize],
    path_points: &[P],
    path_ends: &[usize],
    closed: u32,
) -> Result<u64, Failure>
    ensures { IsClearanceAnswer P.item_of (shape_lists points.now contour_ends.now shape_ends.now)
        (path_lists path_points.now path_ends.now) closed result }
{
    let Some(are_closed) = flag(closed) else {
        return Err(Failure::Malformed);
    };
    let shapes = read_shapes(alloc, points, contour_ends, shape_ends)?;
    let paths = read_lists(alloc, path_points, path_ends)?;
    Ok(in_64_bits(clearance_of(alloc, &shapes, &paths, are_closed)?))
}

/// A number in 64 bits: the greatest one for any that is greater, and for none.
fn in_64_bits(found: Option<u128>) -> u64
    ensures { MatchOption found (result ≡ 2 ^ 64 - 1) (λ t. result ≡ min t (2 ^ 64 - 1)) }
{
    match found {
        None => u64::MAX,
        Some(t) => t.min(u64::MAX as u128) as u64,
    }
}
