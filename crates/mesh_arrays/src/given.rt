//! Shapes out of lists: contours that stand end to end in points, and shapes that stand end to end in contours.

ghost use Rattle.std.specs.Prelude.{◌≡◌, OnOk, IfOk, drop, take};
ghost use Rattle.mesh_arrays.specs.EndToEnd.{AreEndToEnd};
ghost use Rattle.mesh_arrays.specs.Failures.{IsRead};
ghost use Rattle.mesh_arrays.specs.Slivers.{AreShapesIn};
ghost use Rattle.mesh_arrays.specs.ShapeRooms.{shape_lists};
ghost use Rattle.mesh_num.specs.Paths.{paths_of, shapes_of};

use crate::failure::Failure;
use crate::lists::read_lists;
use crate::numbers::Flat;
use std::alloc::{AllocError, Global};
use std::collections::VecDeque;

/// The shapes that stand end to end in lists: `contour_ends` has for each contour, in order, how many points stand in it
/// and before it, and `shape_ends` for each shape how many contours. `Malformed`: these are no ends of contours, or of
/// shapes. `OutOfMemory`: memory was refused. There is no other failure.
pub fn read_shapes<P: Flat>(
    alloc: Global,
    points: &[P],
    contour_ends: &[usize],
    shape_ends: &[usize],
) -> Result<Vec<Vec<Vec<P::Item>>>, Failure>
    ensures { IsRead (λ shapes. shapes_of shapes.items)
        (AreShapesIn P.item_of (shape_lists points.now contour_ends.now shape_ends.now)) result }
{
    let contours = read_lists(alloc, points, contour_ends)?;
    group(alloc, contours, shape_ends)
}

/// The lists in groups, in order; `ends` has for each group how many lists stand in it and before it. `Malformed`:
/// these are no ends of groups. `OutOfMemory`: memory was refused. There is no other failure.
fn group<T: Drop>(
    alloc: Global,
    lists: Vec<Vec<T>>,
    ends: &[usize],
) -> Result<Vec<Vec<Vec<T>>>, Failure>
    ensures { IsRead (λ groups. shapes_of groups.items)
        (λ groups. AreEndToEnd groups (paths_of lists.items) ends.now) result }
{
    let count = lists.len();
    let mut rest = VecDeque::from(lists);
    let mut groups = Vec::new(alloc);
    let mut start = 0;
    for place in ends {
        let end = *place;
        if end < start || count < end {
            return Err(Failure::Malformed);
        }
        groups.push(next_items(alloc, &mut rest, end - start)?)?;
        start = end;
    }
    if start < count {
        return Err(Failure::Malformed);
    }
    Ok(groups)
}

/// Takes the first items out of those that are left, so many or all. It fails only where memory is refused.
fn next_items<T: Drop>(
    alloc: Global,
    rest: &mut VecDeque<T>,
    count: usize,
) -> Result<Vec<T>, AllocError>
    ensures taken { IfOk result (λ items. items.items ≡ take count rest.old.items) }
    ensures left { OnOk result (rest.new.items ≡ drop count rest.old.items) }
{
    let mut items = Vec::with_capacity(alloc, count)?;
    while items.len() < count {
        let Some(item) = rest.pop_front() else {
            break;
        };
        items.push(item)?;
    }
    Ok(items)
}
