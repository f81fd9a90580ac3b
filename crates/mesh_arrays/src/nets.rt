//! Which nets in lists are nearer to each other than a distance.

ghost use Rattle.std.specs.Prelude.{◌≡◌, ◌<◌, ◌^◌, [], ◌∷◌, map, IfOk};
ghost use Rattle.std.specs.List.{All};
ghost use Rattle.mesh_num.specs.Paths.{paths_of};
ghost use Rattle.mesh_arrays.specs.NetClearances.{IsClearancesAnswer, LeavesClearances, clearance_room, clearances_of};
ghost use Rattle.mesh_arrays.specs.ShapeRooms.{shape_lists};
ghost use Rattle.mesh_arrays.specs.Telling.{IsTold, TellsAnswer};

use crate::failure::Failure;
use crate::given::read_shapes;
use crate::numbers::Flat;
use crate::outcome::Outcome;
use crate::room::put;
use mesh_nets::nets::{NetClearance, clearances};
use mesh_num::num::{IntNumber, IntPoint};
use std::alloc::{AllocError, Global};

/// Two nets that are nearer to each other than a distance.
#[repr(C)]
#[derive(Clone, Copy)]
pub struct FlatNetClearance {
    /// The place of the first net, counted from 0.
    pub first: usize,
    /// The place of the second net, which comes after the first.
    pub second: usize,
    /// The square of their distance, in grid units and rounded down.
    pub squared: u64,
}

/// Tells which of the given nets are nearer to each other than a distance, as `near_nets` finds them, and how many pairs
/// these are. `RoomTooSmall`: they do not fit, and the room is as it was. Where there is no answer, all is as it was.
pub fn tell_clearances<I: IntNumber, P: Flat<Item = IntPoint<I>>>(
    alloc: Global,
    points: &[P],
    contour_ends: &[usize],
    net_ends: &[usize],
    distance: u32,
    pairs: &mut [FlatNetClearance],
    count: &mut usize,
) -> Outcome
    ensures { TellsAnswer
        (IsClearancesAnswer P.item_of (shape_lists points.now contour_ends.now net_ends.now) distance)
        LeavesClearances (clearance_room pairs.old count.old) (clearance_room pairs.new count.new) result }
{
    let answer = near_nets(alloc, points, contour_ends, net_ends, distance);
    hand_over(&answer, pairs, count)
}

/// Copies the pairs to the beginning of the room where they fit, and tells how many they are. Where there is no answer, all
/// is as it was.
fn hand_over(
    answer: &Result<Vec<FlatNetClearance>, Failure>,
    pairs: &mut [FlatNetClearance],
    count: &mut usize,
) -> Outcome
    ensures { IsTold LeavesClearances answer.now (clearance_room pairs.old count.old)
        (clearance_room pairs.new count.new) result }
{
    let found = match answer {
        Ok(found) => found,
        Err(failure) => return Outcome::of(*failure),
    };
    *count = found.len();
    if found.len() > pairs.len() {
        return Outcome::RoomTooSmall;
    }
    put(found, pairs);
    Outcome::Answered
}

/// The pairs of nets that are nearer to each other than a distance in grid units, in the order of `clearances`. The
/// contours of all nets stand end to end in `points`. `contour_ends` has for each contour, in order, how many points stand
/// in it and before it, and `net_ends` for each net how many contours. `Malformed`: these are no ends of contours, or of
/// nets. `OutOfMemory`: memory was refused. There is no other failure.
fn near_nets<I: IntNumber, P: Flat<Item = IntPoint<I>>>(
    alloc: Global,
    points: &[P],
    contour_ends: &[usize],
    net_ends: &[usize],
    distance: u32,
) -> Result<Vec<FlatNetClearance>, Failure>
    ensures { IsClearancesAnswer P.item_of (shape_lists points.now contour_ends.now net_ends.now) distance result }
{
    let nets = each_alone(alloc, read_shapes(alloc, points, contour_ends, net_ends)?)?;
    let found = clearances(alloc, &nets, distance)?;
    Ok(in_64_bits(alloc, &found)?)
}

/// Each item as a list of its own: of the contours of a net, its one shape. It fails only where memory is refused.
fn each_alone<T: Drop>(alloc: Global, items: Vec<T>) -> Result<Vec<Vec<T>>, AllocError>
    ensures { IfOk result (λ lists. paths_of lists.items ≡ map (λ item. item ∷ []) items.items) }
{
    let mut lists = Vec::with_capacity(alloc, items.len())?;
    for item in items {
        let mut list = Vec::with_capacity(alloc, 1)?;
        list.push(item)?;
        lists.push(list)?;
    }
    Ok(lists)
}

/// The pairs with their squares in 64 bits. It fails only where memory is refused.
fn in_64_bits(alloc: Global, found: &[NetClearance]) -> Result<Vec<FlatNetClearance>, AllocError>
    requires { All (λ pair. pair.squared < 2 ^ 64) found.now }
    ensures { IfOk result (λ flat. clearances_of flat.items ≡ found.now) }
{
    let mut flat = Vec::with_capacity(alloc, found.len())?;
    for pair in found {
        flat.push(FlatNetClearance {
            first: pair.first,
            second: pair.second,
            squared: pair.squared as u64,
        })?;
    }
    Ok(flat)
}
