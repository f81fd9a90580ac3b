//! The calls for nets that are near to each other.

ghost use Rattle.mesh_arrays.specs.NetClearances.{TellsClearances, clearance_room};
ghost use Rattle.mesh_arrays.specs.ShapeRooms.{shape_lists};

use mesh_arrays::nets::{FlatNetClearance, tell_clearances};
use std::alloc::Global;

/// The pairs of nets that are nearer to each other than a distance, in the caller's room, and how many they are.
#[unsafe(no_mangle)]
pub extern "C" fn mesh_clearances_i32(
    alloc: Global,
    points: &[[i32; 2]],
    contour_ends: &[usize],
    net_ends: &[usize],
    distance: u32,
    pairs: &mut [FlatNetClearance],
    pair_count: &mut usize,
) -> u8
    ensures { TellsClearances (shape_lists points.now contour_ends.now net_ends.now) distance
        (clearance_room pairs.old pair_count.old) (clearance_room pairs.new pair_count.new) result }
{
    tell_clearances(
        alloc,
        points,
        contour_ends,
        net_ends,
        distance,
        pairs,
        pair_count,
    )
    .code()
}

/// The pairs of nets that are nearer to each other than a distance, in the caller's room, and how many they are.
#[unsafe(no_mangle)]
pub extern "C" fn mesh_clearances_i16(
    alloc: Global,
    points: &[[i16; 2]],
    contour_ends: &[usize],
    net_ends: &[usize],
    distance: u32,
    pairs: &mut [FlatNetClearance],
    pair_count: &mut usize,
) -> u8
    ensures { TellsClearances (shape_lists points.now contour_ends.now net_ends.now) distance
        (clearance_room pairs.old pair_count.old) (clearance_room pairs.new pair_count.new) result }
{
    tell_clearances(
        alloc,
        points,
        contour_ends,
        net_ends,
        distance,
        pairs,
        pair_count,
    )
    .code()
}
