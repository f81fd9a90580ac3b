//! The calls for booleans.

ghost use Rattle.mesh_arrays.specs.BooleanCalls.{AsksBoolean, TellsBoolean, TellsNearBoolean};
ghost use Rattle.mesh_arrays.specs.EndToEnd.{path_lists};
ghost use Rattle.mesh_arrays.specs.Numbers.{unit_16, unit_32};
ghost use Rattle.mesh_arrays.specs.ShapeRooms.{near_room, shape_room};

use mesh_arrays::boolean::{FlatBoolean, boolean};
use mesh_arrays::combined::{tell_boolean, tell_near_boolean};
use mesh_arrays::options::FlatOptions;
use mesh_arrays::shapes::ShapeCounts;
use std::alloc::Global;

/// The shapes that a boolean keeps, in the caller's lists, and how many items each has.
#[unsafe(no_mangle)]
pub extern "C" fn mesh_boolean_i32(
    alloc: Global,
    subject_points: &[[i32; 2]],
    subject_ends: &[usize],
    clip_points: &[[i32; 2]],
    clip_ends: &[usize],
    asked: &FlatBoolean,
    options: &FlatOptions,
    shape_points: &mut [[i32; 2]],
    contour_ends: &mut [usize],
    shape_ends: &mut [usize],
    counts: &mut ShapeCounts,
) -> u8
    ensures { TellsBoolean unit_32
        (AsksBoolean (path_lists subject_points.now subject_ends.now)
        (path_lists clip_points.now clip_ends.now) asked.now) options.now
        (shape_room shape_points.old contour_ends.old shape_ends.old counts.old)
        (shape_room shape_points.new contour_ends.new shape_ends.new counts.new) result }
{
    let read = boolean(
        alloc,
        subject_points,
        subject_ends,
        clip_points,
        clip_ends,
        asked,
    );
    tell_boolean(
        alloc,
        &read,
        options,
        shape_points,
        contour_ends,
        shape_ends,
        counts,
    )
    .code()
}

/// The shapes that a boolean keeps, in the caller's lists, how many items each has, and their nearness.
#[unsafe(no_mangle)]
pub extern "C" fn mesh_boolean_near_i32(
    alloc: Global,
    subject_points: &[[i32; 2]],
    subject_ends: &[usize],
    clip_points: &[[i32; 2]],
    clip_ends: &[usize],
    asked: &FlatBoolean,
    options: &FlatOptions,
    most_splits: u64,
    shape_points: &mut [[i32; 2]],
    contour_ends: &mut [usize],
    shape_ends: &mut [usize],
    counts: &mut ShapeCounts,
    nearness: &mut u64,
) -> u8
    ensures { TellsNearBoolean unit_32
        (AsksBoolean (path_lists subject_points.now subject_ends.now)
        (path_lists clip_points.now clip_ends.now) asked.now) options.now most_splits
        (near_room shape_points.old contour_ends.old shape_ends.old counts.old nearness.old)
        (near_room shape_points.new contour_ends.new shape_ends.new counts.new nearness.new) result }
{
    let read = boolean(
        alloc,
        subject_points,
        subject_ends,
        clip_points,
        clip_ends,
        asked,
    );
    tell_near_boolean(
        alloc,
        &read,
        options,
        most_splits,
        shape_points,
        contour_ends,
        shape_ends,
        counts,
        nearness,
    )
    .code()
}

/// The shapes that a boolean keeps, in the caller's lists, and how many items each has.
#[unsafe(no_mangle)]
pub extern "C" fn mesh_boolean_i16(
    alloc: Global,
    subject_points: &[[i16; 2]],
    subject_ends: &[usize],
    clip_points: &[[i16; 2]],
    clip_ends: &[usize],
    asked: &FlatBoolean,
    options: &FlatOptions,
    shape_points: &mut [[i16; 2]],
    contour_ends: &mut [usize],
    shape_ends: &mut [usize],
    counts: &mut ShapeCounts,
) -> u8
    ensures { TellsBoolean unit_16
        (AsksBoolean (path_lists subject_points.now subject_ends.now)
        (path_lists clip_points.now clip_ends.now) asked.now) options.now
        (shape_room shape_points.old contour_ends.old shape_ends.old counts.old)
        (shape_room shape_points.new contour_ends.new shape_ends.new counts.new) result }
{
    let read = boolean(
        alloc,
        subject_points,
        subject_ends,
        clip_points,
        clip_ends,
        asked,
    );
    tell_boolean(
        alloc,
        &read,
        options,
        shape_points,
        contour_ends,
        shape_ends,
        counts,
    )
    .code()
}

/// The shapes that a boolean keeps, in the caller's lists, how many items each has, and their nearness.
#[unsafe(no_mangle)]
pub extern "C" fn mesh_boolean_near_i16(
    alloc: Global,
    subject_points: &[[i16; 2]],
    subject_ends: &[usize],
    clip_points: &[[i16; 2]],
    clip_ends: &[usize],
    asked: &FlatBoolean,
    options: &FlatOptions,
    most_splits: u64,
    shape_points: &mut [[i16; 2]],
    contour_ends: &mut [usize],
    shape_ends: &mut [usize],
    counts: &mut ShapeCounts,
    nearness: &mut u64,
) -> u8
    ensures { TellsNearBoolean unit_16
        (AsksBoolean (path_lists subject_points.now subject_ends.now)
        (path_lists clip_points.now clip_ends.now) asked.now) options.now most_splits
        (near_room shape_points.old contour_ends.old shape_ends.old counts.old nearness.old)
        (near_room shape_points.new contour_ends.new shape_ends.new counts.new nearness.new) result }
{
    let read = boolean(
        alloc,
        subject_points,
        subject_ends,
        clip_points,
        clip_ends,
        asked,
    );
    tell_near_boolean(
        alloc,
        &read,
        options,
        most_splits,
        shape_points,
        contour_ends,
        shape_ends,
        counts,
        nearness,
    )
    .code()
}
