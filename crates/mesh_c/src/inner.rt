//! The calls for how near to its paths a stroke holds all points.

ghost use Rattle.mesh_arrays.specs.Drawings.{IsStrokeOf};
ghost use Rattle.mesh_arrays.specs.Numbers.{unit_16, unit_32, whole_point};
ghost use Rattle.mesh_arrays.specs.Reaches.{TellsReach};

use mesh_arrays::drawing::stroke;
use mesh_arrays::reach::tell_reach;
use mesh_arrays::styles::FlatStrokeStyle;
use std::alloc::Global;

/// How near to its paths a stroke holds all points: the square of that distance, or 0 where nothing is told.
#[unsafe(no_mangle)]
pub extern "C" fn mesh_inner_reach_i32(
    alloc: Global,
    points: &[[i32; 2]],
    ends: &[usize],
    style: &FlatStrokeStyle,
    start_points: &[[i32; 2]],
    end_points: &[[i32; 2]],
    reach: &mut u64,
) -> u8
    ensures { TellsReach unit_32
        (IsStrokeOf unit_32 whole_point points.now ends.now style.now (start_points.now, end_points.now))
        reach.old reach.new result }
{
    let drawing = stroke(alloc, points, ends, style, start_points, end_points);
    tell_reach(alloc, &drawing, reach).code()
}

/// How near to its paths a stroke holds all points: the square of that distance, or 0 where nothing is told.
#[unsafe(no_mangle)]
pub extern "C" fn mesh_inner_reach_i16(
    alloc: Global,
    points: &[[i16; 2]],
    ends: &[usize],
    style: &FlatStrokeStyle,
    start_points: &[[i16; 2]],
    end_points: &[[i16; 2]],
    reach: &mut u64,
) -> u8
    ensures { TellsReach unit_16
        (IsStrokeOf unit_16 whole_point points.now ends.now style.now (start_points.now, end_points.now))
        reach.old reach.new result }
{
    let drawing = stroke(alloc, points, ends, style, start_points, end_points);
    tell_reach(alloc, &drawing, reach).code()
}
