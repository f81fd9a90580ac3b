//! The calls of `mesh_arrays` and `mesh_text` for C, a few lines each. `doors/c/i_overlay_mesh.h` says what a caller owes
//! and gets.
#![tactic(auto)]

ghost use Rattle.mesh_arrays.specs.Clearances.{TellsClearance};
ghost use Rattle.mesh_arrays.specs.Drawings.{IsOutlineOf, IsStrokeOf, IsVariableStrokeOf};
ghost use Rattle.mesh_arrays.specs.EdgeRooms.{TellsEdges, edge_room};
ghost use Rattle.mesh_arrays.specs.EndToEnd.{path_lists};
ghost use Rattle.mesh_arrays.specs.Numbers.{unit_16, unit_32, whole_point, whole_vertex};
ghost use Rattle.mesh_arrays.specs.Ranges.{TellsRange};
ghost use Rattle.mesh_arrays.specs.ShapeRooms.{TellsNear, TellsShapes, near_room, shape_lists, shape_room};
ghost use Rattle.mesh_arrays.specs.Slivers.{TellsSlivers};

pub mod boolean;
pub mod inner;
pub mod nets;
pub mod text;

use mesh_arrays::clearance::tell_clearance;
use mesh_arrays::drawing::{outline, stroke, variable_stroke};
use mesh_arrays::drawn::{tell_edges, tell_near, tell_shapes};
use mesh_arrays::edges::EdgeCounts;
use mesh_arrays::options::FlatOptions;
use mesh_arrays::range::tell_range;
use mesh_arrays::shapes::ShapeCounts;
use mesh_arrays::slivers::tell_without_slivers;
use mesh_arrays::styles::{FlatArc, FlatOutlineStyle, FlatStrokeStyle};
use std::alloc::Global;

/// The shapes of an outline, in the caller's lists, and how many items each has.
#[unsafe(no_mangle)]
pub extern "C" fn mesh_outline_i32(
    alloc: Global,
    points: &[[i32; 2]],
    ends: &[usize],
    style: &FlatOutlineStyle,
    options: &FlatOptions,
    shape_points: &mut [[i32; 2]],
    contour_ends: &mut [usize],
    shape_ends: &mut [usize],
    counts: &mut ShapeCounts,
) -> u8
    ensures { TellsShapes unit_32
        (IsOutlineOf unit_32 whole_point points.now ends.now style.now) options.now
        (shape_room shape_points.old contour_ends.old shape_ends.old counts.old)
        (shape_room shape_points.new contour_ends.new shape_ends.new counts.new) result }
{
    let drawing = outline(alloc, points, ends, style);
    tell_shapes(
        alloc,
        &drawing,
        options,
        shape_points,
        contour_ends,
        shape_ends,
        counts,
    )
    .code()
}

/// The shapes of an outline, in the caller's lists, how many items each has, and their nearness.
#[unsafe(no_mangle)]
pub extern "C" fn mesh_outline_near_i32(
    alloc: Global,
    points: &[[i32; 2]],
    ends: &[usize],
    style: &FlatOutlineStyle,
    options: &FlatOptions,
    most_splits: u64,
    shape_points: &mut [[i32; 2]],
    contour_ends: &mut [usize],
    shape_ends: &mut [usize],
    counts: &mut ShapeCounts,
    nearness: &mut u64,
) -> u8
    ensures { TellsNear unit_32
        (IsOutlineOf unit_32 whole_point points.now ends.now style.now) options.now most_splits
        (near_room shape_points.old contour_ends.old shape_ends.old counts.old nearness.old)
        (near_room shape_points.new contour_ends.new shape_ends.new counts.new nearness.new) result }
{
    let drawing = outline(alloc, points, ends, style);
    tell_near(
        alloc,
        &drawing,
        options,
        most_splits,
        shape_points,
        contour_ends,
        shape_ends,
        counts,
        nearness,
    )
    .code()
}

/// The edges of an outline, path by path, in the caller's lists, and how many items each has.
#[unsafe(no_mangle)]
pub extern "C" fn mesh_outline_edges_i32(
    alloc: Global,
    points: &[[i32; 2]],
    ends: &[usize],
    style: &FlatOutlineStyle,
    edges: &mut [[i32; 4]],
    path_ends: &mut [usize],
    counts: &mut EdgeCounts,
) -> u8
    ensures { TellsEdges unit_32
        (IsOutlineOf unit_32 whole_point points.now ends.now style.now)
        (edge_room edges.old path_ends.old counts.old) (edge_room edges.new path_ends.new counts.new) result }
{
    let drawing = outline(alloc, points, ends, style);
    tell_edges(alloc, &drawing, edges, path_ends, counts).code()
}

/// Whether an outline stays in range, and how far it reaches from its points.
#[unsafe(no_mangle)]
pub extern "C" fn mesh_validate_outline_i32(
    alloc: Global,
    points: &[[i32; 2]],
    ends: &[usize],
    style: &FlatOutlineStyle,
    padding: &mut i64,
) -> u8
    ensures { TellsRange unit_32
        (IsOutlineOf unit_32 whole_point points.now ends.now style.now) padding.old padding.new result }
{
    let drawing = outline(alloc, points, ends, style);
    tell_range(&drawing, padding).code()
}

/// The shapes of a stroke, in the caller's lists, and how many items each has.
#[unsafe(no_mangle)]
pub extern "C" fn mesh_stroke_i32(
    alloc: Global,
    points: &[[i32; 2]],
    ends: &[usize],
    style: &FlatStrokeStyle,
    start_points: &[[i32; 2]],
    end_points: &[[i32; 2]],
    options: &FlatOptions,
    shape_points: &mut [[i32; 2]],
    contour_ends: &mut [usize],
    shape_ends: &mut [usize],
    counts: &mut ShapeCounts,
) -> u8
    ensures { TellsShapes unit_32
        (IsStrokeOf unit_32 whole_point points.now ends.now style.now (start_points.now, end_points.now)) options.now
        (shape_room shape_points.old contour_ends.old shape_ends.old counts.old)
        (shape_room shape_points.new contour_ends.new shape_ends.new counts.new) result }
{
    let drawing = stroke(alloc, points, ends, style, start_points, end_points);
    tell_shapes(
        alloc,
        &drawing,
        options,
        shape_points,
        contour_ends,
        shape_ends,
        counts,
    )
    .code()
}

/// The shapes of a stroke, in the caller's lists, how many items each has, and their nearness.
#[unsafe(no_mangle)]
pub extern "C" fn mesh_stroke_near_i32(
    alloc: Global,
    points: &[[i32; 2]],
    ends: &[usize],
    style: &FlatStrokeStyle,
    start_points: &[[i32; 2]],
    end_points: &[[i32; 2]],
    options: &FlatOptions,
    most_splits: u64,
    shape_points: &mut [[i32; 2]],
    contour_ends: &mut [usize],
    shape_ends: &mut [usize],
    counts: &mut ShapeCounts,
    nearness: &mut u64,
) -> u8
    ensures { TellsNear unit_32
        (IsStrokeOf unit_32 whole_point points.now ends.now style.now (start_points.now, end_points.now))
        options.now most_splits
        (near_room shape_points.old contour_ends.old shape_ends.old counts.old nearness.old)
        (near_room shape_points.new contour_ends.new shape_ends.new counts.new nearness.new) result }
{
    let drawing = stroke(alloc, points, ends, style, start_points, end_points);
    tell_near(
        alloc,
        &drawing,
        options,
        most_splits,
        shape_points,
        contour_ends,
        shape_ends,
        counts,
        nearness,
    )
    .code()
}

/// The edges of a stroke, path by path, in the caller's lists, and how many items each has.
#[unsafe(no_mangle)]
pub extern "C" fn mesh_stroke_edges_i32(
    alloc: Global,
    points: &[[i32; 2]],
    ends: &[usize],
    style: &FlatStrokeStyle,
    start_points: &[[i32; 2]],
    end_points: &[[i32; 2]],
    edges: &mut [[i32; 4]],
    path_ends: &mut [usize],
    counts: &mut EdgeCounts,
) -> u8
    ensures { TellsEdges unit_32
        (IsStrokeOf unit_32 whole_point points.now ends.now style.now (start_points.now, end_points.now))
        (edge_room edges.old path_ends.old counts.old) (edge_room edges.new path_ends.new counts.new) result }
{
    let drawing = stroke(alloc, points, ends, style, start_points, end_points);
    tell_edges(alloc, &drawing, edges, path_ends, counts).code()
}

/// Whether a stroke stays in range, and how far it reaches from its points.
#[unsafe(no_mangle)]
pub extern "C" fn mesh_validate_stroke_i32(
    alloc: Global,
    points: &[[i32; 2]],
    ends: &[usize],
    style: &FlatStrokeStyle,
    start_points: &[[i32; 2]],
    end_points: &[[i32; 2]],
    padding: &mut i64,
) -> u8
    ensures { TellsRange unit_32
        (IsStrokeOf unit_32 whole_point points.now ends.now style.now (start_points.now, end_points.now))
        padding.old padding.new result }
{
    let drawing = stroke(alloc, points, ends, style, start_points, end_points);
    tell_range(&drawing, padding).code()
}

/// The shapes of a stroke of variable width, in the caller's lists, and how many items each has.
#[unsafe(no_mangle)]
pub extern "C" fn mesh_variable_stroke_i32(
    alloc: Global,
    vertices: &[[i32; 3]],
    ends: &[usize],
    arc: &FlatArc,
    options: &FlatOptions,
    shape_points: &mut [[i32; 2]],
    contour_ends: &mut [usize],
    shape_ends: &mut [usize],
    counts: &mut ShapeCounts,
) -> u8
    ensures { TellsShapes unit_32
        (IsVariableStrokeOf whole_vertex vertices.now ends.now arc.now) options.now
        (shape_room shape_points.old contour_ends.old shape_ends.old counts.old)
        (shape_room shape_points.new contour_ends.new shape_ends.new counts.new) result }
{
    let drawing = variable_stroke(alloc, vertices, ends, arc);
    tell_shapes(
        alloc,
        &drawing,
        options,
        shape_points,
        contour_ends,
        shape_ends,
        counts,
    )
    .code()
}

/// The shapes of a stroke of variable width, in the caller's lists, how many items each has, and their nearness.
#[unsafe(no_mangle)]
pub extern "C" fn mesh_variable_stroke_near_i32(
    alloc: Global,
    vertices: &[[i32; 3]],
    ends: &[usize],
    arc: &FlatArc,
    options: &FlatOptions,
    most_splits: u64,
    shape_points: &mut [[i32; 2]],
    contour_ends: &mut [usize],
    shape_ends: &mut [usize],
    counts: &mut ShapeCounts,
    nearness: &mut u64,
) -> u8
    ensures { TellsNear unit_32
        (IsVariableStrokeOf whole_vertex vertices.now ends.now arc.now) options.now most_splits
        (near_room shape_points.old contour_ends.old shape_ends.old counts.old nearness.old)
        (near_room shape_points.new contour_ends.new shape_ends.new counts.new nearness.new) result }
{
    let drawing = variable_stroke(alloc, vertices, ends, arc);
    tell_near(
        alloc,
        &drawing,
        options,
        most_splits,
        shape_points,
        contour_ends,
        shape_ends,
        counts,
        nearness,
    )
    .code()
}

/// The edges of a stroke of variable width, path by path, in the caller's lists, and how many items each has.
#[unsafe(no_mangle)]
pub extern "C" fn mesh_variable_stroke_edges_i32(
    alloc: Global,
    vertices: &[[i32; 3]],
    ends: &[usize],
    arc: &FlatArc,
    edges: &mut [[i32; 4]],
    path_ends: &mut [usize],
    counts: &mut EdgeCounts,
) -> u8
    ensures { TellsEdges unit_32
        (IsVariableStrokeOf whole_vertex vertices.now ends.now arc.now)
        (edge_room edges.old path_ends.old counts.old) (edge_room edges.new path_ends.new counts.new) result }
{
    let drawing = variable_stroke(alloc, vertices, ends, arc);
    tell_edges(alloc, &drawing, edges, path_ends, counts).code()
}

/// Whether a stroke of variable width stays in range, and how far it reaches from its points.
#[unsafe(no_mangle)]
pub extern "C" fn mesh_validate_variable_stroke_i32(
    alloc: Global,
    vertices: &[[i32; 3]],
    ends: &[usize],
    arc: &FlatArc,
    padding: &mut i64,
) -> u8
    ensures { TellsRange unit_32
        (IsVariableStrokeOf whole_vertex vertices.now ends.now arc.now) padding.old padding.new result }
{
    let drawing = variable_stroke(alloc, vertices, ends, arc);
    tell_range(&drawing, padding).code()
}

/// How near shapes come to paths: the square of the least distance, rounded down.
#[unsafe(no_mangle)]
pub extern "C" fn mesh_clearance_i32(
    alloc: Global,
    points: &[[i32; 2]],
    contour_ends: &[usize],
    shape_ends: &[usize],
    path_points: &[[i32; 2]],
    path_ends: &[usize],
    closed: u32,
    clearance: &mut u64,
) -> u8
    ensures { TellsClearance (shape_lists points.now contour_ends.now shape_ends.now)
        (path_lists path_points.now path_ends.now) closed clearance.old clearance.new result }
{
    tell_clearance(
        alloc,
        points,
        contour_ends,
        shape_ends,
        path_points,
        path_ends,
        closed,
        clearance,
    )
    .code()
}

/// Shapes without their slivers, in the caller's lists, and how many items each has.
#[unsafe(no_mangle)]
pub extern "C" fn mesh_without_slivers_i32(
    alloc: Global,
    points: &[[i32; 2]],
    contour_ends: &[usize],
    shape_ends: &[usize],
    width: u32,
    left_points: &mut [[i32; 2]],
    left_contour_ends: &mut [usize],
    left_shape_ends: &mut [usize],
    counts: &mut ShapeCounts,
) -> u8
    ensures { TellsSlivers (shape_lists points.now contour_ends.now shape_ends.now) width
        (shape_room left_points.old left_contour_ends.old left_shape_ends.old counts.old)
        (shape_room left_points.new left_contour_ends.new left_shape_ends.new counts.new) result }
{
    tell_without_slivers(
        alloc,
        points,
        contour_ends,
        shape_ends,
        width,
        left_points,
        left_contour_ends,
        left_shape_ends,
        counts,
    )
    .code()
}

/// The shapes of an outline, in the caller's lists, and how many items each has.
#[unsafe(no_mangle)]
pub extern "C" fn mesh_outline_i16(
    alloc: Global,
    points: &[[i16; 2]],
    ends: &[usize],
    style: &FlatOutlineStyle,
    options: &FlatOptions,
    shape_points: &mut [[i16; 2]],
    contour_ends: &mut [usize],
    shape_ends: &mut [usize],
    counts: &mut ShapeCounts,
) -> u8
    ensures { TellsShapes unit_16
        (IsOutlineOf unit_16 whole_point points.now ends.now style.now) options.now
        (shape_room shape_points.old contour_ends.old shape_ends.old counts.old)
        (shape_room shape_points.new contour_ends.new shape_ends.new counts.new) result }
{
    let drawing = outline(alloc, points, ends, style);
    tell_shapes(
        alloc,
        &drawing,
        options,
        shape_points,
        contour_ends,
        shape_ends,
        counts,
    )
    .code()
}

/// The shapes of an outline, in the caller's lists, how many items each has, and their nearness.
#[unsafe(no_mangle)]
pub extern "C" fn mesh_outline_near_i16(
    alloc: Global,
    points: &[[i16; 2]],
    ends: &[usize],
    style: &FlatOutlineStyle,
    options: &FlatOptions,
    most_splits: u64,
    shape_points: &mut [[i16; 2]],
    contour_ends: &mut [usize],
    shape_ends: &mut [usize],
    counts: &mut ShapeCounts,
    nearness: &mut u64,
) -> u8
    ensures { TellsNear unit_16
        (IsOutlineOf unit_16 whole_point points.now ends.now style.now) options.now most_splits
        (near_room shape_points.old contour_ends.old shape_ends.old counts.old nearness.old)
        (near_room shape_points.new contour_ends.new shape_ends.new counts.new nearness.new) result }
{
    let drawing = outline(alloc, points, ends, style);
    tell_near(
        alloc,
        &drawing,
        options,
        most_splits,
        shape_points,
        contour_ends,
        shape_ends,
        counts,
        nearness,
    )
    .code()
}

/// The edges of an outline, path by path, in the caller's lists, and how many items each has.
#[unsafe(no_mangle)]
pub extern "C" fn mesh_outline_edges_i16(
    alloc: Global,
    points: &[[i16; 2]],
    ends: &[usize],
    style: &FlatOutlineStyle,
    edges: &mut [[i16; 4]],
    path_ends: &mut [usize],
    counts: &mut EdgeCounts,
) -> u8
    ensures { TellsEdges unit_16
        (IsOutlineOf unit_16 whole_point points.now ends.now style.now)
        (edge_room edges.old path_ends.old counts.old) (edge_room edges.new path_ends.new counts.new) result }
{
    let drawing = outline(alloc, points, ends, style);
    tell_edges(alloc, &drawing, edges, path_ends, counts).code()
}

/// Whether an outline stays in range, and how far it reaches from its points.
#[unsafe(no_mangle)]
pub extern "C" fn mesh_validate_outline_i16(
    alloc: Global,
    points: &[[i16; 2]],
    ends: &[usize],
    style: &FlatOutlineStyle,
    padding: &mut i64,
) -> u8
    ensures { TellsRange unit_16
        (IsOutlineOf unit_16 whole_point points.now ends.now style.now) padding.old padding.new result }
{
    let drawing = outline(alloc, points, ends, style);
    tell_range(&drawing, padding).code()
}

/// The shapes of a stroke, in the caller's lists, and how many items each has.
#[unsafe(no_mangle)]
pub extern "C" fn mesh_stroke_i16(
    alloc: Global,
    points: &[[i16; 2]],
    ends: &[usize],
    style: &FlatStrokeStyle,
    start_points: &[[i16; 2]],
    end_points: &[[i16; 2]],
    options: &FlatOptions,
    shape_points: &mut [[i16; 2]],
    contour_ends: &mut [usize],
    shape_ends: &mut [usize],
    counts: &mut ShapeCounts,
) -> u8
    ensures { TellsShapes unit_16
        (IsStrokeOf unit_16 whole_point points.now ends.now style.now (start_points.now, end_points.now)) options.now
        (shape_room shape_points.old contour_ends.old shape_ends.old counts.old)
        (shape_room shape_points.new contour_ends.new shape_ends.new counts.new) result }
{
    let drawing = stroke(alloc, points, ends, style, start_points, end_points);
    tell_shapes(
        alloc,
        &drawing,
        options,
        shape_points,
        contour_ends,
        shape_ends,
        counts,
    )
    .code()
}

/// The shapes of a stroke, in the caller's lists, how many items each has, and their nearness.
#[unsafe(no_mangle)]
pub extern "C" fn mesh_stroke_near_i16(
    alloc: Global,
    points: &[[i16; 2]],
    ends: &[usize],
    style: &FlatStrokeStyle,
    start_points: &[[i16; 2]],
    end_points: &[[i16; 2]],
    options: &FlatOptions,
    most_splits: u64,
    shape_points: &mut [[i16; 2]],
    contour_ends: &mut [usize],
    shape_ends: &mut [usize],
    counts: &mut ShapeCounts,
    nearness: &mut u64,
) -> u8
    ensures { TellsNear unit_16
        (IsStrokeOf unit_16 whole_point points.now ends.now style.now (start_points.now, end_points.now))
        options.now most_splits
        (near_room shape_points.old contour_ends.old shape_ends.old counts.old nearness.old)
        (near_room shape_points.new contour_ends.new shape_ends.new counts.new nearness.new) result }
{
    let drawing = stroke(alloc, points, ends, style, start_points, end_points);
    tell_near(
        alloc,
        &drawing,
        options,
        most_splits,
        shape_points,
        contour_ends,
        shape_ends,
        counts,
        nearness,
    )
    .code()
}

/// The edges of a stroke, path by path, in the caller's lists, and how many items each has.
#[unsafe(no_mangle)]
pub extern "C" fn mesh_stroke_edges_i16(
    alloc: Global,
    points: &[[i16; 2]],
    ends: &[usize],
    style: &FlatStrokeStyle,
    start_points: &[[i16; 2]],
    end_points: &[[i16; 2]],
    edges: &mut [[i16; 4]],
    path_ends: &mut [usize],
    counts: &mut EdgeCounts,
) -> u8
    ensures { TellsEdges unit_16
        (IsStrokeOf unit_16 whole_point points.now ends.now style.now (start_points.now, end_points.now))
        (edge_room edges.old path_ends.old counts.old) (edge_room edges.new path_ends.new counts.new) result }
{
    let drawing = stroke(alloc, points, ends, style, start_points, end_points);
    tell_edges(alloc, &drawing, edges, path_ends, counts).code()
}

/// Whether a stroke stays in range, and how far it reaches from its points.
#[unsafe(no_mangle)]
pub extern "C" fn mesh_validate_stroke_i16(
    alloc: Global,
    points: &[[i16; 2]],
    ends: &[usize],
    style: &FlatStrokeStyle,
    start_points: &[[i16; 2]],
    end_points: &[[i16; 2]],
    padding: &mut i64,
) -> u8
    ensures { TellsRange unit_16
        (IsStrokeOf unit_16 whole_point points.now ends.now style.now (start_points.now, end_points.now))
        padding.old padding.new result }
{
    let drawing = stroke(alloc, points, ends, style, start_points, end_points);
    tell_range(&drawing, padding).code()
}

/// The shapes of a stroke of variable width, in the caller's lists, and how many items each has.
#[unsafe(no_mangle)]
pub extern "C" fn mesh_variable_stroke_i16(
    alloc: Global,
    vertices: &[[i16; 3]],
    ends: &[usize],
    arc: &FlatArc,
    options: &FlatOptions,
    shape_points: &mut [[i16; 2]],
    contour_ends: &mut [usize],
    shape_ends: &mut [usize],
    counts: &mut ShapeCounts,
) -> u8
    ensures { TellsShapes unit_16
        (IsVariableStrokeOf whole_vertex vertices.now ends.now arc.now) options.now
        (shape_room shape_points.old contour_ends.old shape_ends.old counts.old)
        (shape_room shape_points.new contour_ends.new shape_ends.new counts.new) result }
{
    let drawing = variable_stroke(alloc, vertices, ends, arc);
    tell_shapes(
        alloc,
        &drawing,
        options,
        shape_points,
        contour_ends,
        shape_ends,
        counts,
    )
    .code()
}

/// The shapes of a stroke of variable width, in the caller's lists, how many items each has, and their nearness.
#[unsafe(no_mangle)]
pub extern "C" fn mesh_variable_stroke_near_i16(
    alloc: Global,
    vertices: &[[i16; 3]],
    ends: &[usize],
    arc: &FlatArc,
    options: &FlatOptions,
    most_splits: u64,
    shape_points: &mut [[i16; 2]],
    contour_ends: &mut [usize],
    shape_ends: &mut [usize],
    counts: &mut ShapeCounts,
    nearness: &mut u64,
) -> u8
    ensures { TellsNear unit_16
        (IsVariableStrokeOf whole_vertex vertices.now ends.now arc.now) options.now most_splits
        (near_room shape_points.old contour_ends.old shape_ends.old counts.old nearness.old)
        (near_room shape_points.new contour_ends.new shape_ends.new counts.new nearness.new) result }
{
    let drawing = variable_stroke(alloc, vertices, ends, arc);
    tell_near(
        alloc,
        &drawing,
        options,
        most_splits,
        shape_points,
        contour_ends,
        shape_ends,
        counts,
        nearness,
    )
    .code()
}

/// The edges of a stroke of variable width, path by path, in the caller's lists, and how many items each has.
#[unsafe(no_mangle)]
pub extern "C" fn mesh_variable_stroke_edges_i16(
    alloc: Global,
    vertices: &[[i16; 3]],
    ends: &[usize],
    arc: &FlatArc,
    edges: &mut [[i16; 4]],
    path_ends: &mut [usize],
    counts: &mut EdgeCounts,
) -> u8
    ensures { TellsEdges unit_16
        (IsVariableStrokeOf whole_vertex vertices.now ends.now arc.now)
        (edge_room edges.old path_ends.old counts.old) (edge_room edges.new path_ends.new counts.new) result }
{
    let drawing = variable_stroke(alloc, vertices, ends, arc);
    tell_edges(alloc, &drawing, edges, path_ends, counts).code()
}

/// Whether a stroke of variable width stays in range, and how far it reaches from its points.
#[unsafe(no_mangle)]
pub extern "C" fn mesh_validate_variable_stroke_i16(
    alloc: Global,
    vertices: &[[i16; 3]],
    ends: &[usize],
    arc: &FlatArc,
    padding: &mut i64,
) -> u8
    ensures { TellsRange unit_16
        (IsVariableStrokeOf whole_vertex vertices.now ends.now arc.now) padding.old padding.new result }
{
    let drawing = variable_stroke(alloc, vertices, ends, arc);
    tell_range(&drawing, padding).code()
}

/// How near shapes come to paths: the square of the least distance, rounded down.
#[unsafe(no_mangle)]
pub extern "C" fn mesh_clearance_i16(
    alloc: Global,
    points: &[[i16; 2]],
    contour_ends: &[usize],
    shape_ends: &[usize],
    path_points: &[[i16; 2]],
    path_ends: &[usize],
    closed: u32,
    clearance: &mut u64,
) -> u8
    ensures { TellsClearance (shape_lists points.now contour_ends.now shape_ends.now)
        (path_lists path_points.now path_ends.now) closed clearance.old clearance.new result }
{
    tell_clearance(
        alloc,
        points,
        contour_ends,
        shape_ends,
        path_points,
        path_ends,
        closed,
        clearance,
    )
    .code()
}

/// Shapes without their slivers, in the caller's lists, and how many items each has.
#[unsafe(no_mangle)]
pub extern "C" fn mesh_without_slivers_i16(
    alloc: Global,
    points: &[[i16; 2]],
    contour_ends: &[usize],
    shape_ends: &[usize],
    width: u32,
    left_points: &mut [[i16; 2]],
    left_contour_ends: &mut [usize],
    left_shape_ends: &mut [usize],
    counts: &mut ShapeCounts,
) -> u8
    ensures { TellsSlivers (shape_lists points.now contour_ends.now shape_ends.now) width
        (shape_room left_points.old left_contour_ends.old left_shape_ends.old counts.old)
        (shape_room left_points.new left_contour_ends.new left_shape_ends.new counts.new) result }
{
    tell_without_slivers(
        alloc,
        points,
        contour_ends,
        shape_ends,
        width,
        left_points,
        left_contour_ends,
        left_shape_ends,
        counts,
    )
    .code()
}
