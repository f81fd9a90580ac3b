//! What is drawn of lists and numbers: the shapes, with or without their nearness, and the edges.

ghost use Rattle.std.specs.Prelude.{Ok};
ghost use Rattle.mesh_drawing.specs.Drawn.{drawn_of};
ghost use Rattle.mesh_drawing.specs.Order.{by_values};
ghost use Rattle.mesh_arrays.specs.Answers.{IsEdgesAnswer, IsNearAnswer, IsShapesAnswer};
ghost use Rattle.mesh_arrays.specs.EdgeRooms.{LeavesEdges, edge_room};
ghost use Rattle.mesh_arrays.specs.Failures.{read_as};
ghost use Rattle.mesh_arrays.specs.ShapeRooms.{LeavesNear, LeavesShapes, near_room, shape_room};
ghost use Rattle.mesh_arrays.specs.Telling.{TellsAnswer};

use crate::edges::{EdgeCounts, hand_over_edges};
use crate::failure::Failure;
use crate::lists::FlatLists;
use crate::near::{NearFlatShapes, hand_over_near};
use crate::numbers::Flat;
use crate::options::FlatOptions;
use crate::outcome::Outcome;
use crate::shapes::{FlatShapes, ShapeCounts, hand_over_shapes};
use mesh_drawing::asked::{Answer, Asked, Output};
use mesh_drawing::draw::draw;
use mesh_drawing::drawing::Drawing;
use mesh_num::num::{IntPoint, OverlayInt};
use mesh_num::shape::edge::DirectedEdge;
use std::alloc::Global;

/// Tells the shapes of the drawing that was read. `Malformed`: none was read, or the options stand for none.
/// `OutOfRange`: what is drawn would pass the safe range. `OutOfMemory`: memory was refused. `RoomTooSmall`: the shapes
/// do not fit, and the lists are as they were.
pub fn tell_shapes<I: OverlayInt, P: Flat<Item = IntPoint<I>>>(
    alloc: Global,
    drawing: &Result<Drawing<I>, Failure>,
    options: &FlatOptions,
    points: &mut [P],
    contour_ends: &mut [usize],
    shape_ends: &mut [usize],
    counts: &mut ShapeCounts,
) -> Outcome
    ensures { TellsAnswer (IsShapesAnswer I.unit P.item_of options.now (read_as (drawn_of I.value) drawing.now))
        LeavesShapes (shape_room points.old contour_ends.old shape_ends.old counts.old)
        (shape_room points.new contour_ends.new shape_ends.new counts.new) result }
{
    let answer = shapes(alloc, drawing, options);
    hand_over_shapes(&answer, points, contour_ends, shape_ends, counts)
}

/// Tells the shapes and their nearness; `most_splits` is how many splits may be made, and 0 stands for any number. It
/// ends as `tell_shapes` does, or with `TooManySplits`: more splits were made.
pub fn tell_near<I: OverlayInt, P: Flat<Item = IntPoint<I>>>(
    alloc: Global,
    drawing: &Result<Drawing<I>, Failure>,
    options: &FlatOptions,
    most_splits: u64,
    points: &mut [P],
    contour_ends: &mut [usize],
    shape_ends: &mut [usize],
    counts: &mut ShapeCounts,
    nearness: &mut u64,
) -> Outcome
    ensures { TellsAnswer
        (IsNearAnswer I.unit P.item_of options.now most_splits (read_as (drawn_of I.value) drawing.now))
        LeavesNear (near_room points.old contour_ends.old shape_ends.old counts.old nearness.old)
        (near_room points.new contour_ends.new shape_ends.new counts.new nearness.new) result }
{
    let answer = near(alloc, drawing, options, most_splits);
    hand_over_near(&answer, points, contour_ends, shape_ends, counts, nearness)
}

/// Tells the edges of what is drawn of each path, sorted by their starts and then by their ends. It ends as `tell_shapes`
/// does.
pub fn tell_edges<I: OverlayInt, E: Flat<Item = DirectedEdge<I>>>(
    alloc: Global,
    drawing: &Result<Drawing<I>, Failure>,
    edge_list: &mut [E],
    path_ends: &mut [usize],
    counts: &mut EdgeCounts,
) -> Outcome
    ensures { TellsAnswer
        (IsEdgesAnswer (by_values I.cmp I.of_value) I.unit E.item_of (read_as (drawn_of I.value) drawing.now))
        LeavesEdges (edge_room edge_list.old path_ends.old counts.old)
        (edge_room edge_list.new path_ends.new counts.new) result }
{
    let answer = edges(alloc, drawing);
    hand_over_edges(&answer, edge_list, path_ends, counts)
}

/// The shapes of the drawing that was read.
fn shapes<I: OverlayInt, P: Flat<Item = IntPoint<I>>>(
    alloc: Global,
    drawing: &Result<Drawing<I>, Failure>,
    options: &FlatOptions,
) -> Result<FlatShapes<P>, Failure>
    ensures { IsShapesAnswer I.unit P.item_of options.now (read_as (drawn_of I.value) drawing.now) result }
{
    match drawing {
        Ok(drawing) => drawn_shapes(alloc, drawing, options),
        Err(failure) => Err(*failure),
    }
}

/// The shapes that are drawn.
fn drawn_shapes<I: OverlayInt, P: Flat<Item = IntPoint<I>>>(
    alloc: Global,
    drawing: &Drawing<I>,
    options: &FlatOptions,
) -> Result<FlatShapes<P>, Failure>
    ensures { IsShapesAnswer I.unit P.item_of options.now (Ok (drawn_of I.value drawing.now)) result }
{
    let Some(options) = options.options::<I>() else {
        return Err(Failure::Malformed);
    };
    let asked = Asked {
        output: Output::Shapes(options),
        most_splits: 0,
        nearness: false,
    };
    let answer = draw(alloc, drawing, asked)?;
    match &answer {
        Answer::Edges(_) => unreachable!(),
        Answer::Shapes(shapes) => Ok(FlatShapes::of(alloc, shapes)?),
        Answer::NearShapes(_) => unreachable!(),
    }
}

/// The shapes of the drawing that was read, and their nearness.
fn near<I: OverlayInt, P: Flat<Item = IntPoint<I>>>(
    alloc: Global,
    drawing: &Result<Drawing<I>, Failure>,
    options: &FlatOptions,
    most_splits: u64,
) -> Result<NearFlatShapes<P>, Failure>
    ensures { IsNearAnswer I.unit P.item_of options.now most_splits (read_as (drawn_of I.value) drawing.now) result }
{
    match drawing {
        Ok(drawing) => drawn_near(alloc, drawing, options, most_splits),
        Err(failure) => Err(*failure),
    }
}

/// The shapes that are drawn, and their nearness.
fn drawn_near<I: OverlayInt, P: Flat<Item = IntPoint<I>>>(
    alloc: Global,
    drawing: &Drawing<I>,
    options: &FlatOptions,
    most_splits: u64,
) -> Result<NearFlatShapes<P>, Failure>
    ensures { IsNearAnswer I.unit P.item_of options.now most_splits (Ok (drawn_of I.value drawing.now)) result }
{
    let Some(options) = options.options::<I>() else {
        return Err(Failure::Malformed);
    };
    let asked = Asked {
        output: Output::Shapes(options),
        most_splits,
        nearness: true,
    };
    let answer = draw(alloc, drawing, asked)?;
    match &answer {
        Answer::Edges(_) => unreachable!(),
        Answer::Shapes(_) => unreachable!(),
        Answer::NearShapes(near) => Ok(NearFlatShapes {
            shapes: FlatShapes::of(alloc, &near.shapes)?,
            nearness: near.nearness,
        }),
    }
}

/// The edges of the drawing that was read, path by path.
fn edges<I: OverlayInt, E: Flat<Item = DirectedEdge<I>>>(
    alloc: Global,
    drawing: &Result<Drawing<I>, Failure>,
) -> Result<FlatLists<E>, Failure>
    ensures { IsEdgesAnswer (by_values I.cmp I.of_value) I.unit E.item_of
        (read_as (drawn_of I.value) drawing.now) result }
{
    match drawing {
        Ok(drawing) => drawn_edges(alloc, drawing),
        Err(failure) => Err(*failure),
    }
}

/// The edges of what is drawn of each path.
fn drawn_edges<I: OverlayInt, E: Flat<Item = DirectedEdge<I>>>(
    alloc: Global,
    drawing: &Drawing<I>,
) -> Result<FlatLists<E>, Failure>
    ensures { IsEdgesAnswer (by_values I.cmp I.of_value) I.unit E.item_of
        (Ok (drawn_of I.value drawing.now)) result }
{
    let asked = Asked {
        output: Output::Edges,
        most_splits: 0,
        nearness: false,
    };
    let answer = draw(alloc, drawing, asked)?;
    match &answer {
        Answer::Edges(lists) => Ok(FlatLists::of(alloc, lists)?),
        Answer::Shapes(_) => unreachable!(),
        Answer::NearShapes(_) => unreachable!(),
    }
}
