//! Shapes end to end in lists, and room for them.

ghost use Rattle.std.specs.Prelude.{◌≡◌, ◌↔◌, IfOk, IsTrue};
ghost use Rattle.mesh_num.specs.Paths.{shapes_of};
ghost use Rattle.mesh_arrays.specs.EndToEnd.{HoldsShapes};
ghost use Rattle.mesh_arrays.specs.ShapeRooms.{DoShapesFit, LeavesShapes, lists_of, shape_counts, shape_lists};
ghost use Rattle.mesh_arrays.specs.ShapeRooms.{shape_room, with_shapes};
ghost use Rattle.mesh_arrays.specs.Telling.{IsPut, IsTold};

use crate::failure::Failure;
use crate::lists::FlatLists;
use crate::numbers::Flat;
use crate::outcome::Outcome;
use crate::room::put;
use mesh_num::num::{IntNumber, IntPoint};
use mesh_num::shape::buffer::IntShapes;
use std::alloc::{AllocError, Global};

/// Shapes of contours, end to end in lists.
#[derive(Drop)]
pub struct FlatShapes<P> {
    /// The points of the contours of all shapes, in order.
    pub contours: FlatLists<P>,
    /// For each shape, in order, how many contours stand in it and before it.
    pub shape_ends: Vec<usize>,
}

/// How many items the lists of shapes have.
#[repr(C)]
#[derive(Clone, Copy)]
pub struct ShapeCounts {
    /// The points of all contours.
    pub points: usize,
    /// The contours of all shapes.
    pub contours: usize,
    /// The shapes.
    pub shapes: usize,
}

impl<P> FlatShapes<P> {
    /// The shapes in lists. It fails only where memory is refused.
    pub fn of<I: IntNumber>(alloc: Global, shapes: &IntShapes<I>) -> Result<Self, AllocError>
    where
        P: Flat<Item = IntPoint<I>>,
        ensures { IfOk result (λ flat. HoldsShapes P.item_of flat (shapes_of shapes.now.items)) }
    {
        let mut contours = FlatLists::new(alloc);
        let mut shape_ends = Vec::new(alloc);
        for shape in shapes {
            contours.push_lists(shape)?;
            shape_ends.push(contours.ends.len())?;
        }
        Ok(FlatShapes {
            contours,
            shape_ends,
        })
    }

    /// How many items the lists have.
    pub fn counts(&self) -> ShapeCounts
        ensures { result ≡ shape_counts (lists_of self.now) }
    {
        ShapeCounts {
            points: self.contours.all.len(),
            contours: self.contours.ends.len(),
            shapes: self.shape_ends.len(),
        }
    }

    /// Whether each list fits its room.
    fn fits(&self, points: &[P], contour_ends: &[usize], shape_ends: &[usize]) -> bool
        ensures { IsTrue result
            ↔ DoShapesFit (lists_of self.now) (shape_lists points.now contour_ends.now shape_ends.now) }
    {
        self.contours.all.len() <= points.len()
            && self.contours.ends.len() <= contour_ends.len()
            && self.shape_ends.len() <= shape_ends.len()
    }

    /// Copies the lists to the beginnings of the caller's where all of them fit. `RoomTooSmall`: they do not, and the
    /// caller's are as they were.
    pub(crate) fn put_in(
        &self,
        points: &mut [P],
        contour_ends: &mut [usize],
        shape_ends: &mut [usize],
    ) -> Outcome
    where
        P: Copy,
        ensures { IsPut DoShapesFit with_shapes (lists_of self.now)
            (shape_lists points.old contour_ends.old shape_ends.old)
            (shape_lists points.new contour_ends.new shape_ends.new) result }
    {
        if !self.fits(points, contour_ends, shape_ends) {
            return Outcome::RoomTooSmall;
        }
        put(&self.contours.all, points);
        put(&self.contours.ends, contour_ends);
        put(&self.shape_ends, shape_ends);
        Outcome::Answered
    }
}

/// Copies the shapes to the beginnings of the caller's lists where all of them fit, and tells how many items each has.
/// `RoomTooSmall`: they do not fit, and the lists are as they were. Where there are no shapes, all is as it was.
pub fn hand_over_shapes<P: Copy>(
    answer: &Result<FlatShapes<P>, Failure>,
    points: &mut [P],
    contour_ends: &mut [usize],
    shape_ends: &mut [usize],
    counts: &mut ShapeCounts,
) -> Outcome
    ensures { IsTold LeavesShapes answer.now (shape_room points.old contour_ends.old shape_ends.old counts.old)
        (shape_room points.new contour_ends.new shape_ends.new counts.new) result }
{
    let shapes = match answer {
        Ok(shapes) => shapes,
        Err(failure) => return Outcome::of(*failure),
    };
    *counts = shapes.counts();
    shapes.put_in(points, contour_ends, shape_ends)
}
