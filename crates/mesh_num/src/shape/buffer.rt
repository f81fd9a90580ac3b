//! Contours in one flat list of points.

ghost use Rattle.std.specs.Prelude.{◌≡◌, [], ◌∷◌, OnOk, OnErr, IfOk};
ghost use Rattle.mesh_num.specs.FlatContours.{HoldsContours};
ghost use Rattle.mesh_num.specs.Private.AddingContours.{AddsContours};
ghost use Rattle.mesh_num.specs.Paths.{paths_of, shapes_of, contours_of};

use crate::num::number::IntNumber;
use crate::num::point::IntPoint;
use std::alloc::{AllocError, Global};
use std::ops::Range;

/// Polygons. Each is a list of contours: the outer one, then its holes.
pub type IntShapes<I> = Vec<Vec<Vec<IntPoint<I>>>>;

/// Contours whose points stand end to end in `points`; `ranges` holds the range of each contour's points.
#[derive(Debug, Drop)]
pub struct FlatContoursBuffer<I: IntNumber> {
    /// The points of all contours, in order, in grid units.
    pub points: Vec<IntPoint<I>>,
    /// For each contour, in order, the range of its points in `points`.
    pub ranges: Vec<Range<usize>>,
}

impl<I: IntNumber> FlatContoursBuffer<I> {
    /// An empty buffer. It allocates nothing.
    pub fn new(alloc: Global) -> Self
        ensures { HoldsContours result [] }
    {
        FlatContoursBuffer {
            points: Vec::new(alloc),
            ranges: Vec::new(alloc),
        }
    }

    /// A buffer with the contours of the polygons, in order. It fails only where memory is refused.
    pub fn from_shapes(alloc: Global, shapes: &IntShapes<I>) -> Result<Self, AllocError>
        ensures { IfOk result (λ b. HoldsContours b (contours_of (shapes_of shapes.now.items))) }
    {
        let mut buffer = Self::new(alloc);
        for shape in shapes {
            buffer.push_shape(shape)?;
        }
        Ok(buffer)
    }

    /// Replaces the contours in the buffer by those of the polygons, in order. After an error the buffer is unchanged.
    pub fn replace_with(&mut self, shapes: &IntShapes<I>) -> Result<(), AllocError>
        ensures ok { OnOk result (HoldsContours self.new (contours_of (shapes_of shapes.now.items))) }
        ensures err { OnErr result (self.new ≡ self.old) }
    {
        *self = Self::from_shapes(*self.points.allocator(), shapes)?;
        Ok(())
    }

    fn push_shape(&mut self, shape: &Vec<Vec<IntPoint<I>>>) -> Result<(), AllocError>
        ensures { OnOk result (AddsContours self.old self.new (paths_of shape.now.items)) }
    {
        for contour in shape {
            self.push(contour)?;
        }
        Ok(())
    }

    fn push(&mut self, contour: &Vec<IntPoint<I>>) -> Result<(), AllocError>
        ensures { OnOk result (AddsContours self.old self.new (contour.now.items ∷ [])) }
    {
        let start = self.points.len();
        self.points.extend_from_slice(contour.as_slice())?;
        let end = self.points.len();
        self.ranges.push(Range { start, end })?;
        Ok(())
    }
}
