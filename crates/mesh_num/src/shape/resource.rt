//! Sources of paths.

ghost use Rattle.std.specs.Prelude.{◌≡◌, ◌<◌, ℤ, List, [], ◌∷◌, length, get_or};
ghost use Rattle.mesh_num.specs.FlatContours.{flat_contours};
ghost use Rattle.mesh_num.specs.Paths.{paths_of, shapes_of, contours_of, counted};

use crate::num::number::IntNumber;
use crate::num::point::IntPoint;
use crate::shape::buffer::FlatContoursBuffer;
use crate::shape::path_slice::PathSlice;

/// Anything that holds paths of points. Contracts see the list of its paths, each the list of its points.
pub trait IntShapeResource<I: IntNumber> {
    ghost paths: { Self → List (List (ℤ × ℤ)) };

    /// How many paths there are.
    fn path_count(&self) -> usize
        ensures { result ≡ length (paths self.now) };

    /// The points of one path, in order. The index counts from 0 and has to be below `path_count`.
    fn path_at(&self, index: usize) -> &[IntPoint<I>]
        requires { index < length (paths self.now) }
        ensures { result.now ≡ get_or (paths self.now) index [] };
}

/// One path.
impl<I: IntNumber> IntShapeResource<I> for Vec<IntPoint<I>> {
    ghost paths = { λ v. v.items ∷ [] };

    fn path_count(&self) -> usize {
        1
    }

    fn path_at(&self, _index: usize) -> &[IntPoint<I>] {
        self.as_slice()
    }
}

/// One path.
impl<I: IntNumber, const N: usize> IntShapeResource<I> for [IntPoint<I>; N] {
    ghost paths = { λ points. points ∷ [] };

    fn path_count(&self) -> usize {
        1
    }

    fn path_at(&self, _index: usize) -> &[IntPoint<I>] {
        self
    }
}

/// Each path is an item.
impl<I: IntNumber> IntShapeResource<I> for Vec<Vec<IntPoint<I>>> {
    ghost paths = { λ v. paths_of v.items };

    fn path_count(&self) -> usize {
        self.len()
    }

    fn path_at(&self, index: usize) -> &[IntPoint<I>] {
        self[index].as_slice()
    }
}

/// Each path is an item.
impl<I: IntNumber, const N: usize> IntShapeResource<I> for [Vec<IntPoint<I>>; N] {
    ghost paths = { λ items. paths_of items };

    fn path_count(&self) -> usize {
        self.len()
    }

    fn path_at(&self, index: usize) -> &[IntPoint<I>] {
        &self[index]
    }
}

/// One path.
impl<'a, I: IntNumber> IntShapeResource<I> for PathSlice<'a, IntPoint<I>> {
    ghost paths = { λ s. s.items.now ∷ [] };

    fn path_count(&self) -> usize {
        1
    }

    fn path_at(&self, _index: usize) -> &[IntPoint<I>] {
        self.items
    }
}

/// Each path is an item.
impl<'a, I: IntNumber> IntShapeResource<I> for PathSlice<'a, Vec<IntPoint<I>>> {
    ghost paths = { λ s. paths_of s.items.now };

    fn path_count(&self) -> usize {
        self.items.len()
    }

    fn path_at(&self, index: usize) -> &[IntPoint<I>] {
        self.items[index].as_slice()
    }
}

/// The contours of all polygons, in order. At most `usize::MAX` of them count.
impl<I: IntNumber> IntShapeResource<I> for Vec<Vec<Vec<IntPoint<I>>>> {
    ghost paths = { λ v. counted (contours_of (shapes_of v.items)) };

    fn path_count(&self) -> usize {
        let mut count: usize = 0;
        for shape in self {
            count = count.saturating_add(shape.len());
        }
        count
    }

    fn path_at(&self, index: usize) -> &[IntPoint<I>] {
        let mut left = index;
        for shape in self {
            if left < shape.len() {
                return shape[left].as_slice();
            }
            left -= shape.len();
        }
        &[]
    }
}

/// The contours of the buffer, in order, so that a result can be handed in again. Where a range reaches past the last
/// point, the points that exist count.
impl<I: IntNumber> IntShapeResource<I> for FlatContoursBuffer<I> {
    ghost paths = { λ b. flat_contours b };

    fn path_count(&self) -> usize {
        self.ranges.len()
    }

    fn path_at(&self, index: usize) -> &[IntPoint<I>] {
        let range = &self.ranges[index];
        let end = range.end.min(self.points.len());
        let start = range.start.min(end);
        &self.points[start..end]
    }
}
