//! Points, vertices and edges as arrays of numbers, in grid units: a point is its `x` and its `y`, a vertex its `x`, its
//! `y` and its width, an edge its start and then its end.

ghost use Rattle.std.specs.Prelude.{◌≡◌};
ghost use Rattle.mesh_arrays.specs.Numbers.{point_from, edge_from, vertex_from};

use mesh_join::style::IntStrokeVertex;
use mesh_num::num::{IntNumber, IntPoint};
use mesh_num::shape::edge::DirectedEdge;

/// Numbers that stand for an item of the library's own.
pub trait Flat: Copy + Drop {
    /// The item.
    type Item: Drop;

    ghost item_of: { Self → Self.Item };

    /// The item that these stand for.
    fn item(&self) -> Self::Item
        ensures { result ≡ item_of self.now };

    /// The numbers that stand for an item.
    fn of(item: &Self::Item) -> Self
        ensures { item_of result ≡ item.now };
}

/// A point.
impl<I: IntNumber> Flat for [I; 2] {
    type Item = IntPoint<I>;

    ghost item_of = { point_from I.value };

    fn item(&self) -> IntPoint<I> {
        IntPoint::new(self[0], self[1])
    }

    fn of(point: &IntPoint<I>) -> Self {
        [point.x, point.y]
    }
}

/// A vertex.
impl<I: IntNumber> Flat for [I; 3] {
    type Item = IntStrokeVertex<I>;

    ghost item_of = { vertex_from I.value };

    fn item(&self) -> IntStrokeVertex<I> {
        IntStrokeVertex::new(IntPoint::new(self[0], self[1]), self[2])
    }

    fn of(vertex: &IntStrokeVertex<I>) -> Self {
        [vertex.point.x, vertex.point.y, vertex.width]
    }
}

/// An edge.
impl<I: IntNumber> Flat for [I; 4] {
    type Item = DirectedEdge<I>;

    ghost item_of = { edge_from I.value };

    fn item(&self) -> DirectedEdge<I> {
        DirectedEdge {
            start: IntPoint::new(self[0], self[1]),
            end: IntPoint::new(self[2], self[3]),
        }
    }

    fn of(edge: &DirectedEdge<I>) -> Self {
        [edge.start.x, edge.start.y, edge.end.x, edge.end.y]
    }
}
