//! Sources of paths whose width changes from vertex to vertex.

ghost use Rattle.std.specs.Prelude.{◌≡◌, ◌<◌, List, [], ◌∷◌, length, get_or};
ghost use Rattle.mesh_num.specs.Paths.{paths_of};
ghost use Rattle.mesh_join.specs.VariableStyles.{Vertex};

use mesh_join::style::IntStrokeVertex;
use mesh_num::num::IntNumber;
use mesh_num::shape::path_slice::PathSlice;

/// A source of paths of vertices, each with a point and a width in grid units. Contracts see the list of its paths,
/// each the list of its vertices. No method allocates.
pub trait IntVariableStrokeSource<I: IntNumber> {
    ghost paths: { Self → List (List Vertex) };

    /// How many paths there are; one without a vertex counts too.
    fn path_count(&self) -> usize
        ensures { result ≡ length (paths self.now) };

    /// The vertices of one path, in their order. The index counts from 0 and is below `path_count`.
    fn path_at(&self, index: usize) -> &[IntStrokeVertex<I>]
        requires { index < length (paths self.now) }
        ensures { result.now ≡ get_or (paths self.now) index [] };
}

/// One path.
impl<I: IntNumber> IntVariableStrokeSource<I> for Vec<IntStrokeVertex<I>> {
    ghost paths = { λ v. v.items ∷ [] };

    fn path_count(&self) -> usize {
        1
    }

    fn path_at(&self, _index: usize) -> &[IntStrokeVertex<I>] {
        self.as_slice()
    }
}

/// One path.
impl<I: IntNumber, const N: usize> IntVariableStrokeSource<I> for [IntStrokeVertex<I>; N] {
    ghost paths = { λ vertices. vertices ∷ [] };

    fn path_count(&self) -> usize {
        1
    }

    fn path_at(&self, _index: usize) -> &[IntStrokeVertex<I>] {
        self
    }
}

/// Each path is an item.
impl<I: IntNumber> IntVariableStrokeSource<I> for Vec<Vec<IntStrokeVertex<I>>> {
    ghost paths = { λ v. paths_of v.items };

    fn path_count(&self) -> usize {
        self.len()
    }

    fn path_at(&self, index: usize) -> &[IntStrokeVertex<I>] {
        self[index].as_slice()
    }
}

/// Each path is an item.
impl<I: IntNumber, const N: usize> IntVariableStrokeSource<I> for [Vec<IntStrokeVertex<I>>; N] {
    ghost paths = { λ items. paths_of items };

    fn path_count(&self) -> usize {
        self.len()
    }

    fn path_at(&self, index: usize) -> &[IntStrokeVertex<I>] {
        &self[index]
    }
}

/// One path.
impl<'a, I: IntNumber> IntVariableStrokeSource<I> for PathSlice<'a, IntStrokeVertex<I>> {
    ghost paths = { λ s. s.items.now ∷ [] };

    fn path_count(&self) -> usize {
        1
    }

    fn path_at(&self, _index: usize) -> &[IntStrokeVertex<I>] {
        self.items
    }
}

/// Each path is an item.
impl<'a, I: IntNumber> IntVariableStrokeSource<I> for PathSlice<'a, Vec<IntStrokeVertex<I>>> {
    ghost paths = { λ s. paths_of s.items.now };

    fn path_count(&self) -> usize {
        self.items.len()
    }

    fn path_at(&self, index: usize) -> &[IntStrokeVertex<I>] {
        self.items[index].as_slice()
    }
}
