//! Iterators over borrowed paths of vertices.

ghost use Rattle.std.specs.Prelude.{◌≡◌, [], ◌∷◌, length, IfSome};
ghost use Rattle.std.specs.Iterator.SizeHint.{IsWithinCount};
ghost use Rattle.std.specs.Iterator.{YieldsFirstRef, UpTo, item_count};
ghost use Rattle.mesh_num.specs.Paths.{paths_of};

use mesh_join::style::IntStrokeVertex;
use mesh_num::num::IntNumber;
use std::iter::FusedIterator;
use std::marker::Model;

/// One borrowed path of vertices, given once. Contracts see the list of the paths still to come: the one path, and
/// then none. `len` tells how many are still to come, `count` how many come.
#[derive(Debug, Drop)]
pub struct ContourResourceIterator<'a, I: IntNumber> {
    path: Option<&'a [IntStrokeVertex<I>]>,
}

impl<'a, I: IntNumber> Model for ContourResourceIterator<'a, I> {
    ghost use Rattle.std.specs.Prelude.{List};
    ghost use Rattle.mesh_join.specs.VariableStyles.{Vertex};
    ghost use Rattle.mesh_variable_stroke.specs.PathsLeft.{path_left};

    ghost Value = { List (List Vertex) };

    ghost view = { λ s. path_left s.path };
}

impl<'a, I: IntNumber> ContourResourceIterator<'a, I> {
    /// Gives these vertices as the one path, also where there are none. It takes no memory.
    pub fn with_slice(slice: &'a [IntStrokeVertex<I>]) -> Self
        ensures { result ≡ slice.now ∷ [] }
    {
        ContourResourceIterator { path: Some(slice) }
    }
}

impl<'a, I: IntNumber> Iterator for ContourResourceIterator<'a, I> {
    type Item = &'a [IntStrokeVertex<I>];

    ghost next_gives = { YieldsFirstRef (λ paths. paths) };

    ghost remaining = { item_count (λ paths. paths) };

    fn next(&mut self) -> Option<&'a [IntStrokeVertex<I>]> {
        self.path.take()
    }

    fn size_hint(&self) -> (usize, Option<usize>)
        ensures lower { IsWithinCount result.0 (item_count (λ paths. paths) self.now) }
        ensures upper { IfSome result.1 (UpTo (item_count (λ paths. paths) self.now)) }
        ensures value { result ≡ (length self.now, Some (length self.now)) }
    {
        let len = self.len();
        (len, Some(len))
    }
}

impl<'a, I: IntNumber> ExactSizeIterator for ContourResourceIterator<'a, I> {
    fn len(&self) -> usize {
        match self.path {
            Some(_) => 1,
            None => 0,
        }
    }
}

impl<'a, I: IntNumber> FusedIterator for ContourResourceIterator<'a, I> {}

/// Borrowed paths of vertices in their order, those without a vertex too. Contracts see the list of the paths still to
/// come. `len` tells how many are still to come, `count` how many come.
#[derive(Debug, Drop)]
pub struct ShapeResourceIterator<'a, I: IntNumber> {
    paths: &'a [Vec<IntStrokeVertex<I>>],
}

impl<'a, I: IntNumber> Model for ShapeResourceIterator<'a, I> {
    ghost use Rattle.std.specs.Prelude.{List};
    ghost use Rattle.mesh_num.specs.Paths.{paths_of};
    ghost use Rattle.mesh_join.specs.VariableStyles.{Vertex};

    ghost Value = { List (List Vertex) };

    ghost view = { λ s. paths_of s.paths.now };
}

impl<'a, I: IntNumber> ShapeResourceIterator<'a, I> {
    /// Gives these paths from the first to the last; none where there are none. It takes no memory.
    pub fn with_slice(slice: &'a [Vec<IntStrokeVertex<I>>]) -> Self
        ensures { result ≡ paths_of slice.now }
    {
        ShapeResourceIterator { paths: slice }
    }
}

impl<'a, I: IntNumber> Iterator for ShapeResourceIterator<'a, I> {
    type Item = &'a [IntStrokeVertex<I>];

    ghost next_gives = { YieldsFirstRef (λ paths. paths) };

    ghost remaining = { item_count (λ paths. paths) };

    fn next(&mut self) -> Option<&'a [IntStrokeVertex<I>]> {
        let (first, others) = self.paths.split_first()?;
        self.paths = others;
        Some(first.as_slice())
    }

    fn size_hint(&self) -> (usize, Option<usize>)
        ensures lower { IsWithinCount result.0 (item_count (λ paths. paths) self.now) }
        ensures upper { IfSome result.1 (UpTo (item_count (λ paths. paths) self.now)) }
        ensures value { result ≡ (length self.now, Some (length self.now)) }
    {
        let len = self.len();
        (len, Some(len))
    }
}

impl<'a, I: IntNumber> ExactSizeIterator for ShapeResourceIterator<'a, I> {
    fn len(&self) -> usize {
        self.paths.len()
    }
}

impl<'a, I: IntNumber> FusedIterator for ShapeResourceIterator<'a, I> {}
