//! Directed edges.

ghost use Rattle.std.specs.Prelude.{◌≡◌};

use crate::num::number::IntNumber;
use crate::num::point::IntPoint;
use std::alloc::AllocError;
use std::marker::Model;

/// A directed edge. Edges are ordered by their start, then by their end. Contracts see the pair of both.
#[derive(Debug, Copy, PartialEq, Eq, PartialOrd, Ord)]
pub struct DirectedEdge<I: IntNumber> {
    /// Where it begins.
    pub start: IntPoint<I>,
    /// Where it ends.
    pub end: IntPoint<I>,
}

impl<I: IntNumber> Model for DirectedEdge<I> {
    ghost use Rattle.mesh_plane.specs.Plane.{Edge};

    ghost Value = { Edge };

    ghost view = { λ e. (e.start, e.end) };

    ghost inverse = { λ v. record { start = v.0; end = v.1 } };
}

impl<I: IntNumber> Clone for DirectedEdge<I> {
    ghost is_clone = { λ first second. second ≡ first };

    ghost is_infallible = { λ _. Unit {0} };

    fn clone(&self) -> Result<Self, AllocError> {
        Ok(*self)
    }
}
