//! Signed segments, each of which stands for one directed edge.

ghost use Rattle.std.specs.Prelude.{◌≡◌, ◌≢◌, ℕ, ◌+◌, ◌≤◌, ℤ, List, OnOk, OnErr, IsOk, ◌++◌, length, vec_capacity};
ghost use Rattle.mesh_num.specs.Segments.{edge_of, subject_of, segment_between, IsSubject, SignedEdge};
ghost use Rattle.mesh_plane.specs.Order.{point_lt};
ghost use Rattle.mesh_plane.specs.Plane.{Point};

use crate::num::convert::is_less;
use crate::num::number::IntNumber;
use crate::num::point::{IntPoint, is_one_point};
use crate::shape::edge::DirectedEdge;
use std::alloc::AllocError;
use std::marker::Model;

/// The two ends of a segment, the smaller first. Contracts see the pair of both.
#[derive(Debug, Copy)]
pub struct XSegment<I: IntNumber> {
    /// The smaller end.
    pub a: IntPoint<I>,
    /// The larger end.
    pub b: IntPoint<I>,
}

impl<I: IntNumber> Clone for XSegment<I> {
    ghost is_clone = { λ first second. second ≡ first };

    ghost is_infallible = { λ _. Unit {0} };

    fn clone(&self) -> Result<Self, AllocError> {
        Ok(*self)
    }
}

impl<I: IntNumber> Model for XSegment<I> {
    ghost use Rattle.std.specs.Prelude.{ℤ};

    ghost Value = { (ℤ × ℤ) × (ℤ × ℤ) };

    ghost view = { λ s. (s.a, s.b) };

    ghost inverse = { λ v. record { a = v.0; b = v.1 } };
}

/// A segment with a sign: it stands for the edge from its smaller end to its larger one (count 1) or back (count -1).
/// Contracts see the pair of its ends, and its count.
#[derive(Debug, Copy)]
pub struct Segment<I: IntNumber> {
    /// Both ends.
    pub x_segment: XSegment<I>,
    /// 1 for the edge from the smaller end, -1 for the edge back.
    pub count: i32,
}

impl<I: IntNumber> Clone for Segment<I> {
    ghost is_clone = { λ first second. second ≡ first };

    ghost is_infallible = { λ _. Unit {0} };

    fn clone(&self) -> Result<Self, AllocError> {
        Ok(*self)
    }
}

impl<I: IntNumber> Model for Segment<I> {
    ghost use Rattle.std.specs.Prelude.{ℤ};

    ghost Value = { ((ℤ × ℤ) × (ℤ × ℤ)) × ℤ };

    ghost view = { λ s. (s.x_segment, s.count) };

    ghost inverse = { λ v. record { x_segment = v.0; count = v.1 } };
}

impl<I: IntNumber> Segment<I> {
    /// The segment of the edge from `p0` to `p1`, which have to differ: the smaller end comes first, and the count is 1
    /// where `p0` is the smaller one, otherwise -1.
    pub fn subject(p0: IntPoint<I>, p1: IntPoint<I>) -> Self
        requires { p0 ≢ p1 }
        ensures value { result ≡ subject_of p0 p1 }
        ensures edge { edge_of result ≡ (p0, p1) }
        ensures form { IsSubject result }
    {
        if is_before(p0, p1) {
            Segment {
                x_segment: XSegment { a: p0, b: p1 },
                count: 1,
            }
        } else {
            Segment {
                x_segment: XSegment { a: p1, b: p0 },
                count: -1,
            }
        }
    }

    /// The edge that the segment stands for: from its smaller end where its count is above 0, otherwise back.
    pub fn edge(self) -> DirectedEdge<I>
        ensures { result ≡ edge_of self }
    {
        let ends = self.x_segment;
        if self.count > 0 {
            DirectedEdge {
                start: ends.a,
                end: ends.b,
            }
        } else {
            DirectedEdge {
                start: ends.b,
                end: ends.a,
            }
        }
    }
}

/// Whether a point comes before another one, by `x` and then by `y`.
fn is_before<I: IntNumber>(p: IntPoint<I>, q: IntPoint<I>) -> bool
    ensures { result ≡ point_lt p q }
{
    if is_less(p.x, q.x) {
        return true;
    }
    if is_less(q.x, p.x) {
        return false;
    }
    is_less(p.y, q.y)
}

/// Vectors of segments to which edges are added. Contracts see their list of segments.
pub trait SubjectSegments<P> {
    ghost segments: { Self → List SignedEdge };

    ghost point: { P → Point };

    ghost capacity: { Self → ℕ };

    /// Adds the segment of the edge from `a` to `b`. Nothing is added where they are equal; then nothing is allocated,
    /// and the vector keeps its capacity. The call succeeds where the vector has room. After an error the vector holds
    /// what it held.
    fn push_non_degenerate(&mut self, a: P, b: P) -> Result<(), AllocError>
        ensures ok { OnOk result (segments self.new ≡ segments self.old ++ segment_between (point a) (point b)) }
        ensures err { OnErr result (segments self.new ≡ segments self.old) }
        ensures same_ends { point a ≡ point b → IsOk result }
        ensures same_capacity { point a ≡ point b → capacity self.new ≡ capacity self.old }
        ensures room { length (segments self.old) + length (segment_between (point a) (point b)) ≤ capacity self.old
            → IsOk result }
        ensures capacity { capacity self.old ≤ capacity self.new };
}

impl<I: IntNumber> SubjectSegments<IntPoint<I>> for Vec<Segment<I>> {
    ghost segments = { λ v. v.items };

    ghost point = { λ p. p };

    ghost capacity = { λ v. vec_capacity v };

    fn push_non_degenerate(&mut self, a: IntPoint<I>, b: IntPoint<I>) -> Result<(), AllocError> {
        if is_one_point(a, b) {
            return Ok(());
        }
        self.push(Segment::subject(a, b))?;
        Ok(())
    }
}
