//! The edges of a path.

ghost use Rattle.std.specs.Prelude.{◌≡◌, [], ◌∷◌, not, Some, None, MatchOption, if◌then◌else◌};
ghost use Rattle.std.specs.Iterator.{YieldsFirstBy, item_count};
ghost use Rattle.mesh_plane.specs.Winding.{same_point};
ghost use Rattle.mesh_num.specs.Segments.{proper_edges};
ghost use Rattle.mesh_offset.specs.Walks.{pairs};
ghost use Rattle.mesh_stroke.specs.Paths.{path_edges};

use mesh_join::uniq_iter::UniqueSegment;
use mesh_num::num::convert::is_less;
use mesh_num::num::{IntNumber, IntPoint};
use std::marker::Model;

/// The edges of a path between neighbouring points that differ, in their order; of a closed one also the edge from the
/// last point back to the first, where they differ. Contracts see the list of the edges still to come.
#[derive(Drop)]
pub(crate) struct PathEdges<'a, I: IntNumber> {
    from: IntPoint<I>,
    points: PathPoints<'a, I>,
}

impl<'a, I: IntNumber> Model for PathEdges<'a, I> {
    ghost use Rattle.std.specs.Prelude.{ℤ, List, ◌∷◌};
    ghost use Rattle.mesh_num.specs.Segments.{proper_edges};
    ghost use Rattle.mesh_offset.specs.Walks.{pairs};

    ghost Value = { List ((ℤ × ℤ) × (ℤ × ℤ)) };

    ghost view = { λ e. proper_edges (pairs (e.from ∷ e.points)) };
}

impl<'a, I: IntNumber> PathEdges<'a, I> {
    /// The edges of the path through these points, `None` for no point. It takes no memory.
    pub(crate) fn new(points: &'a [IntPoint<I>], closed: bool) -> Option<Self>
        ensures { MatchOption result (points.now ≡ []) (λ edges. edges ≡ path_edges closed points.now) }
    {
        let Some((first, rest)) = points.split_first() else {
            return None;
        };
        let first = *first;
        let back = back_to(first, closed);
        Some(PathEdges {
            from: first,
            points: PathPoints { rest, back },
        })
    }
}

impl<'a, I: IntNumber> Iterator for PathEdges<'a, I> {
    type Item = UniqueSegment<I>;

    ghost next_gives = { YieldsFirstBy (λ e. (e.a, e.b)) (λ rest. rest) };

    ghost remaining = { item_count (λ rest. rest) };

    fn next(&mut self) -> Option<UniqueSegment<I>> {
        let from = self.from;
        let Some(to) = next_other(from, &mut self.points) else {
            return None;
        };
        self.from = to;
        Some(UniqueSegment { a: from, b: to })
    }
}

/// The points that a walk along a path still comes to: the rest of its list, and the first point where it is closed.
/// Contracts see their list.
#[derive(Drop)]
struct PathPoints<'a, I: IntNumber> {
    rest: &'a [IntPoint<I>],
    back: Option<IntPoint<I>>,
}

impl<'a, I: IntNumber> Model for PathPoints<'a, I> {
    ghost use Rattle.std.specs.Prelude.{ℤ, List, ◌++◌};
    ghost use Rattle.std.specs.Option.{option_to_list};

    ghost Value = { List (ℤ × ℤ) };

    ghost view = { λ p. p.rest.now ++ option_to_list p.back };
}

impl<'a, I: IntNumber> PathPoints<'a, I> {
    fn next(&mut self) -> Option<IntPoint<I>>
        ensures { MatchOption result ((self.old ≡ []) × (self.new ≡ [])) (λ p. self.old ≡ p ∷ self.new) }
    {
        if let Some((point, others)) = self.rest.split_first() {
            self.rest = others;
            return Some(*point);
        }
        self.back.take()
    }
}

/// The next point that differs from `from`.
fn next_other<I: IntNumber>(
    from: IntPoint<I>,
    points: &mut PathPoints<'_, I>,
) -> Option<IntPoint<I>>
    ensures { MatchOption result ((proper_edges (pairs (from ∷ points.old)) ≡ []) × (points.new ≡ []))
        (λ to. proper_edges (pairs (from ∷ points.old)) ≡ (from, to) ∷ proper_edges (pairs (to ∷ points.new))) }
{
    while let Some(point) = points.next() {
        if differ(from, point) {
            return Some(point);
        }
    }
    None
}

/// The point to which a path returns, where it is closed.
fn back_to<I: IntNumber>(first: IntPoint<I>, closed: bool) -> Option<IntPoint<I>>
    ensures { result ≡ (if closed then Some first else None) }
{
    if closed { Some(first) } else { None }
}

/// Whether both are not one point.
fn differ<I: IntNumber>(p: IntPoint<I>, q: IntPoint<I>) -> bool
    ensures { result ≡ not (same_point p q) }
{
    is_less(p.x, q.x) || is_less(q.x, p.x) || is_less(p.y, q.y) || is_less(q.y, p.y)
}
