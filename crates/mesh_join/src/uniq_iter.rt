//! The sections of a closed contour, without repeated points and without points on a straight line.

ghost use Rattle.std.specs.Prelude.{◌≡◌, ℕ, ℤ, pos, List, [], ◌∷◌, ◌++◌, MatchOption, IfSome, false};
ghost use Rattle.std.specs.List.{All};
ghost use Rattle.std.specs.Iterator.{YieldsFirstBy, item_count};
ghost use Rattle.mesh_plane.specs.Plane.{Point};
ghost use Rattle.mesh_plane.specs.Bounds.{IsSafe};
ghost use Rattle.mesh_plane.specs.Winding.{boundary, winding, same_point};
ghost use Rattle.mesh_plane.specs.Turning.{turns_at};
ghost use Rattle.mesh_join.specs.Cleaned.{cleaned_sections, open_sections, AllEqual, IsCleanContour};

use mesh_num::num::convert::is_wide_less;
use mesh_num::num::point::is_one_point;
use mesh_num::num::{IntNumber, IntPoint};
use std::marker::Model;

/// A directed edge of a contour from `a` to `b`.
#[derive(Debug, Clone, Copy)]
pub struct UniqueSegment<I: IntNumber> {
    /// The start.
    pub a: IntPoint<I>,
    /// The end.
    pub b: IntPoint<I>,
}

/// The edges of a closed contour, in order, without repeated points and without points that the contour runs straight
/// through. Points where it turns back are kept. Contracts see the list of the edges still to come.
#[derive(Drop)]
pub struct UniqueSegmentsIter<'a, I: IntNumber> {
    from: IntPoint<I>,
    to: IntPoint<I>,
    points: PointsToCome<'a, I>,
}

impl<'a, I: IntNumber> Model for UniqueSegmentsIter<'a, I> {
    ghost use Rattle.std.specs.Prelude.{ℤ, List, ◌∷◌};
    ghost use Rattle.std.specs.List.{All};
    ghost use Rattle.mesh_plane.specs.Bounds.{IsSafe};
    ghost use Rattle.mesh_join.specs.Cleaned.{open_sections};

    ghost Value = { List ((ℤ × ℤ) × (ℤ × ℤ)) };

    ghost view = { λ s. open_sections (s.from ∷ s.to ∷ s.points) };

    ghost invariant = { λ s. All (IsSafe I.unit) (s.from ∷ s.to ∷ s.points) };
}

impl<'a, I: IntNumber> UniqueSegmentsIter<'a, I> {
    /// The sections of the closed contour through these points, which have to be below `UNIT` in size in both
    /// coordinates. `None` means that there is no point, or that all points are equal. It allocates nothing.
    ///
    /// There are at least two sections. Each starts where the one before it ends, and none goes on in the direction of
    /// the one before it; this holds for the first after the last too. At every point they wind as often as the contour
    /// does.
    pub fn new(points: &'a [IntPoint<I>]) -> Option<Self>
        requires { All (IsSafe I.unit) points.now }
        ensures sections { MatchOption result (AllEqual points.now)
            (λ s. (AllEqual points.now → ⊥) × (s ≡ cleaned_sections points.now)) }
        ensures clean { IfSome result IsCleanContour }
        ensures winding { (m : ℕ) (q : Point) → MatchOption result (winding m q (boundary points.now) ≡ pos 0)
            (λ s. winding m q s ≡ winding m q (boundary points.now)) }
    {
        let Some((first, others)) = points.split_first() else {
            return None;
        };
        let first = *first;
        let Some(found) = first_other(first, others) else {
            return None;
        };
        let mut to = found.0;
        let mut rest = found.1;
        while let Some((next, others)) = rest.split_first() {
            if turns_at(first, to, *next) {
                return Some(UniqueSegmentsIter {
                    from: to,
                    to: *next,
                    points: PointsToCome {
                        rest: others,
                        first: Some(first),
                        start: Some(to),
                    },
                });
            }
            to = *next;
            rest = others;
        }
        Some(UniqueSegmentsIter {
            from: first,
            to,
            points: PointsToCome {
                rest,
                first: Some(first),
                start: Some(first),
            },
        })
    }
}

impl<'a, I: IntNumber> Iterator for UniqueSegmentsIter<'a, I> {
    type Item = UniqueSegment<I>;

    ghost next_gives = { YieldsFirstBy (λ e. (e.a, e.b)) (λ rest. rest) };

    ghost remaining = { item_count (λ rest. rest) };

    fn next(&mut self) -> Option<UniqueSegment<I>> {
        let from = self.from;
        let (to, after) = straight_on(from, self.to, &mut self.points);
        let section = UniqueSegment { a: from, b: to };
        match after {
            Some(next) => {
                self.from = to;
                self.to = next;
                Some(section)
            }
            None => {
                self.to = from;
                if is_one_point(from, to) {
                    return None;
                }
                Some(section)
            }
        }
    }
}

/// The points that a walk round a contour still comes to: the rest of its list, then the list's first point and the
/// point where the loop starts. Contracts see their list.
#[derive(Drop)]
struct PointsToCome<'a, I: IntNumber> {
    rest: &'a [IntPoint<I>],
    first: Option<IntPoint<I>>,
    start: Option<IntPoint<I>>,
}

impl<'a, I: IntNumber> Model for PointsToCome<'a, I> {
    ghost use Rattle.std.specs.Prelude.{ℤ, List, ◌++◌};
    ghost use Rattle.std.specs.Option.{option_to_list};

    ghost Value = { List (ℤ × ℤ) };

    ghost view = { λ p. p.rest.now ++ (option_to_list p.first ++ option_to_list p.start) };
}

impl<'a, I: IntNumber> PointsToCome<'a, I> {
    fn next(&mut self) -> Option<IntPoint<I>>
        ensures { MatchOption result ((self.old ≡ []) × (self.new ≡ [])) (λ p. self.old ≡ p ∷ self.new) }
    {
        if let Some((point, others)) = self.rest.split_first() {
            self.rest = others;
            return Some(*point);
        }
        if let Some(point) = self.first.take() {
            return Some(point);
        }
        self.start.take()
    }
}

/// The last point to which the way from `from` to `to` and on through the points runs straight, and the point after it.
fn straight_on<I: IntNumber>(
    from: IntPoint<I>,
    mut to: IntPoint<I>,
    points: &mut PointsToCome<'_, I>,
) -> (IntPoint<I>, Option<IntPoint<I>>)
    requires { All (IsSafe I.unit) (from ∷ to ∷ points.old) }
    ensures sections { MatchOption result.1
        ((open_sections (from ∷ to ∷ points.old) ≡ open_sections (from ∷ result.0 ∷ [])) × (points.new ≡ []))
        (λ next. open_sections (from ∷ to ∷ points.old)
        ≡ (from, result.0) ∷ open_sections (result.0 ∷ next ∷ points.new)) }
    ensures safe { MatchOption result.1 (IsSafe I.unit result.0)
        (λ next. All (IsSafe I.unit) (result.0 ∷ next ∷ points.new)) }
{
    while let Some(point) = points.next() {
        if turns_at(from, to, point) {
            return (to, Some(point));
        }
        to = point;
    }
    (to, None)
}

/// The first point that differs from `first`, and the points after it.
fn first_other<'a, I: IntNumber>(
    first: IntPoint<I>,
    points: &'a [IntPoint<I>],
) -> Option<(IntPoint<I>, &'a [IntPoint<I>])>
    requires { All (IsSafe I.unit) points.now }
    ensures sections { MatchOption result (AllEqual (first ∷ points.now))
        (λ r. (same_point first r.0 ≡ false) × (AllEqual (first ∷ points.now) → ⊥)
        × (cleaned_sections (first ∷ points.now) ≡ cleaned_sections (first ∷ r.0 ∷ r.1.now))) }
    ensures safe { IfSome result (λ r. All (IsSafe I.unit) (r.0 ∷ r.1.now)) }
{
    let mut rest = points;
    while let Some((next, others)) = rest.split_first() {
        if !is_one_point(first, *next) {
            return Some((*next, others));
        }
        rest = others;
    }
    None
}

/// Whether the way from `p0` by `p1` to `p2` turns or turns back at `p1`.
fn turns_at<I: IntNumber>(p0: IntPoint<I>, p1: IntPoint<I>, p2: IntPoint<I>) -> bool
    requires first { IsSafe I.unit p0 }
    requires middle { IsSafe I.unit p1 }
    requires last { IsSafe I.unit p2 }
    ensures { result ≡ turns_at p0 p1 p2 }
{
    let back = p1 - p0;
    let on = p1 - p2;
    let zero = I::ZERO.to_wide();
    let cross = back.cross_product(&on);
    is_wide_less::<I>(cross, zero)
        || is_wide_less::<I>(zero, cross)
        || is_wide_less::<I>(zero, back.dot_product(&on))
}
