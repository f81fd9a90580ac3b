//! Bounds of points.

ghost use Rattle.std.specs.Prelude.{◌≡◌, ◌↔◌, ℤ, List, [], map, IsTrue, MatchOption};
ghost use Rattle.std.specs.Iterator.{Drains, IsFinite};
ghost use Rattle.mesh_plane.specs.Bounds.{IsSmall};
ghost use Rattle.mesh_num.specs.Private.BoundsSoFar.{extended, grown};
ghost use Rattle.mesh_num.specs.Rectangle.{IsBounds, IsSafeRectangle};

use crate::num::convert::{greater, lesser, unit, widen};
use crate::num::number::IntNumber;
use crate::num::point::IntPoint;
use std::alloc::AllocError;
use std::marker::Model;

/// A closed rectangle with sides along the axes, in grid units. Contracts see its corner of least and its corner of
/// greatest coordinates.
#[derive(Debug, Copy)]
pub struct IntRect<I: IntNumber> {
    /// The least x.
    pub min_x: I,
    /// The greatest x.
    pub max_x: I,
    /// The least y.
    pub min_y: I,
    /// The greatest y.
    pub max_y: I,
}

impl<I: IntNumber> Model for IntRect<I> {
    ghost use Rattle.std.specs.Prelude.{ℤ};

    ghost Value = { (ℤ × ℤ) × (ℤ × ℤ) };

    ghost view = { λ r. ((I.value r.min_x, I.value r.min_y), (I.value r.max_x, I.value r.max_y)) };

    ghost inverse = { λ v. record {
      min_x = I.of_value v.0.0;
      max_x = I.of_value v.1.0;
      min_y = I.of_value v.0.1;
      max_y = I.of_value v.1.1;
    } };

    ghost inverse_ok = { λ a h. λ i. record {
      min_x = I.value_back a.min_x i;
      max_x = I.value_back a.max_x i;
      min_y = I.value_back a.min_y i;
      max_y = I.value_back a.max_y i;
    } };
}

impl<I: IntNumber> Clone for IntRect<I> {
    ghost is_clone = { λ first second. second ≡ first };

    ghost is_infallible = { λ _. Unit {0} };

    fn clone(&self) -> Result<Self, AllocError> {
        Ok(*self)
    }
}

impl<I: IntNumber> IntRect<I> {
    /// The bounds of the points, or `None` if there are none.
    pub fn with_iter<'a, P: Iterator<Item = &'a IntPoint<I>> + Drop>(points: P) -> Option<Self>
    where
        I: 'a,
        requires can { P.can_next points }
        requires ends { IsFinite (P.remaining points) }
        ensures { (seen : List _) × Drains P.next_gives points seen
            × MatchOption result (seen ≡ []) (λ r. IsBounds r (map (λ p. p.now) seen)) }
    {
        let mut bounds: Option<IntRect<I>> = None;
        for point in points {
            bounds = Some(Self::grown(bounds, *point));
        }
        bounds
    }

    fn grown(bounds: Option<Self>, point: IntPoint<I>) -> Self
        ensures { result ≡ grown bounds point }
    {
        match bounds {
            None => IntRect {
                min_x: point.x,
                max_x: point.x,
                min_y: point.y,
                max_y: point.y,
            },
            Some(rect) => rect.with_point(point),
        }
    }

    fn with_point(self, point: IntPoint<I>) -> Self
        ensures { result ≡ extended self point }
    {
        IntRect {
            min_x: lesser(self.min_x, point.x),
            max_x: greater(self.max_x, point.x),
            min_y: lesser(self.min_y, point.y),
            max_y: greater(self.max_y, point.y),
        }
    }

    /// Whether the rectangle lies in the safe range: all four coordinates are below `UNIT` in size.
    pub fn is_in_safe_range(&self) -> bool
        ensures { IsTrue result ↔ IsSafeRectangle I.unit self.now }
    {
        is_safe(self.min_x) && is_safe(self.max_x) && is_safe(self.min_y) && is_safe(self.max_y)
    }
}

/// Whether a coordinate is below `UNIT` in size.
fn is_safe<I: IntNumber>(number: I) -> bool
    ensures { IsTrue result ↔ IsSmall I.unit (I.value number) }
{
    let size = widen(number).unsigned_abs();
    size < unit::<I>()
}
