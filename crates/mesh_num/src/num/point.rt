//! Points of the grid and vectors between them.

ghost use Rattle.std.specs.Prelude.{◌≡◌, ◌+◌, ◌*◌, ℤ};
ghost use Rattle.mesh_plane.specs.Plane.{plus, minus, cross, dot, length_sq, right_quarter};
ghost use Rattle.mesh_plane.specs.Bounds.{IsSafe};
ghost use Rattle.mesh_plane.specs.Winding.{same_point};

use crate::num::exact::square_sum;
use crate::num::number::{IntNumber, WideNumber, WideUnsigned};
use std::alloc::AllocError;
use std::marker::Model;
use std::ops::Sub;

/// A grid point. Contracts see the pair of its coordinates. Points are ordered by `x`, then by `y`.
#[derive(Debug, Copy, PartialEq, Eq, PartialOrd, Ord, Hash)]
pub struct IntPoint<I: IntNumber> {
    /// To the east, in grid units.
    pub x: I,
    /// To the north, in grid units.
    pub y: I,
}

impl<I: IntNumber> Model for IntPoint<I> {
    ghost use Rattle.std.specs.Prelude.{ℤ};

    ghost Value = { ℤ × ℤ };

    ghost view = { λ p. (I.value p.x, I.value p.y) };

    ghost inverse = { λ v. record { x = I.of_value v.0; y = I.of_value v.1 } };

    ghost inverse_ok = { λ a h. λ i. record { x = I.value_back a.x i; y = I.value_back a.y i } };
}

impl<I: IntNumber> Clone for IntPoint<I> {
    ghost is_clone = { λ first second. second ≡ first };

    ghost is_infallible = { λ _. Unit {0} };

    fn clone(&self) -> Result<Self, AllocError> {
        Ok(*self)
    }
}

impl<I: IntNumber> IntPoint<I> {
    /// The point with these coordinates.
    pub fn new(x: I, y: I) -> Self
        ensures { result ≡ (I.value x, I.value y) }
    {
        IntPoint { x, y }
    }

    /// The point moved by a vector. Both coordinates of the result have to be below `UNIT` in size.
    pub fn moved(self, vector: &IntVector<I>) -> Self
        requires { IsSafe I.unit (plus self vector.now) }
        ensures { result ≡ plus self vector.now }
    {
        let x = self.x.to_wide().plus(vector.x);
        let y = self.y.to_wide().plus(vector.y);
        IntPoint::new(I::from_wide(x), I::from_wide(y))
    }

    /// The point moved by the vector turned a quarter to the right. Both coordinates of the result have to be below
    /// `UNIT` in size.
    pub fn moved_right(self, vector: &IntVector<I>) -> Self
        requires { IsSafe I.unit (plus self (right_quarter vector.now)) }
        ensures { result ≡ plus self (right_quarter vector.now) }
    {
        let x = self.x.to_wide().plus(vector.y);
        let y = self.y.to_wide().minus(vector.x);
        IntPoint::new(I::from_wide(x), I::from_wide(y))
    }
}

/// Whether two points are one.
pub fn is_one_point<I: IntNumber>(p: IntPoint<I>, q: IntPoint<I>) -> bool
    ensures { result ≡ same_point p q }
{
    p == q
}

/// The vector from the second point to the first.
impl<I: IntNumber> Sub<IntPoint<I>> for IntPoint<I> {
    type Output = IntVector<I>;

    ghost can_sub = { λ _ _. Unit {0} };

    ghost sub_gives = { λ p q v. v ≡ minus p q };

    fn sub(self, other: IntPoint<I>) -> IntVector<I> {
        IntVector {
            x: self.x.to_wide().minus(other.x.to_wide()),
            y: self.y.to_wide().minus(other.y.to_wide()),
        }
    }
}

/// A vector between points, with components of the wide type. Contracts see the pair of its components.
#[derive(Debug, Drop)]
pub struct IntVector<I: IntNumber> {
    /// To the east, in grid units.
    pub x: I::Wide,
    /// To the north, in grid units.
    pub y: I::Wide,
}

impl<I: IntNumber> Model for IntVector<I> {
    ghost use Rattle.std.specs.Prelude.{ℤ};

    ghost Value = { ℤ × ℤ };

    ghost view = { λ v. (I.Wide.value v.x, I.Wide.value v.y) };

    ghost inverse = { λ v. record { x = I.Wide.of_value v.0; y = I.Wide.of_value v.1 } };

    ghost inverse_ok = { λ a h. λ i. record { x = I.Wide.value_back a.x i; y = I.Wide.value_back a.y i } };
}

impl<I: IntNumber> Clone for IntVector<I> {
    ghost is_clone = { λ first second. second ≡ first };

    ghost is_infallible = { λ _. Unit {0} };

    fn clone(&self) -> Result<Self, AllocError> {
        Ok(IntVector {
            x: self.x,
            y: self.y,
        })
    }
}

impl<I: IntNumber> IntVector<I> {
    /// The vector with these components.
    pub fn new(x: I::Wide, y: I::Wide) -> Self
        ensures { result ≡ (I.Wide.value x, I.Wide.value y) }
    {
        IntVector { x, y }
    }

    /// The cross product `x * other.y - y * other.x`: above 0 where `other` points to the left of this vector.
    /// Components have to be below `2 * UNIT` in size.
    pub fn cross_product(&self, other: &Self) -> I::Wide
        requires own { IsSafe (2 * I.unit) self.now }
        requires other { IsSafe (2 * I.unit) other.now }
        ensures { I.Wide.value result ≡ cross self.now other.now }
    {
        self.x.times(other.y).minus(self.y.times(other.x))
    }

    /// The dot product `x * other.x + y * other.y`. Components have to be below `2 * UNIT` in size.
    pub fn dot_product(&self, other: &Self) -> I::Wide
        requires own { IsSafe (2 * I.unit) self.now }
        requires other { IsSafe (2 * I.unit) other.now }
        ensures { I.Wide.value result ≡ dot self.now other.now }
    {
        self.x.times(other.x).plus(self.y.times(other.y))
    }

    /// The square of the length. Components have to be below `2 * UNIT` in size.
    pub fn sqr_length(&self) -> I::WideUInt
        requires { IsSafe (2 * I.unit) self.now }
        ensures { I.WideUInt.value result ≡ length_sq self.now }
    {
        I::WideUInt::from_u128(square_sum(self.x.to_i128(), self.y.to_i128()))
    }
}
