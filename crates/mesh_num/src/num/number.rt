//! The coordinate types `i16` and `i32`, and the wider types that hold their products.

ghost use Rattle.std.specs.Prelude.{◌≡◌, ℕ, ◌+◌, ◌-◌, ◌*◌, ◌^◌, ◌<◌, ◌≤◌, ℤ, pos, ◌+ℤ◌, ◌-ℤ◌, ◌*ℤ◌, refl};
ghost use Rattle.std.specs.Ordering.{int_cmp};
ghost use Rattle.std.proofs.Common.{lit≤};
ghost use Rattle.mesh_plane.specs.Bounds.{IsWithin};
ghost use Rattle.mesh_num.specs.Widths.{IsUnit, small_unit, large_unit};

/// A signed type that holds sums and differences of two products of coordinate differences: `i32` for `i16`, `i64` for
/// `i32`. Contracts see a number as the whole number `value`.
pub trait WideNumber: Copy + Drop {
    ghost value: { Self → ℤ };

    ghost of_value: { ℤ → Self };

    ghost half: { ℕ };

    ghost value_back: { (a : Self) → of_value (value a) ≡ a };

    /// The same number in 128 bits.
    fn to_i128(self) -> i128
        ensures value { result ≡ value self }
        ensures range { IsWithin half (value self) };

    /// The same number in this type, which it has to fit.
    fn from_i128(number: i128) -> Self
        requires { IsWithin half number }
        ensures { value result ≡ number };

    ghost most_law: { half ≤ 2 ^ 63 };

    /// The sum, which this type has to hold.
    final fn plus(self, other: Self) -> Self
        requires { IsWithin half (value self +ℤ value other) }
        ensures { value result ≡ (value self +ℤ value other) }
    {
        Self::from_i128(self.to_i128() + other.to_i128())
    }

    /// The difference, which this type has to hold.
    final fn minus(self, other: Self) -> Self
        requires { IsWithin half (value self -ℤ value other) }
        ensures { value result ≡ (value self -ℤ value other) }
    {
        Self::from_i128(self.to_i128() - other.to_i128())
    }

    /// The product, which this type has to hold.
    final fn times(self, other: Self) -> Self
        requires { IsWithin half (value self *ℤ value other) }
        ensures { value result ≡ (value self *ℤ value other) }
    {
        Self::from_i128(self.to_i128() * other.to_i128())
    }
}

/// An unsigned type that holds the sum of two squares of coordinate differences: `u32` for `i16`, `u64` for `i32`.
pub trait WideUnsigned: Copy + Drop {
    ghost value: { Self → ℕ };

    ghost limit: { ℕ };

    /// The same number in 128 bits.
    fn to_u128(self) -> u128
        ensures value { result ≡ value self }
        ensures range { value self < limit };

    /// The same number in this type, which it has to fit.
    fn from_u128(number: u128) -> Self
        requires { number < limit }
        ensures { value result ≡ number };

    ghost limit_law: { limit ≤ 2 ^ 64 };

    ghost zero_law: { 0 < limit };
}

/// A signed coordinate type, in grid units. `UNIT` is the length of a direction and the bound of the safe range: a
/// coordinate `c` is safe where `-UNIT < c < UNIT`. It is 2^14 for `i16` and 2^30 for `i32`.
pub trait IntNumber: Copy + Drop + Ord {
    /// Holds two products of coordinate differences, added or subtracted.
    type Wide: WideNumber;
    /// Holds the squared length of a difference of two points.
    type WideUInt: WideUnsigned;

    ghost value: { Self → ℤ };

    ghost of_value: { ℤ → Self };

    ghost value_back: { (a : Self) → of_value (value a) ≡ a };

    ghost unit: { ℕ };

    ghost BITS: { ℕ };

    ghost ZERO: { Self };

    ghost ONE: { Self };

    ghost UNIT: { Self };

    /// The number of bits of this type.
    const BITS: u32;

    /// 0.
    const ZERO: Self;

    /// 1.
    const ONE: Self;

    /// 2 to the power of `BITS - 2`.
    const UNIT: Self;

    /// The same number in the wide type.
    fn to_wide(self) -> Self::Wide
        ensures value { Self.Wide.value result ≡ value self }
        ensures range { IsWithin (2 * unit) (value self) };

    /// The same number in this type, which it has to fit.
    fn from_wide(wide: Self::Wide) -> Self
        requires { IsWithin (2 * unit) (Self.Wide.value wide) }
        ensures { value result ≡ Self.Wide.value wide };

    ghost value_unit: { value UNIT ≡ pos unit };

    ghost value_zero: { value ZERO ≡ pos 0 };

    ghost value_one: { value ONE ≡ pos 1 };

    ghost unit_law: { unit ≡ 2 ^ (BITS - 2) };

    ghost half_law: { Self.Wide.half ≡ 8 * unit * unit };

    ghost limit_law: { Self.WideUInt.limit ≡ 16 * unit * unit };

    ghost most_law: { unit ≤ 2 ^ 30 };

    ghost least_law: { 2 ^ 14 ≤ unit };

    ghost either_law: { IsUnit unit };

    ghost cmp_law: { (a b : Self) → Self.cmp a b ≡ int_cmp (value a) (value b) };

    /// A wide number in 128 bits.
    final fn wide_to_i128(wide: Self::Wide) -> i128
        ensures value { result ≡ Self.Wide.value wide }
        ensures range { IsWithin Self.Wide.half (Self.Wide.value wide) }
    {
        wide.to_i128()
    }

    /// A number of 128 bits in the wide type, which it has to fit.
    final fn wide_from_i128(number: i128) -> Self::Wide
        requires { IsWithin Self.Wide.half number }
        ensures { Self.Wide.value result ≡ number }
    {
        Self::Wide::from_i128(number)
    }

    /// A wide number without sign in 128 bits.
    final fn uint_to_u128(number: Self::WideUInt) -> u128
        ensures value { result ≡ Self.WideUInt.value number }
        ensures range { Self.WideUInt.value number < Self.WideUInt.limit }
    {
        number.to_u128()
    }
}

/// A coordinate type that the overlay engine runs on.
pub trait OverlayInt: IntNumber {}

impl OverlayInt for i16 {}

impl OverlayInt for i32 {}

impl WideNumber for i32 {
    ghost value = { λ x. x };

    ghost of_value = { λ x. x };

    ghost half = { 2 ^ 31 };

    ghost value_back = { λ a. refl };

    fn to_i128(self) -> i128 {
        self as i128
    }

    fn from_i128(number: i128) -> Self {
        number as i32
    }

    ghost most_law = { lit≤ tt };
}

impl WideNumber for i64 {
    ghost value = { λ x. x };

    ghost of_value = { λ x. x };

    ghost half = { 2 ^ 63 };

    ghost value_back = { λ a. refl };

    fn to_i128(self) -> i128 {
        self as i128
    }

    fn from_i128(number: i128) -> Self {
        number as i64
    }

    ghost most_law = { lit≤ tt };
}

impl WideUnsigned for u32 {
    ghost value = { λ x. x };

    ghost limit = { 2 ^ 32 };

    fn to_u128(self) -> u128 {
        self as u128
    }

    fn from_u128(number: u128) -> Self {
        number as u32
    }

    ghost limit_law = { lit≤ tt };

    ghost zero_law = { lit≤ tt };
}

impl WideUnsigned for u64 {
    ghost value = { λ x. x };

    ghost limit = { 2 ^ 64 };

    fn to_u128(self) -> u128 {
        self as u128
    }

    fn from_u128(number: u128) -> Self {
        number as u64
    }

    ghost limit_law = { lit≤ tt };

    ghost zero_law = { lit≤ tt };
}

impl IntNumber for i16 {
    type Wide = i32;

    type WideUInt = u32;

    ghost value = { λ x. x };

    ghost of_value = { λ x. x };

    ghost value_back = { λ a. refl };

    ghost unit = { 2 ^ 14 };

    ghost BITS = { 16 };

    ghost ZERO = { pos 0 };

    ghost ONE = { pos 1 };

    ghost UNIT = { pos (2 ^ 14) };

    const BITS: u32 = 16;

    const ZERO: Self = 0;

    const ONE: Self = 1;

    const UNIT: Self = 1 << 14;

    fn to_wide(self) -> i32 {
        self as i32
    }

    fn from_wide(wide: i32) -> Self {
        wide as i16
    }

    ghost value_unit = { refl };

    ghost value_zero = { refl };

    ghost value_one = { refl };

    ghost unit_law = { refl };

    ghost half_law = { refl };

    ghost limit_law = { refl };

    ghost most_law = { lit≤ tt };

    ghost least_law = { lit≤ tt };

    ghost either_law = { small_unit };

    ghost cmp_law = { λ a b. refl };
}

impl IntNumber for i32 {
    type Wide = i64;

    type WideUInt = u64;

    ghost value = { λ x. x };

    ghost of_value = { λ x. x };

    ghost value_back = { λ a. refl };

    ghost unit = { 2 ^ 30 };

    ghost BITS = { 32 };

    ghost ZERO = { pos 0 };

    ghost ONE = { pos 1 };

    ghost UNIT = { pos (2 ^ 30) };

    const BITS: u32 = 32;

    const ZERO: Self = 0;

    const ONE: Self = 1;

    const UNIT: Self = 1 << 30;

    fn to_wide(self) -> i64 {
        self as i64
    }

    fn from_wide(wide: i64) -> Self {
        wide as i32
    }

    ghost value_unit = { refl };

    ghost value_zero = { refl };

    ghost value_one = { refl };

    ghost unit_law = { refl };

    ghost half_law = { refl };

    ghost limit_law = { refl };

    ghost most_law = { lit≤ tt };

    ghost least_law = { lit≤ tt };

    ghost either_law = { large_unit };

    ghost cmp_law = { λ a b. refl };
}
