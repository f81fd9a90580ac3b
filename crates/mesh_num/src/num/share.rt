//! Directions of vectors and their multiples, in 128 bits and apart from any coordinate type.

ghost use Rattle.std.specs.Prelude.{◌≡◌, ℕ, ◌+◌, ◌-◌, ◌*◌, ◌^◌, ◌<◌, ◌≤◌, unsigned_abs, MatchOption, IfSome};
ghost use Rattle.mesh_plane.specs.Plane.{length_sq};
ghost use Rattle.mesh_plane.specs.Rounding.{rounded};
ghost use Rattle.mesh_num.specs.Direction.{IsShare, IsPart, IsDirection, IsShort, scaled};

use crate::num::exact::square_sum;
use crate::num::root::fine_length;

// The greatest number whose share of `unit` is at most that of `size` in a vector with this squared length. `root` is
// the length in 2^32nds of a grid unit, cut.
fn part_size(unit: u128, square: u128, root: u128, size: u128) -> u128
    requires unit { unit ≤ 2 ^ 30 }
    requires square { square < 2 ^ 63 }
    requires length { 0 < square }
    requires root_within { root * root ≤ square * 2 ^ 64 }
    requires root_above { square * 2 ^ 64 < (root + 1) * (root + 1) }
    requires size { size * size ≤ square }
    ensures within { IsShare unit square size result }
    ensures greatest { (j : ℕ) → IsShare unit square size j → j ≤ result }
    ensures bounded { result ≤ unit }
{
    let quotient = near_part(unit, square, root, size);
    if quotient * quotient * square > unit * unit * (size * size) {
        quotient - 1
    } else {
        quotient
    }
}

// A part that is never too small, and too great by at most one: the quotient by the leading 33 digits of the root, so
// that 64 bits hold it.
fn near_part(unit: u128, square: u128, root: u128, size: u128) -> u128
    requires unit { unit ≤ 2 ^ 30 }
    requires square { square < 2 ^ 63 }
    requires length { 0 < square }
    requires root_within { root * root ≤ square * 2 ^ 64 }
    requires root_above { square * 2 ^ 64 < (root + 1) * (root + 1) }
    requires size { size * size ≤ square }
    ensures enough { (j : ℕ) → IsShare unit square size j → j ≤ result }
    ensures near { IsShare unit square size (result - 1) }
    ensures bounded { result ≤ unit + 1 }
{
    let long = root as u64;
    let empty = long.leading_zeros();
    let leading = long >> (31 - empty);
    let product = (unit * size) as u64;
    ((product << (empty + 1)) / leading) as u128
}

/// The component in a direction of length `unit` of a vector's component `x`, where `square` is the vector's squared
/// length, and `root` its length in 2^32nds of a grid unit, cut.
pub(crate) fn part(unit: u128, square: u128, root: u128, x: i128) -> i128
    requires unit { unit ≤ 2 ^ 30 }
    requires square { square < 2 ^ 63 }
    requires length { 0 < square }
    requires root_within { root * root ≤ square * 2 ^ 64 }
    requires root_above { square * 2 ^ 64 < (root + 1) * (root + 1) }
    requires size { unsigned_abs x * unsigned_abs x ≤ square }
    ensures value { IsPart unit square x result }
    ensures bounded { unsigned_abs result ≤ unit }
{
    let size = part_size(unit, square, root, x.unsigned_abs()) as i128;
    if x < 0 { -size } else { size }
}

/// The direction of length at most `unit` of the vector with these components, each below `2^31` in size; `None` for
/// the vector 0.
pub(crate) fn direction(unit: u128, x: i128, y: i128) -> Option<(i128, i128)>
    requires unit { unit ≤ 2 ^ 30 }
    requires x_size { unsigned_abs x < 2 ^ 31 }
    requires y_size { unsigned_abs y < 2 ^ 31 }
    ensures value { MatchOption result (length_sq (x, y) ≡ 0) (λ n. IsDirection unit (x, y) n) }
    ensures short { IfSome result (λ n. IsShort unit n) }
{
    let square = square_sum(x, y);
    if square == 0 {
        return None;
    }
    let root = fine_length(square, x.unsigned_abs(), y.unsigned_abs());
    Some((part(unit, square, root, x), part(unit, square, root, y)))
}

/// `a / d` rounded to a whole number, halves away from 0.
pub(crate) fn rounded_quotient(a: i128, d: u128) -> i128
    requires divisor { 0 < d }
    requires divisor_size { d < 2 ^ 120 }
    requires size { unsigned_abs a ≤ 2 ^ 126 }
    ensures { result ≡ rounded a d }
{
    let size = ((2 * a.unsigned_abs() + d) / (2 * d)) as i128;
    if a < 0 { -size } else { size }
}

/// A component of a direction of length `unit` times a radius.
pub(crate) fn scaled_part(unit: u128, part: i128, radius: i128) -> i128
    requires unit { 0 < unit }
    requires unit_size { unit ≤ 2 ^ 30 }
    requires part { unsigned_abs part ≤ unit }
    requires radius { unsigned_abs radius ≤ 2 ^ 31 }
    ensures value { result ≡ scaled unit radius part }
    ensures bounded { unsigned_abs result ≤ unsigned_abs radius }
{
    rounded_quotient(part * radius, unit)
}
