//! Directions, plainly.

use crate::plain::{Point, dot};

/// The component in the direction of a vector that belongs to its component `x`.
fn component(unit: i128, x: i128, square: i128) -> i128 {
    let whole = unit.wrapping_mul(x);
    let goal = whole.wrapping_mul(whole);
    let mut size = 0i128;
    for shift in (0..31u32).rev() {
        let more = size.wrapping_add(1i128.wrapping_shl(shift));
        if more.wrapping_mul(more).wrapping_mul(square) <= goal {
            size = more;
        }
    }
    size.wrapping_mul(x.signum())
}

/// The direction of a vector.
pub fn direction(unit: i128, v: Point) -> Point {
    let square = dot(v, v);
    (component(unit, v.0, square), component(unit, v.1, square))
}
