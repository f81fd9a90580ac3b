//! Directions of vectors and their multiples, from outside the program.

ghost use Rattle.std.specs.Prelude.{◌^◌, IfSome};
ghost use Rattle.mesh_num.specs.Direction.{IsFresh};

use mesh_num::num::{IntNumber, IntVector, UnitIntVector};
use mesh_test_support::compared::expect_equal;
use mesh_test_support::directions::direction;
use mesh_test_support::edges::wide;
use mesh_test_support::plain::Point;
use mesh_test_support::random::Random;
use std::process::Abort;
use std::test::Fail;

/// The direction of a vector with components of at most 32,767 in size, none where both are 0.
pub fn direction_of_i16(rt: &impl Abort, x: i32, y: i32) -> Option<UnitIntVector<i16>>
    ensures { IfSome result (IsFresh (2 ^ 14)) }
{
    assert!(rt; -32768 < x && x < 32768);
    assert!(rt; -32768 < y && y < 32768);
    IntVector::<i16>::new(x, y).fast_normalize()
}

/// The direction of a vector with components of at most 2,147,483,647 in size, none where both are 0.
pub fn direction_of_i32(rt: &impl Abort, x: i64, y: i64) -> Option<UnitIntVector<i32>>
    ensures { IfSome result (IsFresh (2 ^ 30)) }
{
    assert!(rt; -2147483648 < x && x < 2147483648);
    assert!(rt; -2147483648 < y && y < 2147483648);
    IntVector::<i32>::new(x, y).fast_normalize()
}

// Vectors and their directions, each component the integer square root of `UNIT * UNIT * component * component /
// length²`, computed apart from this program with Python's whole numbers; half of the rows are ends and edges, half
// random.
const DIRECTIONS_OF_I16: &[(i32, i32, i16, i16)] = &[
    (1, 0, 16384, 0),
    (0, 1, 0, 16384),
    (-1, 0, -16384, 0),
    (0, -1, 0, -16384),
    (1, 1, 11585, 11585),
    (-1, 1, -11585, 11585),
    (1, -1, 11585, -11585),
    (3, 4, 9830, 13107),
    (-4, 3, -13107, 9830),
    (5, -12, 6301, -15123),
    (2, 1, 14654, 7327),
    (1, 2, 7327, 14654),
    (7, -1, 16219, -2317),
    (97, 168, 8192, 14188),
    (-97, -168, -8192, -14188),
    (30000, 1, 16383, 0),
    (-30000, -1, -16383, 0),
    (1, 30000, 0, 16383),
    (32767, 32767, 11585, 11585),
    (-32767, 32767, -11585, 11585),
    (32767, 0, 16384, 0),
    (0, -32767, 0, -16384),
    (32767, 1, 16383, 0),
    (32767, 32766, 11585, 11585),
    (-16384, 16383, -11585, 11584),
    (181, -182, 11553, -11617),
    (7068, 20903, 5248, 15520),
    (17755, -10644, 14052, -8424),
    (-15804, 20237, -10084, 12912),
    (-22948, -8809, -15295, -5871),
];

const DIRECTIONS_OF_I32: &[(i64, i64, i32, i32)] = &[
    (1, 0, 1073741824, 0),
    (0, -1, 0, -1073741824),
    (-1, 0, -1073741824, 0),
    (0, 1, 0, 1073741824),
    (1, 1, 759250124, 759250124),
    (-1, -1, -759250124, -759250124),
    (3, 4, 644245094, 858993459),
    (-3, 4, -644245094, 858993459),
    (8, -15, 505290270, -947419256),
    (2, -1, 960383883, -480191941),
    (1000, 575, 930833555, 535229294),
    (-1000, 580, -928820166, 538715696),
    (2147483646, 2147483646, 759250124, 759250124),
    (2147483647, 2147483647, 759250124, 759250124),
    (-2147483647, 2147483647, -759250124, 759250124),
    (2147483647, 0, 1073741824, 0),
    (0, -2147483647, 0, -1073741824),
    (2147483647, 1, 1073741823, 0),
    (-1, -2147483647, 0, -1073741823),
    (2147483647, 2147483646, 759250125, 759250124),
    (1073741824, 1073741823, 759250125, 759250124),
    (-46341, 46340, -759258317, 759241932),
    (97, 168, 536892310, 929875341),
    (937348109, 1104641280, 694719805, 818709897),
    (1567679310, -563475921, 1010452578, -363190158),
    (-710144306, -2073865928, -347848090, -1015836212),
    (-1152762141, 863314854, -859442996, 643645274),
    (764500535, -840674526, 722406744, -794386556),
    (1723480792, 404995762, 1045270228, 245625025),
    (-1613776511, 1565436862, -770705369, 747619380),
];

#[test]
fn directions_of_i16(rt: HostRuntime) -> Result<(), Fail> {
    for row in DIRECTIONS_OF_I16 {
        let (x, y, want_x, want_y) = *row;
        let Some(direction) = direction_of_i16(&rt, x, y) else {
            return Err(Fail::new("no direction"));
        };
        let found = (direction.x(), direction.y(), direction.is_fresh());
        expect_equal(&found, &(want_x, want_y, true), row)?;
    }
    assert!(rt; direction_of_i16(&rt, 0, 0).is_none());
    expect_equal(&UnitIntVector::<i16>::DENOMINATOR, &16384, &"the unit")
}

#[test]
fn directions_of_i32(rt: HostRuntime) -> Result<(), Fail> {
    for row in DIRECTIONS_OF_I32 {
        let (x, y, want_x, want_y) = *row;
        let Some(direction) = direction_of_i32(&rt, x, y) else {
            return Err(Fail::new("no direction"));
        };
        let found = (direction.x(), direction.y(), direction.is_fresh());
        expect_equal(&found, &(want_x, want_y, true), row)?;
    }
    assert!(rt; direction_of_i32(&rt, 0, 0).is_none());
    expect_equal(&UnitIntVector::<i32>::DENOMINATOR, &1073741824, &"the unit")
}

#[test]
fn directions_the_other_way(rt: HostRuntime) -> Result<(), Fail> {
    for row in DIRECTIONS_OF_I16 {
        let (x, y, _, _) = *row;
        let there = direction_of_i16(&rt, x, y).ok_or("no direction")?;
        let back = direction_of_i16(&rt, x.wrapping_neg(), y.wrapping_neg()).ok_or("no direction")?;
        let turned = there.opposite();
        expect_equal(&(turned.x(), turned.y()), &(back.x(), back.y()), row)?;
    }
    Ok(())
}

/// The direction that was found of a vector is the one that its definition has.
fn expect_searched<I: IntNumber>(
    found: Option<UnitIntVector<I>>,
    unit: i128,
    vector: Point,
) -> Result<(), Fail> {
    let Some(found) = found else {
        return Err(Fail::new("no direction"));
    };
    let found = (wide(found.x()), wide(found.y()));
    expect_equal(&found, &direction(unit, vector), &vector)
}

/// Compares a direction for `i16` with the search.
fn compare_with_search_i16(rt: &impl Abort, x: i32, y: i32) -> Result<(), Fail> {
    let vector = (i128::from(x), i128::from(y));
    expect_searched(direction_of_i16(rt, x, y), 16384, vector)
}

/// Compares a direction for `i32` with the search.
fn compare_with_search_i32(rt: &impl Abort, x: i64, y: i64) -> Result<(), Fail> {
    let vector = (i128::from(x), i128::from(y));
    expect_searched(direction_of_i32(rt, x, y), 1073741824, vector)
}

#[test]
fn directions_by_one_root_are_those_of_the_search(rt: HostRuntime) -> Result<(), Fail> {
    for x in -200..=200i32 {
        for y in -200..=200i32 {
            if x != 0 || y != 0 {
                compare_with_search_i16(&rt, x, y)?;
            }
        }
    }
    compare_with_search_i16(&rt, 1, 30000)?;
    compare_with_search_i16(&rt, 32767, 32766)?;
    compare_with_search_i16(&rt, 32767, 1)
}

// Vectors for `i32` that look random, of each length from one bit to 31.
#[test]
fn directions_for_i32_are_those_of_the_search(rt: HostRuntime) -> Result<(), Fail> {
    let mut random = Random::new(1);
    for round in 0..20_000u32 {
        let x = random.below(2_147_483_648) >> (round % 31);
        let y = random.below(2_147_483_648) >> (round / 31 % 31);
        if x != 0 || y != 0 {
            compare_with_search_i32(&rt, i64::from(x), i64::from(y).wrapping_neg())?;
        }
    }
    Ok(())
}

/// Vectors, radii, and the directions times these. The first component of the vector (97, 168) has a direction of one
/// half: its odd multiples are rounded away from 0.
const SCALED_OF_I16: &[(i32, i32, i16, i32, i32)] = &[
    (97, 168, 1, 1, 1),
    (97, 168, -1, -1, -1),
    (97, 168, 3, 2, 3),
    (97, 168, -3, -2, -3),
    (1, 2, 1, 0, 1),
    (1, 2, -1, 0, -1),
    (-97, -168, 1, -1, -1),
    (-97, -168, 3, -2, -3),
    (1, 0, -32768, -32768, 0),
    (-1, 1, 32767, -23169, 23169),
    (3, 4, -100, -60, -80),
    (3, 4, 0, 0, 0),
];

const SCALED_OF_I32: &[(i64, i64, i32, i64, i64)] = &[
    (1, 1, 1024, 724, 724),
    (3, 4, -5, -3, -4),
    (0, -1, -2147483648, 0, 2147483648),
];

#[test]
fn scaled_directions_of_i16(rt: HostRuntime) -> Result<(), Fail> {
    for row in SCALED_OF_I16 {
        let (x, y, radius, want_x, want_y) = *row;
        let Some(direction) = direction_of_i16(&rt, x, y) else {
            return Err(Fail::new("no direction"));
        };
        let vector = direction.clone()?.scale(radius);
        expect_equal(&(vector.x, vector.y), &(want_x, want_y), row)?;
    }
    Ok(())
}

#[test]
fn scaled_directions_of_i32(rt: HostRuntime) -> Result<(), Fail> {
    for row in SCALED_OF_I32 {
        let (x, y, radius, want_x, want_y) = *row;
        let Some(direction) = direction_of_i32(&rt, x, y) else {
            return Err(Fail::new("no direction"));
        };
        let vector = direction.scale(radius);
        expect_equal(&(vector.x, vector.y), &(want_x, want_y), row)?;
    }
    Ok(())
}
