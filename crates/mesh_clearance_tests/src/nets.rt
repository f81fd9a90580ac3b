//! Which nets are nearer to each other than a distance: worked, and at the greatest coordinates.

use mesh_nets::nets::{NetClearance, clearances};
use mesh_num::num::IntNumber;
use mesh_num::shape::IntShapes;
use mesh_test_support::compared::expect_equal;
use mesh_test_support::lists::shapes;
use std::alloc::{AllocError, Global};
use std::test::Fail;

/// The polygons of a net, each with its contours.
type Net<I> = &'static [&'static [&'static [(I, I)]]];

/// Nets, a distance, and the pairs that are nearer, each with its squared distance.
type Case<I> = (&'static [Net<I>], u32, &'static [(usize, usize, u128)]);

const SQUARE: Net<i32> = &[&[&[(0, 0), (10, 0), (10, 10), (0, 10)]]];

/// To the east of the square, 5 away.
const EAST: Net<i32> = &[&[&[(15, 0), (25, 0), (25, 10), (15, 10)]]];

/// To the north east of it, 3 and 4 away.
const CORNER: Net<i32> = &[&[&[(13, 14), (20, 14), (20, 20), (13, 20)]]];

/// In the midst of it.
const INNER: Net<i32> = &[&[&[(4, 4), (6, 4), (6, 6), (4, 6)]]];

/// Round it, 20 away.
const RING: Net<i32> = &[&[
    &[(-50, -50), (60, -50), (60, 60), (-50, 60)],
    &[(-20, -20), (-20, 30), (30, 30), (30, -20)],
]];

const LEAST: i32 = -2147483648;

const MOST: i32 = 2147483647;

const CASES: [Case<i32>; 17] = [
    // nothing, and one net alone
    (&[], 7, &[]),
    (&[SQUARE], 7, &[]),
    // side by side
    (&[SQUARE, EAST], 5, &[]),
    (&[SQUARE, EAST], 6, &[(0, 1, 25)]),
    (&[EAST, SQUARE], 6, &[(0, 1, 25)]),
    // from corner to corner
    (&[SQUARE, CORNER], 5, &[]),
    (&[SQUARE, CORNER], 6, &[(0, 1, 25)]),
    // a net within another one, and in its hole
    (&[SQUARE, INNER], 1, &[(0, 1, 0)]),
    (&[INNER, SQUARE], 1, &[(0, 1, 0)]),
    (&[RING, SQUARE], 20, &[]),
    (&[SQUARE, RING], 21, &[(0, 1, 400)]),
    // on top of each other, and with no distance to keep
    (&[SQUARE, SQUARE], 1, &[(0, 1, 0)]),
    (&[SQUARE, SQUARE, INNER], 0, &[]),
    // without points
    (&[&[], SQUARE, &[&[&[]]], EAST], 4294967295, &[(1, 3, 25)]),
    // many
    (
        &[EAST, INNER, SQUARE, RING, CORNER],
        6,
        &[(0, 2, 25), (0, 3, 25), (0, 4, 16), (1, 2, 0), (2, 4, 25)],
    ),
    // a contour of the second polygon is inside, of the first none is
    (
        &[
            SQUARE,
            &[
                &[&[(90, 0), (95, 0), (95, 5)]],
                &[&[(4, 4), (6, 4), (6, 6)]],
            ],
        ],
        1,
        &[(0, 1, 0)],
    ),
    // the greatest coordinates
    (
        &[
            &[&[&[(LEAST, LEAST), (LEAST, MOST), (-2147483647, 0)]]],
            &[&[&[(MOST, LEAST), (MOST, MOST), (2147483646, 0)]]],
            &[&[&[(0, MOST), (1, MOST), (1, 2147483646)]]],
        ],
        4294967295,
        &[
            (0, 1, 18446744047939747849),
            (0, 2, 4611686018427387902),
            (1, 2, 4611686009837453313),
        ],
    ),
];

const SMALL_CASES: [Case<i16>; 2] = [
    (
        &[
            &[&[&[(-32768, -32768), (-32768, 32767), (-32767, 0)]]],
            &[&[&[(32767, -32768), (32767, 32767), (32766, 0)]]],
        ],
        65533,
        &[],
    ),
    (
        &[
            &[&[&[(-32768, -32768), (-32768, 32767), (-32767, 0)]]],
            &[&[&[(32767, -32768), (32767, 32767), (32766, 0)]]],
        ],
        65534,
        &[(0, 1, 4294574089)],
    ),
];

fn nets_of<I: IntNumber>(
    alloc: Global,
    rows: &[&[&[&[(I, I)]]]],
) -> Result<Vec<IntShapes<I>>, AllocError> {
    let mut nets = Vec::new(alloc);
    for row in rows {
        nets.push(shapes(alloc, row)?)?;
    }
    Ok(nets)
}

fn expect_clearances<I: IntNumber>(
    alloc: Global,
    rows: &[&[&[&[(I, I)]]]],
    distance: u32,
    wanted: &[(usize, usize, u128)],
) -> Result<(), Fail> {
    let nets = nets_of(alloc, rows)?;
    let found = clearances(alloc, &nets, distance)?;
    let mut listed = Vec::new(alloc);
    for NetClearance {
        first,
        second,
        squared,
    } in &found {
        listed.push((*first, *second, *squared))?;
    }
    expect_equal(&listed.as_slice(), &wanted, &distance)
}

#[test]
fn nets(rt: HostRuntime) -> Result<(), Fail> {
    for (rows, distance, wanted) in &CASES {
        expect_clearances(rt.alloc(), rows, *distance, wanted)?;
    }
    Ok(())
}

#[test]
fn nets_of_small_coordinates(rt: HostRuntime) -> Result<(), Fail> {
    for (rows, distance, wanted) in &SMALL_CASES {
        expect_clearances(rt.alloc(), rows, *distance, wanted)?;
    }
    Ok(())
}
