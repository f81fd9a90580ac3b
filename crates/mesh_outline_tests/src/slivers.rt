//! Shapes without their slivers: of a worked outline, of contours that just are or just are not slivers, and of
//! shapes.

use i_overlay_mesh::outline::offset::IntOutlineOffset;
use i_overlay_mesh::{IntNumber, IntOutlineStyle, without_slivers};
use mesh_test_support::compared::{are_shapes, expect_equal, expect_that};
use mesh_test_support::lists::{path, shapes};
use mesh_test_support::outer;
use std::alloc::Global;
use std::fmt::Debug;
use std::test::Fail;

type Contour<I> = &'static [(I, I)];

type Shapes<I> = &'static [&'static [Contour<I>]];

/// Shapes, a width, and what is left without slivers of it.
type Case<I> = (Shapes<I>, u32, Shapes<I>);

/// Contours, and the least width that each is a sliver of.
const LEAST: [(Contour<i32>, u32); 14] = [
    (&[(7, 7), (7, 7), (7, 7)], 0),
    (&[(0, 0), (1000, 0), (400, 0)], 0),
    (&[(0, 0), (1000, 0), (500, 1)], 1),
    (&[(0, 0), (1000, 0), (500, -1)], 1),
    (&[(0, 0), (1000, 0), (500, 2)], 2),
    (&[(0, 0), (0, 1000), (-3, 500)], 3),
    (&[(0, 0), (-100, 100), (-50, 51)], 1),
    (&[(0, 0), (-100, 100), (-50, 52)], 2),
    // beside the slanted line by 1000 and by 1001 parts of a thousand
    (&[(0, 0), (1000, 1), (0, 1)], 1),
    (&[(0, 0), (1000, 1), (999, 2)], 2),
    // the first one of those that are as far
    (&[(0, 0), (5, -1), (10, 0), (10, 1)], 1),
    (&[(0, 0), (10, 1), (10, 0), (5, -1)], 2),
    (
        outer!(-2147483648, -2147483648, 2147483647, 2147483647),
        u32::MAX,
    ),
    (&[(2147483647, 0), (-2147483648, 0), (-2147483648, 2)], 2),
];

const SQUARE: Contour<i32> = outer!(0, 0, 4000, 4000);

const THIN: Contour<i32> = &[(100, 100), (900, 100), (500, 101)];

const LINE: Contour<i32> = &[(0, 0), (4000, 0), (2000, 1)];

const HOLE: Contour<i32> = &[(200, 2000), (200, 2200), (400, 2200)];

const WIDE: [Case<i32>; 9] = [
    (&[], 1, &[]),
    (&[&[]], 0, &[]),
    (&[&[&[]], &[SQUARE, &[], HOLE]], 0, &[&[SQUARE, HOLE]]),
    (&[&[SQUARE, THIN, HOLE, THIN]], 1, &[&[SQUARE, HOLE]]),
    (&[&[SQUARE, THIN, HOLE]], 0, &[&[SQUARE, THIN, HOLE]]),
    (&[&[LINE], &[SQUARE], &[LINE, THIN]], 1, &[&[SQUARE]]),
    (&[&[LINE, THIN, HOLE]], 1, &[&[LINE, HOLE]]),
    (&[&[LINE, HOLE], &[LINE]], 1, &[&[LINE, HOLE]]),
    (&[&[SQUARE, HOLE], &[LINE]], 4000, &[]),
];

const NARROW: [Case<i16>; 4] = [
    (&[&[outer!(-32768, -32768, 32767, 32767)]], 65_535, &[]),
    (
        &[&[outer!(-32768, -32768, 32767, 32767)]],
        65_534,
        &[&[outer!(-32768, -32768, 32767, 32767)]],
    ),
    (
        &[&[outer!(0, 0, 90, 90), &[(1, 1), (50, 2), (50, 1)]]],
        1,
        &[&[outer!(0, 0, 90, 90)]],
    ),
    (&[&[&[(0, 0), (90, 0), (80, 1)]]], u32::MAX, &[]),
];

fn expect_left<I: IntNumber + Debug>(alloc: Global, case: &Case<I>) -> Result<(), Fail> {
    let (given, width, wanted) = *case;
    let left = without_slivers(shapes(alloc, given)?, width);
    expect_that(are_shapes(&left, wanted), case)
}

#[test]
fn least_widths(rt: HostRuntime) -> Result<(), Fail> {
    let alloc = rt.alloc();
    for (contour, least) in &LEAST {
        let left = without_slivers(shapes(alloc, &[&[*contour]])?, *least);
        expect_that(left.is_empty(), contour)?;
        if let Some(less) = least.checked_sub(1) {
            let left = without_slivers(shapes(alloc, &[&[*contour]])?, less);
            expect_that(are_shapes(&left, &[&[*contour]]), contour)?;
        }
    }
    Ok(())
}

#[test]
fn holes_and_outer_contours(rt: HostRuntime) -> Result<(), Fail> {
    for case in &WIDE {
        expect_left(rt.alloc(), case)?;
    }
    for case in &NARROW {
        expect_left(rt.alloc(), case)?;
    }
    Ok(())
}

const CROSSED: Contour<i32> = &[
    (-253_668, 994_080),
    (-537_283, 2_004_779),
    (-537_751, 2_004_563),
    (-538_416, 2_004_132),
    (-561_008, 2_047_212),
    (-561_818, 2_047_551),
    (-562_788, 2_047_957),
];

/// Outlines of the crossed contour fill no hole. Rounding may leave some, and these are slivers of a unit.
#[test]
fn holes_of_rounding(rt: HostRuntime) -> Result<(), Fail> {
    let alloc = rt.alloc();
    let contour = path(alloc, CROSSED)?;
    for offset in 49_980..50_020 {
        let style = IntOutlineStyle::new(offset);
        contour.validate_outline(&style)?;
        let given = contour.outline(alloc, &style)?;
        let mut wanted = contour.outline(alloc, &style)?;
        expect_that(!wanted.is_empty(), &offset)?;
        for shape in &mut wanted {
            shape.truncate(1);
        }
        let left = without_slivers(given, 1);
        expect_equal(&left, &wanted, &offset)?;
    }
    Ok(())
}
