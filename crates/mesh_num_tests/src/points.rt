//! Points, vectors and rectangles.

use crate::pairs::expect_pairs;
use mesh_num::num::{IntPoint, IntRect, IntVector};
use mesh_test_support::compared::{expect_equal, expect_that};
use mesh_test_support::lists::path;
use std::test::Fail;

#[test]
fn products_of_i16() -> Result<(), Fail> {
    let v = IntPoint::<i16>::new(32767, -1) - IntPoint::new(0, 1);
    let w = IntVector::<i16>::new(3, 5);
    expect_pairs(&[
        (i128::from(v.x), 32767),
        (i128::from(v.y), -2),
        (i128::from(v.cross_product(&w)), 163841),
        (i128::from(w.cross_product(&v)), -163841),
        (i128::from(v.dot_product(&w)), 98291),
        (i128::from(w.sqr_length()), 34),
    ])
}

#[test]
fn products_of_i32() -> Result<(), Fail> {
    let far = IntVector::<i32>::new(2147483647, -2147483647);
    let near = far.clone()?;
    let across = IntVector::<i32>::new(2147483647, 2147483647);
    expect_pairs(&[
        (i128::from(far.cross_product(&across)), 9223372028264841218),
        (i128::from(far.dot_product(&near)), 9223372028264841218),
        (i128::from(far.sqr_length()), 9223372028264841218),
    ])
}

const IN_ORDER: &[(i16, i16)] = &[(-1, 9), (0, -5), (0, 3), (2, 0)];

#[test]
fn points_are_ordered_by_x_then_y() -> Result<(), Fail> {
    let mut last = IntPoint::<i16>::new(-1, 8);
    for (x, y) in IN_ORDER {
        let point = IntPoint::new(*x, *y);
        expect_that(last < point, &point)?;
        last = point.clone()?;
    }
    expect_equal(&last, &IntPoint { x: 2, y: 0 }, &"the last")
}

#[test]
fn bounds_of_points(rt: HostRuntime) -> Result<(), Fail> {
    let none = path::<i16>(rt.alloc(), &[])?;
    assert!(rt; IntRect::with_iter(none.iter()).is_none());
    let points = path::<i16>(rt.alloc(), &[(3, -7), (-2, 5), (4, 0)])?;
    let Some(bounds) = IntRect::with_iter(points.iter()) else {
        return Err(Fail::new("no bounds"));
    };
    expect_pairs(&[
        (i128::from(bounds.min_x), -2),
        (i128::from(bounds.max_x), 4),
        (i128::from(bounds.min_y), -7),
        (i128::from(bounds.max_y), 5),
    ])
}

/// The least and the greatest `x` and `y` of rectangles, and whether they lie in the safe range.
const RANGES: &[(i16, i16, i16, i16, bool)] = &[
    (-16383, 16383, -16383, 16383, true),
    (-16384, 0, 0, 0, false),
    (0, 16384, 0, 0, false),
    (0, 0, -16384, 0, false),
    (0, 0, 0, 32767, false),
];

const SIZES: &[(i32, bool)] = &[(1073741823, true), (1073741824, false), (2147483647, false)];

#[test]
fn safe_ranges_of_i16() -> Result<(), Fail> {
    for row in RANGES {
        let (min_x, max_x, min_y, max_y, want) = *row;
        let rect = IntRect::<i16> {
            min_x,
            max_x,
            min_y,
            max_y,
        };
        expect_equal(&rect.is_in_safe_range(), &want, &rect)?;
    }
    Ok(())
}

#[test]
fn safe_ranges_of_i32() -> Result<(), Fail> {
    for row in SIZES {
        let (most, want) = *row;
        let least = most.wrapping_neg();
        let rect = IntRect::<i32> {
            min_x: least,
            max_x: most,
            min_y: least,
            max_y: most,
        };
        expect_equal(&rect.is_in_safe_range(), &want, &rect)?;
    }
    Ok(())
}
