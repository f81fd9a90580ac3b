//! Worked answers as regions: how they wind, and that they are answered again.

use crate::answers::{answered_shapes, overlay_of};
use crate::random_answers::again;
use mesh_below::below::FillRule;
use mesh_test_support::compared::{are_shapes, expect_equal, expect_that};
use mesh_test_support::edges::edges_of_shapes;
use mesh_test_support::outer;
use mesh_test_support::plain::{Point, winding};
use std::test::Fail;

/// Points, and how the answer of two squares that overlap winds there: a corner and the middle belong to it, what lies
/// beside both squares and its last corner do not.
const POINTS: &[(Point, i128)] = &[((0, 0), 1), ((3, 3), 1), ((5, 1), 0), ((6, 6), 0)];

#[test]
fn squares_that_overlap(rt: HostRuntime) -> Result<(), Fail> {
    let overlay = overlay_of(rt.alloc(), &[outer!(0, 0, 4, 4), outer!(2, 2, 6, 6)])?;
    let shapes = answered_shapes(&overlay, FillRule::Positive)?;
    let edges = edges_of_shapes(rt.alloc(), &shapes)?;
    for (q, wanted) in POINTS {
        expect_equal(&winding(1, *q, &edges), wanted, q)?;
    }
    Ok(())
}

/// The first answer has a crossing that was rounded.
#[test]
fn a_rounded_crossing(rt: HostRuntime) -> Result<(), Fail> {
    let overlay = overlay_of(rt.alloc(), &[&[(0, 0), (3, 3), (3, 0), (0, 3)]])?;
    let first = answered_shapes(&overlay, FillRule::Positive)?;
    let second = answered_shapes(&again(rt.alloc(), &first)?, FillRule::Positive)?;
    expect_that(
        are_shapes(&second, &[&[&[(0, 0), (2, 2), (0, 3)]]]),
        &second,
    )
}
