//! Answers whose edges are their own boundary, and what these are arranged to.

use crate::answers::{Row, answered_shapes, expect_resolvable, overlay_of};
use crate::counted::meet;
use crate::random_answers::{again, expect_region, scattered_overlay};
use mesh_below::below::{ContourDirection, FillRule, IntOverlayOptions, OverlayRule, arranged};
use mesh_num::shape::buffer::IntShapes;
use mesh_test_support::compared::{expect_equal, expect_that};
use mesh_test_support::edges::edges_of_shapes;
use mesh_test_support::outer;
use mesh_test_support::plain::Edge;
use mesh_test_support::random::Random;
use std::alloc::{AllocError, Global};
use std::test::Fail;

/// Contours, whether what they fill is told to be settled, and whether its edges are told to be their own boundary.
type Case = (&'static [Row], bool, bool);

const CASES: &[Case] = &[
    // no vertex is left out where these touch
    (&[outer!(0, 0, 2, 2), outer!(2, 2, 4, 4)], true, true),
    // one contour alone runs through the vertices that it leaves out
    (&[outer!(0, 0, 4, 4), outer!(4, 0, 8, 4)], false, true),
    // the square's lower side runs straight through the peak of the triangle
    (
        &[
            &[(0, 0), (2, 0), (4, 0), (4, 4), (0, 4)],
            &[(2, 0), (1, -2), (3, -2)],
        ],
        false,
        false,
    ),
];

#[test]
fn what_is_told(rt: HostRuntime) -> Result<(), Fail> {
    for case in CASES {
        let (contours, is_settled, is_own_boundary) = *case;
        let overlay = overlay_of(rt.alloc(), contours)?;
        expect_resolvable(&overlay)?;
        let answer = overlay.overlay_answer(OverlayRule::Subject, FillRule::Positive)?;
        let told = (answer.is_settled, answer.is_own_boundary);
        expect_equal(&told, &(is_settled, is_own_boundary), &contours)?;
    }
    Ok(())
}

/// The edges share only common ends, and wind once where they wind at all.
fn expect_own_boundary(edges: &[Edge]) -> Result<(), Fail> {
    for (place, e) in edges.iter().enumerate() {
        for f in &edges[..place] {
            expect_that(!meet(*e, *f), &(e, f))?;
        }
    }
    expect_region(edges, &[], FillRule::Positive, edges, 1)?;
    Ok(())
}

/// The edges in order, and of how many shapes and contours they are.
fn sorted(alloc: Global, shapes: &IntShapes<i32>) -> Result<(Vec<Edge>, usize, usize), AllocError> {
    let mut edges = edges_of_shapes(alloc, shapes)?;
    edges.sort_unstable();
    let mut contours = 0usize;
    for shape in shapes {
        contours = contours.wrapping_add(shape.len());
    }
    Ok((edges, shapes.len(), contours))
}

/// A least area of 0, 20 or 40, both directions, with and without the vertices that contours run straight through.
fn options_of(number: u32) -> IntOverlayOptions<u64> {
    let mut options = IntOverlayOptions::new();
    options.min_output_area = u64::from(number % 3).wrapping_mul(20);
    options.preserve_output_collinear = number % 2 == 1;
    if number % 5 < 2 {
        options.output_direction = ContourDirection::Clockwise;
    }
    options
}

/// Where edges are told to be their own boundary they are, and are arranged to what they are resolved to, whatever the
/// fill rule and the options of the overlay that answered them.
#[test]
fn own_boundaries_are_arranged(rt: HostRuntime) -> Result<(), Fail> {
    let mut random = Random::new(6);
    let mut arranged_lists = 0u32;
    for number in 0u32..400 {
        let mut overlay = scattered_overlay(rt.alloc(), &mut random, number)?;
        if number % 4 == 0 {
            overlay.options = options_of(number / 4);
        }
        expect_resolvable(&overlay)?;
        let fill = if number % 7 < 2 {
            FillRule::Negative
        } else {
            FillRule::Positive
        };
        let answer = overlay.overlay_answer(OverlayRule::Subject, fill)?;
        if answer.is_own_boundary {
            expect_own_boundary(&edges_of_shapes(rt.alloc(), &answer.shapes)?)?;
            let mut overlay = again(rt.alloc(), &answer.shapes)?;
            overlay.options = options_of(number);
            let wanted = sorted(rt.alloc(), &answered_shapes(&overlay, FillRule::Positive)?)?;
            let found = arranged(rt.alloc(), &answer.shapes, options_of(number))?;
            expect_equal(&sorted(rt.alloc(), &found)?, &wanted, &number)?;
            arranged_lists = arranged_lists.wrapping_add(1);
        }
    }
    expect_that(arranged_lists > 100, &arranged_lists)
}
