//! Worked booleans, with and without an error bound, of contours and of polygons.

use crate::regions::{expect_in_range, region};
use mesh_below::below::{ContourDirection, IntOverlayOptions};
use mesh_below::nearness::SplitCount;
use mesh_boolean::boolean::{overlay_shapes, overlay_shapes_with_nearness, validate_overlay};
use mesh_boolean::overlaps::overlaps;
use mesh_boolean::rule::{BooleanFill, BooleanFillRule, BooleanRule};
use mesh_boolean::zones::{coverage, overlay_regions, overlay_regions_with_nearness};
use mesh_test_support::compared::{are_shapes, expect_equal, expect_that};
use mesh_test_support::lists::paths;
use std::test::Fail;

/// A contour of a table.
type Row = &'static [(i32, i32)];

/// The shapes of a table.
type Shapes = &'static [&'static [Row]];

/// The contours of both operands, the rule, the fill rules of both, and the answer.
type Case = (
    &'static [Row],
    &'static [Row],
    BooleanRule,
    (BooleanFillRule, BooleanFillRule),
    Shapes,
);

const CASES: &[Case] = &[
    // two squares: union, intersection, both differences and exclusive or
    (
        &[&[(0, 0), (4, 0), (4, 4), (0, 4)]],
        &[&[(2, 2), (6, 2), (6, 6), (2, 6)]],
        BooleanRule::Union,
        (BooleanFillRule::NonZero, BooleanFillRule::NonZero),
        &[&[&[
            (0, 0),
            (4, 0),
            (4, 2),
            (6, 2),
            (6, 6),
            (2, 6),
            (2, 4),
            (0, 4),
        ]]],
    ),
    (
        &[&[(0, 0), (4, 0), (4, 4), (0, 4)]],
        &[&[(2, 2), (6, 2), (6, 6), (2, 6)]],
        BooleanRule::Intersect,
        (BooleanFillRule::NonZero, BooleanFillRule::NonZero),
        &[&[&[(2, 2), (4, 2), (4, 4), (2, 4)]]],
    ),
    (
        &[&[(0, 0), (4, 0), (4, 4), (0, 4)]],
        &[&[(2, 2), (6, 2), (6, 6), (2, 6)]],
        BooleanRule::Difference,
        (BooleanFillRule::NonZero, BooleanFillRule::NonZero),
        &[&[&[(0, 0), (4, 0), (4, 2), (2, 2), (2, 4), (0, 4)]]],
    ),
    (
        &[&[(0, 0), (4, 0), (4, 4), (0, 4)]],
        &[&[(2, 2), (6, 2), (6, 6), (2, 6)]],
        BooleanRule::InverseDifference,
        (BooleanFillRule::NonZero, BooleanFillRule::NonZero),
        &[&[&[(2, 4), (4, 4), (4, 2), (6, 2), (6, 6), (2, 6)]]],
    ),
    (
        &[&[(0, 0), (4, 0), (4, 4), (0, 4)]],
        &[&[(2, 2), (6, 2), (6, 6), (2, 6)]],
        BooleanRule::Xor,
        (BooleanFillRule::NonZero, BooleanFillRule::NonZero),
        &[
            &[&[(0, 0), (4, 0), (4, 2), (2, 2), (2, 4), (0, 4)]],
            &[&[(2, 4), (4, 4), (4, 2), (6, 2), (6, 6), (2, 6)]],
        ],
    ),
    // one operand alone
    (
        &[&[(0, 0), (4, 0), (4, 4), (0, 4)]],
        &[&[(2, 2), (6, 2), (6, 6), (2, 6)]],
        BooleanRule::Subject,
        (BooleanFillRule::NonZero, BooleanFillRule::NonZero),
        &[&[&[(0, 0), (4, 0), (4, 4), (0, 4)]]],
    ),
    (
        &[&[(0, 0), (4, 0), (4, 4), (0, 4)]],
        &[&[(2, 2), (6, 2), (6, 6), (2, 6)]],
        BooleanRule::Clip,
        (BooleanFillRule::NonZero, BooleanFillRule::NonZero),
        &[&[&[(2, 2), (6, 2), (6, 6), (2, 6)]]],
    ),
    // a common edge, a common corner, a hole
    (
        &[&[(0, 0), (4, 0), (4, 4), (0, 4)]],
        &[&[(4, 0), (8, 0), (8, 4), (4, 4)]],
        BooleanRule::Union,
        (BooleanFillRule::NonZero, BooleanFillRule::NonZero),
        &[&[&[(0, 0), (8, 0), (8, 4), (0, 4)]]],
    ),
    (
        &[&[(0, 0), (4, 0), (4, 4), (0, 4)]],
        &[&[(4, 0), (8, 0), (8, 4), (4, 4)]],
        BooleanRule::Intersect,
        (BooleanFillRule::NonZero, BooleanFillRule::NonZero),
        &[],
    ),
    (
        &[&[(0, 0), (4, 0), (4, 4), (0, 4)]],
        &[&[(4, 4), (8, 4), (8, 8), (4, 8)]],
        BooleanRule::Union,
        (BooleanFillRule::NonZero, BooleanFillRule::NonZero),
        &[
            &[&[(0, 0), (4, 0), (4, 4), (0, 4)]],
            &[&[(4, 4), (8, 4), (8, 8), (4, 8)]],
        ],
    ),
    (
        &[&[(0, 0), (4, 0), (4, 4), (0, 4)]],
        &[&[(1, 1), (3, 1), (3, 3), (1, 3)]],
        BooleanRule::Difference,
        (BooleanFillRule::NonZero, BooleanFillRule::NonZero),
        &[&[
            &[(0, 0), (4, 0), (4, 4), (0, 4)],
            &[(1, 1), (1, 3), (3, 3), (3, 1)],
        ]],
    ),
    // equal operands
    (
        &[&[(0, 0), (4, 0), (4, 4), (0, 4)]],
        &[&[(0, 0), (4, 0), (4, 4), (0, 4)]],
        BooleanRule::Difference,
        (BooleanFillRule::NonZero, BooleanFillRule::NonZero),
        &[],
    ),
    (
        &[&[(0, 0), (4, 0), (4, 4), (0, 4)]],
        &[&[(0, 4), (4, 4), (4, 0), (0, 0)]],
        BooleanRule::Xor,
        (BooleanFillRule::NonZero, BooleanFillRule::NonZero),
        &[],
    ),
    // the fill rules
    (
        &[
            &[(0, 0), (4, 0), (4, 4), (0, 4)],
            &[(2, 2), (6, 2), (6, 6), (2, 6)],
        ],
        &[&[(0, 0), (6, 0), (6, 6), (0, 6)]],
        BooleanRule::Intersect,
        (BooleanFillRule::EvenOdd, BooleanFillRule::EvenOdd),
        &[
            &[&[(0, 0), (4, 0), (4, 2), (2, 2), (2, 4), (0, 4)]],
            &[&[(2, 4), (4, 4), (4, 2), (6, 2), (6, 6), (2, 6)]],
        ],
    ),
    (
        &[
            &[(0, 0), (4, 0), (4, 4), (0, 4)],
            &[(2, 2), (6, 2), (6, 6), (2, 6)],
        ],
        &[&[(0, 0), (6, 0), (6, 6), (0, 6)]],
        BooleanRule::Intersect,
        (BooleanFillRule::NonZero, BooleanFillRule::NonZero),
        &[&[&[
            (0, 0),
            (4, 0),
            (4, 2),
            (6, 2),
            (6, 6),
            (2, 6),
            (2, 4),
            (0, 4),
        ]]],
    ),
    (
        &[&[(0, 4), (4, 4), (4, 0), (0, 0)]],
        &[&[(2, 2), (6, 2), (6, 6), (2, 6)]],
        BooleanRule::Intersect,
        (BooleanFillRule::Negative, BooleanFillRule::Positive),
        &[&[&[(2, 2), (4, 2), (4, 4), (2, 4)]]],
    ),
    (
        &[&[(0, 4), (4, 4), (4, 0), (0, 0)]],
        &[&[(2, 2), (6, 2), (6, 6), (2, 6)]],
        BooleanRule::Difference,
        (BooleanFillRule::Positive, BooleanFillRule::Positive),
        &[],
    ),
    // an empty clip, and a contour without area
    (
        &[&[(0, 0), (4, 0), (4, 4), (0, 4)]],
        &[],
        BooleanRule::Difference,
        (BooleanFillRule::NonZero, BooleanFillRule::NonZero),
        &[&[&[(0, 0), (4, 0), (4, 4), (0, 4)]]],
    ),
    (
        &[&[(0, 0), (4, 0), (4, 4), (0, 4)]],
        &[&[(9, 9)], &[(7, 7), (8, 8)]],
        BooleanRule::Union,
        (BooleanFillRule::NonZero, BooleanFillRule::NonZero),
        &[&[&[(0, 0), (4, 0), (4, 4), (0, 4)]]],
    ),
];

#[test]
fn of_contours(rt: HostRuntime) -> Result<(), Fail> {
    let alloc = rt.alloc();
    for case in CASES {
        let (subject, clip, rule, (subject_fill, clip_fill), wanted) = *case;
        let subject = paths(alloc, subject)?;
        let clip = paths(alloc, clip)?;
        expect_in_range(&subject)?;
        expect_in_range(&clip)?;
        let fill = BooleanFill {
            subject: subject_fill,
            clip: clip_fill,
        };
        let options = IntOverlayOptions::new();
        let shapes = overlay_shapes(alloc, &subject, &clip, rule, fill, options)?;
        expect_that(are_shapes(&shapes, wanted), &shapes)?;
        let mut count = SplitCount::new(0);
        let near = overlay_shapes_with_nearness(
            alloc, &subject, &clip, rule, fill, options, &mut count,
        )?;
        expect_that(are_shapes(&near.shapes, wanted), &near.shapes)?;
        expect_equal(&near.nearness, &0, &wanted)?;
    }
    Ok(())
}

/// The same of polygons, where both operands are filled by the rule `NonZero`.
#[test]
fn of_polygons(rt: HostRuntime) -> Result<(), Fail> {
    let alloc = rt.alloc();
    for case in CASES {
        let (subject, clip, rule, fills, wanted) = *case;
        if fills == (BooleanFillRule::NonZero, BooleanFillRule::NonZero) {
            let subject = region(alloc, &paths(alloc, subject)?)?;
            let clip = region(alloc, &paths(alloc, clip)?)?;
            let options = IntOverlayOptions::new();
            let shapes = overlay_regions(alloc, &subject, &clip, rule, options)?;
            expect_that(are_shapes(&shapes, wanted), &shapes)?;
            let mut count = SplitCount::new(0);
            let near = overlay_regions_with_nearness(
                alloc, &subject, &clip, rule, options, &mut count,
            )?;
            expect_that(are_shapes(&near.shapes, wanted), &near.shapes)?;
        }
    }
    Ok(())
}

/// The least area and the direction are those of the caller, and of the last step alone.
#[test]
fn by_options(rt: HostRuntime) -> Result<(), Fail> {
    let alloc = rt.alloc();
    let square = paths(alloc, &[&[(0i32, 0), (4, 0), (4, 4), (0, 4)]])?;
    let other = paths(alloc, &[&[(2i32, 2), (6, 2), (6, 6), (2, 6)]])?;
    let notched = paths(
        alloc,
        &[&[(1i32, 0), (5, 0), (5, 5), (0, 5), (0, 1), (1, 1)]],
    )?;
    expect_in_range(&square)?;
    expect_in_range(&other)?;
    expect_in_range(&notched)?;
    let fill = BooleanFill {
        subject: BooleanFillRule::NonZero,
        clip: BooleanFillRule::NonZero,
    };
    let mut options = IntOverlayOptions::new();
    options.output_direction = ContourDirection::Clockwise;
    let shapes = overlay_shapes(alloc, &square, &other, BooleanRule::Clip, fill, options)?;
    expect_that(
        are_shapes(&shapes, &[&[&[(2, 2), (2, 6), (6, 6), (6, 2)]]]),
        &shapes,
    )?;
    let mut options = IntOverlayOptions::new();
    options.min_output_area = 2;
    let shapes = overlay_shapes(
        alloc,
        &square,
        &notched,
        BooleanRule::Difference,
        fill,
        options,
    )?;
    expect_that(are_shapes(&shapes, &[]), &shapes)
}

/// How often zones cover the plane; a zone that overlaps itself counts once.
#[test]
fn coverages(rt: HostRuntime) -> Result<(), Fail> {
    let alloc = rt.alloc();
    let mut zones = Vec::new(alloc);
    let square = [(0i32, 0i32), (4, 0), (4, 4), (0, 4)];
    let first = region(alloc, &paths(alloc, &[&square, &square])?)?;
    let second = region(
        alloc,
        &paths(alloc, &[&[(2i32, 2), (6, 2), (6, 6), (2, 6)]])?,
    )?;
    let third = region(
        alloc,
        &paths(alloc, &[&[(1i32, 1), (3, 1), (3, 3), (1, 3)]])?,
    )?;
    zones.push(first)?;
    zones.push(second)?;
    zones.push(third)?;
    for (least, wanted) in COVERAGES {
        let shapes = coverage(alloc, &zones, least, IntOverlayOptions::new())?;
        expect_that(are_shapes(&shapes, wanted), &(least, &shapes))?;
    }
    Ok(())
}

/// How many zones hold each point at least, and the answer.
const COVERAGES: [(u32, Shapes); 4] = [(0, UNITED), (1, UNITED), (2, TWICE), (3, THRICE)];

const THRICE: Shapes = &[&[&[(2, 2), (3, 2), (3, 3), (2, 3)]]];

const UNITED: Shapes = &[&[&[
    (0, 0),
    (4, 0),
    (4, 2),
    (6, 2),
    (6, 6),
    (2, 6),
    (2, 4),
    (0, 4),
]]];

const TWICE: Shapes = &[&[&[
    (1, 1),
    (3, 1),
    (3, 2),
    (4, 2),
    (4, 4),
    (2, 4),
    (2, 3),
    (1, 3),
]]];

/// Squares that overlap, that touch, and that lie apart.
#[test]
fn pairs_that_overlap(rt: HostRuntime) -> Result<(), Fail> {
    let alloc = rt.alloc();
    let mut zones = Vec::new(alloc);
    zones.push(region(
        alloc,
        &paths(alloc, &[&[(0i32, 0i32), (4, 0), (4, 4), (0, 4)]])?,
    )?)?;
    zones.push(region(
        alloc,
        &paths(alloc, &[&[(2i32, 2), (6, 2), (6, 6), (2, 6)]])?,
    )?)?;
    zones.push(region(
        alloc,
        &paths(alloc, &[&[(4i32, 0), (8, 0), (8, 4), (4, 4)]])?,
    )?)?;
    zones.push(region(alloc, &paths(alloc, &[&[(20i32, 20), (24, 20), (24, 24)]])?)?)?;
    let found = overlaps(alloc, &zones, IntOverlayOptions::new())?;
    let wanted: [(usize, usize, Shapes); 2] = [(0, 1, FIRST_OVERLAP), (1, 2, SECOND_OVERLAP)];
    expect_equal(&found.len(), &2, &wanted)?;
    for k in 0..2 {
        let (first, second, shapes) = wanted[k];
        if k < found.len() {
            expect_equal(&(found[k].first, found[k].second), &(first, second), &k)?;
            expect_that(are_shapes(&found[k].shapes, shapes), &found[k].shapes)?;
        }
    }
    Ok(())
}

const FIRST_OVERLAP: Shapes = &[&[&[(2, 2), (4, 2), (4, 4), (2, 4)]]];

const SECOND_OVERLAP: Shapes = &[&[&[(4, 2), (6, 2), (6, 4), (4, 4)]]];

/// A point on the last safe number is in range, and one past it is not.
#[test]
fn ranges(rt: HostRuntime) -> Result<(), Fail> {
    let alloc = rt.alloc();
    let last = paths(
        alloc,
        &[&[(-16383i16, -16383), (16383, -16383), (16383, 16383)]],
    )?;
    expect_that(validate_overlay(&last).is_ok(), &last)?;
    for spot in [(16384i16, 0i16), (0, 16384), (-16384, 0), (0, -16384)] {
        let past = paths(alloc, &[&[(0i16, 0i16), spot, (16383, 1)]])?;
        expect_that(validate_overlay(&past).is_err(), &past)?;
    }
    Ok(())
}
