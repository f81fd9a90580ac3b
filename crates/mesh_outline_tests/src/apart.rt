//! Outlines of several outer boundaries, whose answers are apart from each other or not.

use crate::outlines::styled;
use i_overlay_mesh::outline::offset::IntOutlineOffset;
use i_overlay_mesh::{IntNearnessError, IntOutlineError, IntOverlayOptions, SplitCount};
use mesh_below::below::ContourDirection;
use mesh_join::style::IntOutlineStyle;
use mesh_num::shape::buffer::IntShapes;
use mesh_num::shape::resource::IntShapeResource;
use mesh_test_support::compared::expect_equal;
use mesh_test_support::joins::JoinKind;
use mesh_test_support::lists::{path, paths};
use mesh_test_support::{inner, outer};
use std::alloc::Global;
use std::test::Fail;

type Row = &'static [(i32, i32)];

const PEAKS: JoinKind = JoinKind::Miter(536_870_912, 0);

const OFFSETS: [i32; 7] = [0, 1, 10, 12, -1, -6, -25];

/// Each lies past each other one in a direction, and they stand in the order of their least points.
const APART: &[Row] = &[
    outer!(0, 0, 40, 40),
    outer!(0, 100, 40, 140),
    outer!(100, 0, 140, 40),
    outer!(300, 250, 310, 290),
];

/// Contours of area 0 stand between them, and a point that a contour runs straight through on its way.
const IGNORED: &[Row] = &[
    &[(500, 500), (600, 500)],
    &[(0, 0), (20, 0), (40, 0), (40, 40), (0, 40)],
    &[(7, 7)],
    outer!(100, 0, 140, 40),
    &[],
];

/// Other sources: squares whose outlines touch or overlap, and touch at a corner alone; a square in the notch of an L,
/// and in another square; a hole, with a square in it and one beside it; and squares that touch from the start.
const OTHERS: &[&[Row]] = &[
    &[outer!(0, 0, 40, 40), outer!(60, 0, 100, 40)],
    &[outer!(0, 0, 40, 40), outer!(60, 60, 100, 100)],
    &[
        &[(0, 0), (100, 0), (100, 20), (20, 20), (20, 100), (0, 100)],
        outer!(60, 60, 80, 80),
    ],
    &[outer!(0, 0, 100, 100), outer!(30, 30, 60, 60)],
    &[
        outer!(0, 0, 100, 100),
        inner!(20, 20, 80, 80),
        outer!(40, 40, 60, 60),
        outer!(200, 0, 240, 40),
    ],
    &[
        outer!(0, 0, 40, 40),
        outer!(40, 0, 80, 40),
        outer!(80, 40, 90, 50),
    ],
];

/// The default options, and others, of which each tells something of the answer.
fn options_of(index: u64) -> IntOverlayOptions<u64> {
    let mut options = IntOverlayOptions::new();
    if index == 1 {
        options.preserve_output_collinear = true;
    }
    if index == 2 {
        options.output_direction = ContourDirection::Clockwise;
    }
    if index == 3 {
        options.min_output_area = 1000;
    }
    options
}

/// The outline of a source that the style may move.
fn outlined<S: IntShapeResource<i32>>(
    alloc: Global,
    source: &S,
    style: &IntOutlineStyle<i32>,
    options: IntOverlayOptions<u64>,
) -> Result<IntShapes<i32>, IntOutlineError> {
    source.validate_outline(style)?;
    source.outline_custom(alloc, style, options)
}

/// The outline by the call that tells its nearness, which resolves all contours together.
fn together<S: IntShapeResource<i32>>(
    alloc: Global,
    source: &S,
    style: &IntOutlineStyle<i32>,
    options: IntOverlayOptions<u64>,
) -> Result<IntShapes<i32>, IntNearnessError> {
    source.validate_outline(style)?;
    let near = source.outline_with_nearness(alloc, style, options, &mut SplitCount::new(0))?;
    Ok(near.shapes)
}

/// The outlines of contours, each alone, end to end.
fn one_by_one(
    alloc: Global,
    contours: &[Row],
    style: &IntOutlineStyle<i32>,
    options: IntOverlayOptions<u64>,
) -> Result<IntShapes<i32>, Fail> {
    let mut shapes = Vec::new(alloc);
    for contour in contours {
        let mut own = outlined(alloc, &path(alloc, contour)?, style, options)?;
        shapes.append(&mut own)?;
    }
    Ok(shapes)
}

/// The answer is that of all contours together.
fn expect_together(alloc: Global, contours: &[Row], join: JoinKind) -> Result<(), Fail> {
    let source = paths(alloc, contours)?;
    for offset in &OFFSETS {
        let style = styled(*offset, join);
        for index in 0..4u64 {
            let options = options_of(index);
            let answer = outlined(alloc, &source, &style, options)?;
            let wanted = together(alloc, &source, &style, options)?;
            expect_equal(&answer, &wanted, &(contours, offset, index))?;
        }
    }
    Ok(())
}

/// And where contours stand in order, and their outlines stay apart, each has its own shapes.
fn expect_one_by_one(alloc: Global, contours: &[Row], join: JoinKind) -> Result<(), Fail> {
    let source = paths(alloc, contours)?;
    for offset in &OFFSETS {
        let style = styled(*offset, join);
        for index in 0..4u64 {
            let options = options_of(index);
            let answer = outlined(alloc, &source, &style, options)?;
            let wanted = one_by_one(alloc, contours, &style, options)?;
            expect_equal(&answer, &wanted, &(contours, offset, index))?;
        }
    }
    Ok(())
}

#[test]
fn apart(rt: HostRuntime) -> Result<(), Fail> {
    expect_one_by_one(rt.alloc(), APART, JoinKind::Bevel)?;
    expect_one_by_one(rt.alloc(), APART, PEAKS)?;
    expect_together(rt.alloc(), APART, JoinKind::Bevel)
}

#[test]
fn with_contours_that_do_not_move(rt: HostRuntime) -> Result<(), Fail> {
    expect_one_by_one(rt.alloc(), IGNORED, JoinKind::Bevel)?;
    expect_together(rt.alloc(), IGNORED, PEAKS)
}

#[test]
fn not_apart(rt: HostRuntime) -> Result<(), Fail> {
    for contours in OTHERS {
        expect_together(rt.alloc(), contours, JoinKind::Bevel)?;
        expect_together(rt.alloc(), contours, PEAKS)?;
    }
    Ok(())
}

/// Squares above each other, in the order in which they stand and in another: all are as far west, so that more tests
/// of bounds would be made than are allowed.
#[test]
fn column(rt: HostRuntime) -> Result<(), Fail> {
    let alloc = rt.alloc();
    for step in [1, 7] {
        let mut source = Vec::new(alloc);
        for i in 0..300i32 {
            let y = (i.saturating_mul(step) % 300).saturating_mul(20);
            let top = y.saturating_add(10);
            source.push(path(alloc, &[(0, y), (10, y), (10, top), (0, top)])?)?;
        }
        let style = styled(3, JoinKind::Bevel);
        let options = IntOverlayOptions::new();
        let answer = outlined(alloc, &source, &style, options)?;
        let wanted = together(alloc, &source, &style, options)?;
        expect_equal(&answer, &wanted, &step)?;
    }
    Ok(())
}

/// Squares in a grid, which are apart, and the same moved so far that neighbours touch.
#[test]
fn grid(rt: HostRuntime) -> Result<(), Fail> {
    let alloc = rt.alloc();
    let mut source = Vec::new(alloc);
    for i in 0..900i32 {
        let x = i % 30 * 20;
        let y = i / 30 * 20;
        source.push(path(alloc, &[(x, y), (x + 10, y), (x + 10, y + 10), (x, y + 10)])?)?;
    }
    for offset in [3, 5] {
        let style = styled(offset, JoinKind::Bevel);
        let options = IntOverlayOptions::new();
        let answer = outlined(alloc, &source, &style, options)?;
        let wanted = together(alloc, &source, &style, options)?;
        expect_equal(&answer, &wanted, &offset)?;
    }
    Ok(())
}
