//! Answers of worked strokes as regions: they wind once where the drawn edges wind round the point, and not elsewhere.

use crate::drawn::drawn;
use crate::styles::{CapRow, StyleRow, widened};
use i_overlay_mesh::stroke::offset::IntStrokeOffset;
use mesh_test_support::compared::expect_equal;
use mesh_test_support::edges::{edges_of_shapes, plain_points};
use mesh_test_support::joins::JoinKind;
use mesh_test_support::plain::{Edge, Point, plus, refined, winding};
use std::alloc::Global;
use std::test::Fail;

const LINE: &[(i16, i16)] = &[(0, 0), (8192, 0)];

/// The line with a width of 2048.
fn wide_line(cap: CapRow) -> StyleRow {
    StyleRow {
        width: 2048,
        join: JoinKind::Bevel,
        start: cap,
        end: cap,
    }
}

/// Up to a distance of 2 from a point, in each coordinate, at the points of the grid 2.
fn expect_near(middle: Point, answer: &[Edge], drawn: &[Edge]) -> Result<(), Fail> {
    for x in -4i32..5 {
        for y in -4i32..5 {
            let q = plus(refined(2, middle), (i128::from(x), i128::from(y)));
            let wanted = if winding(2, q, drawn) > 0 { 1i128 } else { 0 };
            expect_equal(&winding(2, q, answer), &wanted, &q)?;
        }
    }
    Ok(())
}

/// Near the vertices of the line and of its stroke.
fn expect_region(alloc: Global, style: StyleRow) -> Result<(), Fail> {
    let source = widened::<i32>(alloc, LINE)?;
    let wanted = style.style::<i32>(alloc)?;
    source.validate_stroke(&wanted)?;
    let answer = edges_of_shapes(alloc, &source.stroke(alloc, &wanted, false)?)?;
    let edges = drawn::<i32>(alloc, LINE, false, style)?;
    for vertex in &plain_points(alloc, LINE)? {
        expect_near(*vertex, &answer, &edges)?;
    }
    for (vertex, _) in &answer {
        expect_near(*vertex, &answer, &edges)?;
    }
    Ok(())
}

#[test]
fn a_line_with_butt_caps(rt: HostRuntime) -> Result<(), Fail> {
    expect_region(rt.alloc(), wide_line(CapRow::Butt))
}

#[test]
fn a_line_with_square_caps(rt: HostRuntime) -> Result<(), Fail> {
    expect_region(rt.alloc(), wide_line(CapRow::Square))
}
