//! Answers of worked outlines as regions: they wind once where the outlines of more outer boundaries than holes fill.

use crate::outlines::{built, styled};
use i_overlay_mesh::outline::offset::IntOutlineOffset;
use mesh_test_support::compared::expect_equal;
use mesh_test_support::edges::edges_of_shapes;
use mesh_test_support::joins::JoinKind;
use mesh_test_support::lists::{path, paths};
use mesh_test_support::plain::{Edge, Point, plus, refined, winding};
use mesh_test_support::{inner, outer};
use std::alloc::Global;
use std::test::Fail;

type Row = &'static [(i32, i32)];

const SQUARE: Row = outer!(0, 0, 16_384, 16_384);

const HOLE: Row = inner!(4096, 4096, 12_288, 12_288);

const PEAKS: JoinKind = JoinKind::Miter(536_870_912, 0);

/// Contours, the first an outer boundary and the others holes, one offset for all of them, and the joins.
const CASES: &[(&[Row], i32, JoinKind)] = &[
    (&[SQUARE], 1024, JoinKind::Bevel),
    (&[SQUARE], 1024, PEAKS),
    (&[SQUARE], -1024, JoinKind::Bevel),
    (&[SQUARE], -9000, JoinKind::Bevel),
    (&[SQUARE, HOLE], 1024, JoinKind::Bevel),
];

/// The edges of the outlines of contours, each alone.
fn outlines(
    alloc: Global,
    contours: &[Row],
    offset: i32,
    join: JoinKind,
) -> Result<Vec<Vec<Edge>>, Fail> {
    let mut outlines = Vec::new(alloc);
    for contour in contours {
        let edges = built(alloc, &path(alloc, contour)?, styled(offset, join))?;
        outlines.push(edges)?;
    }
    Ok(outlines)
}

/// How often the answer has to wind round a point of the grid 2: once where the first outline winds above 0, and no
/// hole's below 0.
fn wanted(outlines: &[Vec<Edge>], q: Point) -> i128 {
    let Some((first, holes)) = outlines.split_first() else {
        return 0;
    };
    for hole in holes {
        if winding(2, q, hole) < 0 {
            return 0;
        }
    }
    if winding(2, q, first) > 0 { 1 } else { 0 }
}

/// Up to a distance of 2 from the starts of these edges, in each coordinate, at the points of the grid 2.
fn expect_near(vertices: &[Edge], answer: &[Edge], outlines: &[Vec<Edge>]) -> Result<(), Fail> {
    for (vertex, _) in vertices {
        for x in -4i32..5 {
            for y in -4i32..5 {
                let q = plus(refined(2, *vertex), (i128::from(x), i128::from(y)));
                expect_equal(&winding(2, q, answer), &wanted(outlines, q), &q)?;
            }
        }
    }
    Ok(())
}

#[test]
fn worked_outlines(rt: HostRuntime) -> Result<(), Fail> {
    let alloc = rt.alloc();
    for (contours, offset, join) in CASES {
        let source = paths(alloc, contours)?;
        let style = styled(*offset, *join);
        source.validate_outline(&style)?;
        let answer = edges_of_shapes(alloc, &source.outline(alloc, &style)?)?;
        let outlines = outlines(alloc, contours, *offset, *join)?;
        expect_near(&answer, &answer, &outlines)?;
        for drawn in &outlines {
            expect_near(drawn, &answer, &outlines)?;
        }
    }
    Ok(())
}
