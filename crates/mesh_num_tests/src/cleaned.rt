//! Worked contours, each begun at every one of its points.

ghost use Rattle.std.specs.Prelude.{◌^◌, IfOk};
ghost use Rattle.std.specs.List.{All};
ghost use Rattle.mesh_plane.specs.Bounds.{IsSafe};

use mesh_join::uniq_iter::{UniqueSegment, UniqueSegmentsIter};
use mesh_num::num::IntPoint;
use mesh_test_support::compared::{expect_equal, expect_that};
use std::alloc::{AllocError, Global};
use std::test::Fail;

fn point(coordinates: &(u8, u8)) -> IntPoint<i32>
    ensures { IsSafe (2 ^ 30) result }
{
    IntPoint::new(i32::from(coordinates.0), i32::from(coordinates.1))
}

/// The contour of these coordinates, begun at the point number `start`.
fn contour(
    alloc: Global,
    coordinates: &[(u8, u8)],
    start: usize,
) -> Result<Vec<IntPoint<i32>>, AllocError>
    ensures { IfOk result (λ v. All (IsSafe (2 ^ 30)) v.items) }
{
    let mut points = Vec::new(alloc);
    for at in coordinates.iter().skip(start) {
        points.push(point(at))?;
    }
    for at in coordinates.iter().take(start) {
        points.push(point(at))?;
    }
    Ok(points)
}

/// The sections of a contour, none where it is one point.
fn sections(
    alloc: Global,
    coordinates: &[(u8, u8)],
    start: usize,
) -> Result<Vec<UniqueSegment<i32>>, AllocError> {
    let points = contour(alloc, coordinates, start)?;
    match UniqueSegmentsIter::new(&points) {
        Some(sections) => sections.collect(alloc),
        None => Ok(Vec::new(alloc)),
    }
}

/// The contour, begun at any of its points, has `count` sections, each of which starts where the one before it ends.
fn expect_loops(alloc: Global, coordinates: &[(u8, u8)], count: usize) -> Result<(), Fail> {
    for start in 0..=coordinates.len() {
        let found = sections(alloc, coordinates, start)?;
        expect_equal(&found.len(), &count, &(coordinates, start))?;
        expect_that(is_loop(&found), &(coordinates, start))?;
    }
    Ok(())
}

/// Whether each section starts where the one before it ends, and ends elsewhere.
fn is_loop(sections: &[UniqueSegment<i32>]) -> bool {
    let Some(last) = sections.last() else {
        return true;
    };
    let mut end = last.b;
    for section in sections {
        if section.a != end || section.a == section.b {
            return false;
        }
        end = section.b;
    }
    true
}

const THERE_AND_BACK: &[(u8, u8)] = &[(0, 0), (5, 0), (10, 0), (5, 0)];

/// Contours, and how many sections they have: of no point, one, equal ones, on a line, and squares with more and more
/// points on their sides.
const CONTOURS: &[(&[(u8, u8)], usize)] = &[
    (&[], 0),
    (&[(0, 0)], 0),
    (&[(0, 0), (0, 0), (0, 0)], 0),
    (&[(0, 0), (10, 0)], 2),
    (&[(0, 0), (5, 0), (10, 0)], 2),
    (THERE_AND_BACK, 2),
    (&[(0, 10), (0, 0), (10, 0), (10, 10)], 4),
    (
        &[
            (0, 10),
            (0, 5),
            (0, 0),
            (5, 0),
            (10, 0),
            (10, 5),
            (10, 10),
            (5, 10),
        ],
        4,
    ),
    (
        &[
            (0, 10),
            (0, 8),
            (0, 5),
            (0, 2),
            (0, 0),
            (2, 0),
            (5, 0),
            (8, 0),
            (10, 0),
            (10, 2),
            (10, 5),
            (10, 8),
            (10, 10),
            (8, 10),
            (5, 10),
            (2, 10),
        ],
        4,
    ),
];

#[test]
fn worked_contours(rt: HostRuntime) -> Result<(), Fail> {
    for row in CONTOURS {
        let (coordinates, count) = *row;
        expect_loops(rt.alloc(), coordinates, count)?;
    }
    Ok(())
}

#[test]
fn a_line_there_and_back(rt: HostRuntime) -> Result<(), Fail> {
    let found = sections(rt.alloc(), THERE_AND_BACK, 0)?;
    let (near, far) = (IntPoint::new(0, 0), IntPoint::new(10, 0));
    let [first, second] = found.as_slice() else {
        return Err(Fail::new("not two sections"));
    };
    expect_equal(&(first.a, first.b), &(far, near), &"the first")?;
    expect_equal(&(second.a, second.b), &(near, far), &"the second")
}
