//! Each source once with the same content, and a buffer that is filled, replaced and emptied.

use mesh_num::num::IntPoint;
use mesh_num::shape::{FlatContoursBuffer, PathSlice};
use mesh_test_support::compared::{gives, holds};
use mesh_test_support::lists::{path, paths, shapes};
use std::alloc::Global;
use std::ops::Range;
use std::process::Abort;
use std::test::Fail;

const TRIANGLE: &[(i32, i32)] = &[(0, 0), (7, -1), (2, 9)];

const PAIR: &[(i32, i32)] = &[(-5, 4), (-6, 4)];

const ALL: &[&[(i32, i32)]] = &[TRIANGLE, &[], PAIR];

/// The same three contours in two of four shapes.
const SHAPES: &[&[&[(i32, i32)]]] = &[&[TRIANGLE], &[], &[&[], PAIR], &[]];

const PAIR_ALONE: &[&[&[(i32, i32)]]] = &[&[PAIR]];

#[test]
fn sources_of_one_path(rt: HostRuntime) -> Result<(), Fail> {
    let array = [
        IntPoint::new(0, 0),
        IntPoint::new(7, -1),
        IntPoint::new(2, 9),
    ];
    assert!(rt; gives(&array, &[TRIANGLE]));
    assert!(rt; gives(&path::<i32>(rt.alloc(), &[])?, &[&[]]));
    let points = path(rt.alloc(), TRIANGLE)?;
    assert!(rt; gives(&points, &[TRIANGLE]));
    assert!(rt; gives(&PathSlice::new(points.as_slice()), &[TRIANGLE]));
    Ok(())
}

#[test]
fn sources_of_many_paths(rt: HostRuntime) -> Result<(), Fail> {
    assert!(rt; gives(&shapes(rt.alloc(), SHAPES)?, ALL));
    assert!(rt; gives(&paths::<i32>(rt.alloc(), &[])?, &[]));
    let lists = paths(rt.alloc(), ALL)?;
    assert!(rt; gives(&lists, ALL));
    assert!(rt; gives(&PathSlice::new(lists.as_slice()), ALL));
    Ok(())
}

#[test]
fn sources_of_an_array_of_paths(rt: HostRuntime) -> Result<(), Fail> {
    let array = [
        path(rt.alloc(), TRIANGLE)?,
        path(rt.alloc(), &[])?,
        path(rt.alloc(), PAIR)?,
    ];
    assert!(rt; gives(&array, ALL));
    Ok(())
}

/// The contours of the second shapes take the place of those of the first, which the buffer holds. A refusal, which
/// comes only in a run that is made to refuse memory, leaves the buffer as it was.
fn expect_replaced(
    rt: &impl Abort,
    alloc: Global,
    buffer: &mut FlatContoursBuffer<i32>,
    before: &[&[&[(i32, i32)]]],
    after: &[&[&[(i32, i32)]]],
) -> Result<(), Fail> {
    assert!(rt; holds(buffer, before));
    let answer = buffer.replace_with(&shapes(alloc, after)?);
    if let Err(refused) = answer {
        assert!(rt; holds(buffer, before));
        return Err(refused.into());
    }
    assert!(rt; holds(buffer, after));
    Ok(())
}

#[test]
fn buffers_are_replaced_whole(rt: HostRuntime) -> Result<(), Fail> {
    let mut buffer = FlatContoursBuffer::new(rt.alloc());
    expect_replaced(&rt, rt.alloc(), &mut buffer, &[], SHAPES)?;
    expect_replaced(&rt, rt.alloc(), &mut buffer, SHAPES, PAIR_ALONE)?;
    expect_replaced(&rt, rt.alloc(), &mut buffer, PAIR_ALONE, &[])
}

#[test]
fn buffers_are_sources(rt: HostRuntime) -> Result<(), Fail> {
    let mut buffer = FlatContoursBuffer::from_shapes(rt.alloc(), &shapes(rt.alloc(), SHAPES)?)?;
    assert!(rt; gives(&buffer, ALL));
    // Ranges that a caller wrote may run backwards or past the points: what is there counts.
    buffer.ranges.clear();
    for (start, end) in &[(2usize, 9usize), (3, 1), (7, 8), (0, 3)] {
        buffer.ranges.push(Range {
            start: *start,
            end: *end,
        })?;
    }
    assert!(rt; gives(&buffer, &[&[(2, 9), (-5, 4), (-6, 4)], &[], &[], TRIANGLE]));
    Ok(())
}
