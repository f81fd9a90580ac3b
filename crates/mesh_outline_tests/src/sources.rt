//! Sources of every type with the same content.

use crate::answers::expect;
use mesh_join::style::IntOutlineStyle;
use mesh_num::num::IntPoint;
use mesh_num::shape::path_slice::PathSlice;
use mesh_test_support::lists::{path, paths, shapes};
use std::test::Fail;

type Row = &'static [(i32, i32)];

const TRIANGLE: Row = &[(0, 0), (40, 0), (0, 30)];

const HOLE: Row = &[(8, 8), (8, 13), (14, 13), (14, 8)];

const GROWN: Row = &[(-1, 0), (0, -1), (40, -1), (41, 1), (1, 31), (-1, 30)];

const GROWN_ALONE: &[&[Row]] = &[&[GROWN]];

const GROWN_WITH_HOLE: &[&[Row]] = &[&[GROWN, &[(9, 9), (9, 12), (13, 12), (13, 9)]]];

#[test]
fn one_path(rt: HostRuntime) -> Result<(), Fail> {
    let style = IntOutlineStyle::new(1);
    let points = path(rt.alloc(), TRIANGLE)?;
    expect(rt.alloc(), &points, &style, GROWN_ALONE)?;
    let slice = PathSlice::new(points.as_slice());
    expect(rt.alloc(), &slice, &style, GROWN_ALONE)?;
    let array = [
        IntPoint::new(0, 0),
        IntPoint::new(40, 0),
        IntPoint::new(0, 30),
    ];
    expect(rt.alloc(), &array, &style, GROWN_ALONE)
}

#[test]
fn two_paths(rt: HostRuntime) -> Result<(), Fail> {
    let style = IntOutlineStyle::new(1);
    let both = paths(rt.alloc(), &[TRIANGLE, HOLE])?;
    expect(rt.alloc(), &both, &style, GROWN_WITH_HOLE)?;
    let slice = PathSlice::new(both.as_slice());
    expect(rt.alloc(), &slice, &style, GROWN_WITH_HOLE)?;
    let grouped = shapes(rt.alloc(), &[&[TRIANGLE], &[], &[HOLE]])?;
    expect(rt.alloc(), &grouped, &style, GROWN_WITH_HOLE)
}

#[test]
fn an_array_of_two_paths(rt: HostRuntime) -> Result<(), Fail> {
    let style = IntOutlineStyle::new(1);
    let array = [path(rt.alloc(), TRIANGLE)?, path(rt.alloc(), HOLE)?];
    expect(rt.alloc(), &array, &style, GROWN_WITH_HOLE)
}
