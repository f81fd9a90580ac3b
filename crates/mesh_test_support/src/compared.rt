//! Comparers of answers with tables.

use crate::plain::Edge;
use mesh_num::num::{IntNumber, IntPoint};
use mesh_num::shape::buffer::{FlatContoursBuffer, IntShapes};
use mesh_num::shape::resource::IntShapeResource;
use mesh_num::shape::segment::Segment;
use std::alloc::{AllocError, Global};
use std::fmt::Debug;
use std::ops::Range;
use std::test::Fail;

// The text of a failed `assert_eq!` is proved anew wherever one stands, which takes longer than most tests. These two
// are proved once.

/// Fails where two values differ, and tells the case.
pub fn expect_equal<T: PartialEq + Debug>(
    found: &T,
    wanted: &T,
    case: &impl Debug,
) -> Result<(), Fail> {
    if *found == *wanted {
        return Ok(());
    }
    Err(Fail::new(format_args!("{found:?} and not {wanted:?} at {case:?}")))
}

/// Fails where something does not hold, and tells the case.
pub fn expect_that(holds: bool, case: &impl Debug) -> Result<(), Fail> {
    if holds {
        return Ok(());
    }
    Err(Fail::new(format_args!("not so at {case:?}")))
}

/// Whether the contour has these points.
pub fn is_contour<I: IntNumber>(found: &[IntPoint<I>], wanted: &[(I, I)]) -> bool {
    if found.len() != wanted.len() {
        return false;
    }
    let mut number = 0usize;
    for p in found {
        let Some(q) = wanted.get(number) else {
            return false;
        };
        if p.x != q.0 || p.y != q.1 {
            return false;
        }
        number = number.wrapping_add(1);
    }
    true
}

fn is_shape<I: IntNumber>(found: &[Vec<IntPoint<I>>], wanted: &[&[(I, I)]]) -> bool {
    if found.len() != wanted.len() {
        return false;
    }
    let mut number = 0usize;
    for contour in found {
        let Some(points) = wanted.get(number) else {
            return false;
        };
        if !is_contour(contour, points) {
            return false;
        }
        number = number.wrapping_add(1);
    }
    true
}

/// Whether the shapes are these, in this order.
pub fn are_shapes<I: IntNumber>(found: &IntShapes<I>, wanted: &[&[&[(I, I)]]]) -> bool {
    if found.len() != wanted.len() {
        return false;
    }
    let mut number = 0usize;
    for shape in found {
        let Some(contours) = wanted.get(number) else {
            return false;
        };
        if !is_shape(shape, contours) {
            return false;
        }
        number = number.wrapping_add(1);
    }
    true
}

/// Whether the contour of this number stands in the buffer from the place `start` on.
fn is_at<I: IntNumber>(
    buffer: &FlatContoursBuffer<I>,
    number: usize,
    start: usize,
    wanted: &[(I, I)],
) -> bool {
    let Some(range) = buffer.ranges.get(number) else {
        return false;
    };
    if range.start != start {
        return false;
    }
    match buffer.points.get(range.start..range.end) {
        Some(points) => is_contour(points, wanted),
        None => false,
    }
}

/// Whether the buffer has the contours of these shapes, end to end, and no other points.
pub fn holds<I: IntNumber>(buffer: &FlatContoursBuffer<I>, wanted: &[&[&[(I, I)]]]) -> bool {
    let mut number = 0usize;
    let mut start = 0usize;
    for shape in wanted {
        for contour in *shape {
            if !is_at(buffer, number, start, contour) {
                return false;
            }
            number = number.wrapping_add(1);
            start = start.wrapping_add(contour.len());
        }
    }
    buffer.ranges.len() == number && buffer.points.len() == start
}

/// Whether the source has these paths and no others.
pub fn gives<I: IntNumber, S: IntShapeResource<I>>(source: &S, paths: &[&[(I, I)]]) -> bool {
    let count = source.path_count();
    if count != paths.len() {
        return false;
    }
    for index in 0..count {
        if !is_contour(source.path_at(index), paths[index]) {
            return false;
        }
    }
    true
}

/// Whether both lists have the same segments, in the same order.
pub fn are_same_segments<I: IntNumber>(first: &[Segment<I>], second: &[Segment<I>]) -> bool {
    if first.len() != second.len() {
        return false;
    }
    let mut number = 0usize;
    for s in first {
        let Some(t) = second.get(number) else {
            return false;
        };
        let (e, f) = (s.x_segment, t.x_segment);
        if e.a != f.a || e.b != f.b || s.count != t.count {
            return false;
        }
        number = number.wrapping_add(1);
    }
    true
}

/// Whether both lists have the same edges, each as often, in any order.
pub fn are_same_edges(mut first: Vec<Edge>, mut second: Vec<Edge>) -> Result<bool, AllocError> {
    first.sort()?;
    second.sort()?;
    Ok(first == second)
}

/// A buffer with one contour of one point.
pub fn filled<I: IntNumber>(alloc: Global) -> Result<FlatContoursBuffer<I>, AllocError> {
    let mut buffer = FlatContoursBuffer::new(alloc);
    buffer.points.push(IntPoint::new(I::ONE, I::ZERO))?;
    buffer.ranges.push(Range { start: 0, end: 1 })?;
    Ok(buffer)
}

/// Whether the buffer is as `filled` gives it.
pub fn is_filled<I: IntNumber>(buffer: &FlatContoursBuffer<I>) -> bool {
    let (Some(point), Some(range)) = (buffer.points.first(), buffer.ranges.first()) else {
        return false;
    };
    *point == IntPoint::new(I::ONE, I::ZERO)
        && (range.start, range.end) == (0, 1)
        && (buffer.points.len(), buffer.ranges.len()) == (1, 1)
}

/// Fails where the shapes are not these, or the buffer has not their contours.
pub fn expect_answers<I: IntNumber + Debug>(
    shapes: &IntShapes<I>,
    buffer: &FlatContoursBuffer<I>,
    wanted: &[&[&[(I, I)]]],
) -> Result<(), Fail> {
    if !are_shapes(shapes, wanted) {
        return Err(Fail::new(format_args!("{shapes:?} and not {wanted:?}")));
    }
    if !holds(buffer, wanted) {
        return Err(Fail::new(format_args!("{buffer:?} and not {wanted:?}")));
    }
    Ok(())
}
