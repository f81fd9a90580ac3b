//! What stands after a call for which memory may have been refused.

use crate::compared::{are_same_segments, expect_equal, expect_that, is_filled};
use mesh_num::num::{IntNumber, IntPoint};
use mesh_num::shape::buffer::FlatContoursBuffer;
use mesh_num::shape::segment::{Segment, SubjectSegments};
use std::alloc::{AllocError, Global};
use std::fmt::Debug;
use std::test::Fail;

/// A call answered what it answers undisturbed, or this error.
pub fn expect_answer<T: PartialEq + Debug, E: PartialEq + Debug>(
    found: &Result<T, E>,
    wanted: &T,
    out_of_memory: &E,
) -> Result<(), Fail> {
    match found {
        Ok(found) => expect_equal(found, wanted, &"an answer"),
        Err(error) => expect_equal(error, out_of_memory, &"a refusal"),
    }
}

/// A vector of one segment, with room for no other.
pub fn one_segment(alloc: Global) -> Result<Vec<Segment<i32>>, AllocError> {
    let mut segments = Vec::with_capacity(alloc, 1)?;
    segments.push_non_degenerate(IntPoint::new(1, 2), IntPoint::new(3, 4))?;
    Ok(segments)
}

/// Whether these are just the segment of `one_segment`.
fn is_one(segments: &[Segment<i32>]) -> bool {
    let Some(segment) = segments.first() else {
        return false;
    };
    let ends = segment.x_segment;
    segments.len() == 1
        && (ends.a, ends.b) == (IntPoint::new(1, 2), IntPoint::new(3, 4))
        && segment.count == 1
}

/// A call that adds to `one_segment` added what it adds undisturbed, or left it as it was.
pub fn expect_added(
    is_added: bool,
    found: &[Segment<i32>],
    wanted: &[Segment<i32>],
) -> Result<(), Fail> {
    if is_added {
        expect_that(are_same_segments(found, wanted), &found)
    } else {
        expect_that(is_one(found), &found)
    }
}

/// Fails where two buffers differ.
pub fn expect_same_buffer<I: IntNumber + Debug>(
    found: &FlatContoursBuffer<I>,
    wanted: &FlatContoursBuffer<I>,
) -> Result<(), Fail> {
    expect_equal(&found.points, &wanted.points, &"points")?;
    expect_equal(&found.ranges, &wanted.ranges, &"ranges")
}

/// A call put into a buffer what it puts there undisturbed; or it answered this error, and the buffer is still as
/// `filled` gives it.
pub fn expect_buffer<I: IntNumber + Debug, E: PartialEq + Debug>(
    done: &Result<(), E>,
    found: &FlatContoursBuffer<I>,
    wanted: &FlatContoursBuffer<I>,
    out_of_memory: &E,
) -> Result<(), Fail> {
    match done {
        Ok(()) => expect_same_buffer(found, wanted),
        Err(error) => {
            expect_equal(error, out_of_memory, &"a refusal")?;
            expect_that(is_filled(found), found)
        }
    }
}
