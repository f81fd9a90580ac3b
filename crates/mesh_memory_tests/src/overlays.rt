//! Overlays and segments for which memory is refused.

ghost use Rattle.std.specs.Prelude.{◌^◌, IfOk};
ghost use Rattle.mesh_below.specs.Asked.{AreResolvable};

use crate::near::{expect_near, expect_same_near};
use mesh_below::below::{FillRule, Overlay, OverlayRule};
use mesh_below::checks::are_resolvable;
use mesh_below::nearness::{SplitCount, SplitError};
use mesh_num::num::IntPoint;
use mesh_num::shape::buffer::FlatContoursBuffer;
use mesh_num::shape::segment::SubjectSegments;
use mesh_test_support::compared::{expect_equal, filled};
use mesh_test_support::lists::segments;
use mesh_test_support::refused::{
    expect_added, expect_answer, expect_buffer, expect_same_buffer, one_segment,
};
use mesh_test_support::{marks, outer};
use std::alloc::{AllocError, Global};
use std::test::Fail;

const SUBJECT: OverlayRule = OverlayRule::Subject;

const POSITIVE: FillRule = FillRule::Positive;

/// Three squares, two of which overlap.
const SQUARES: &[&[(i32, i32)]] = &[outer!(0, 0, 4, 4), outer!(2, 2, 6, 6), outer!(10, 0, 14, 4)];

/// An overlay of the squares, which may be resolved.
fn squares(alloc: Global) -> Result<Overlay<i32>, Fail>
    ensures { IfOk result (λ overlay. AreResolvable (2 ^ 30) overlay.segments.items) }
{
    let overlay = Overlay::with_segments(segments(alloc, SQUARES)?);
    if are_resolvable(alloc, &overlay.segments)? {
        Ok(overlay)
    } else {
        Err(Fail::new("these segments are not to be resolved"))
    }
}

#[test]
fn overlay(rt: HostRuntime) -> Result<(), Fail> {
    let overlay = squares(rt.alloc())?;
    let wanted = overlay.overlay(SUBJECT, POSITIVE)?;
    marks::begin(rt.alloc())?;
    let first = overlay.overlay(SUBJECT, POSITIVE);
    marks::end(rt.alloc())?;
    expect_answer(&first, &wanted, &AllocError)?;
    let again = overlay.overlay(SUBJECT, POSITIVE)?;
    expect_equal(&again, &wanted, &"the next call")
}

#[test]
fn overlay_into(rt: HostRuntime) -> Result<(), Fail> {
    let overlay = squares(rt.alloc())?;
    let (mut buffer, mut wanted) = (filled(rt.alloc())?, FlatContoursBuffer::new(rt.alloc()));
    overlay.overlay_into(SUBJECT, POSITIVE, &mut wanted)?;
    marks::begin(rt.alloc())?;
    let first = overlay.overlay_into(SUBJECT, POSITIVE, &mut buffer);
    marks::end(rt.alloc())?;
    expect_buffer(&first, &buffer, &wanted, &AllocError)?;
    overlay.overlay_into(SUBJECT, POSITIVE, &mut buffer)?;
    expect_same_buffer(&buffer, &wanted)
}

#[test]
fn overlay_with_nearness(rt: HostRuntime) -> Result<(), Fail> {
    let overlay = squares(rt.alloc())?;
    let (mut counted, mut count) = (SplitCount::new(0), SplitCount::new(0));
    let wanted = overlay.overlay_with_nearness(SUBJECT, POSITIVE, &mut counted)?;
    marks::begin(rt.alloc())?;
    let first = overlay.overlay_with_nearness(SUBJECT, POSITIVE, &mut count);
    marks::end(rt.alloc())?;
    expect_near(
        &first,
        count,
        &wanted,
        counted.made,
        &SplitError::OutOfMemory,
    )?;
    let again = overlay.overlay_with_nearness(SUBJECT, POSITIVE, &mut count)?;
    expect_same_near(&again, &wanted)
}

/// After a refusal the overlay has what it had, and the next call adds all.
#[test]
fn add_segments(rt: HostRuntime) -> Result<(), Fail> {
    let more = segments(rt.alloc(), SQUARES)?;
    let mut wanted = one_segment(rt.alloc())?;
    wanted.extend_from_slice(&more)?;
    let mut overlay = Overlay::with_segments(one_segment(rt.alloc())?);
    marks::begin(rt.alloc())?;
    let first = overlay.add_segments(&more);
    marks::end(rt.alloc())?;
    expect_added(first.is_ok(), &overlay.segments, &wanted)?;
    overlay.segments.truncate(1);
    overlay.add_segments(&more)?;
    expect_added(true, &overlay.segments, &wanted)
}

/// After a refusal the vector has what it had, and the next call adds the segment.
#[test]
fn push_non_degenerate(rt: HostRuntime) -> Result<(), Fail> {
    let (a, b) = (IntPoint::new(9, 9), IntPoint::new(5, 5));
    let mut segments = one_segment(rt.alloc())?;
    let mut wanted = one_segment(rt.alloc())?;
    wanted.push_non_degenerate(a, b)?;
    marks::begin(rt.alloc())?;
    let first = segments.push_non_degenerate(a, b);
    marks::end(rt.alloc())?;
    expect_added(first.is_ok(), &segments, &wanted)?;
    segments.truncate(1);
    segments.push_non_degenerate(a, b)?;
    expect_added(true, &segments, &wanted)
}
