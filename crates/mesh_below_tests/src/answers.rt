//! What an overlay answers.

ghost use Rattle.std.specs.Prelude.{OnOk};
ghost use Rattle.mesh_below.specs.Asked.{AreResolvable};

use mesh_below::below::{FillRule, Overlay, OverlayRule};
use mesh_below::checks::are_resolvable;
use mesh_num::num::{IntNumber, IntPoint};
use mesh_num::shape::buffer::{FlatContoursBuffer, IntShapes};
use mesh_test_support::compared::expect_answers;
use mesh_test_support::lists::segments;
use std::alloc::{AllocError, Global};
use std::test::Fail;

/// A contour of a table.
pub type Row = &'static [(i32, i32)];

/// The shapes of a table.
pub type Shapes = &'static [&'static [Row]];

/// An overlay of the edges of closed lists of points.
pub fn overlay_of(alloc: Global, contours: &[&[(i32, i32)]]) -> Result<Overlay<i32>, AllocError> {
    Ok(Overlay::with_segments(segments(alloc, contours)?))
}

/// Fails where the overlay's segments are not such as it asks.
pub fn expect_resolvable<I: IntNumber>(overlay: &Overlay<I>) -> Result<(), Fail>
    ensures { OnOk result (AreResolvable I.unit overlay.now.segments.items) }
{
    let alloc = *overlay.segments.allocator();
    if are_resolvable(alloc, &overlay.segments)? {
        return Ok(());
    }
    Err(Fail::new("these segments are not to be resolved"))
}

/// The shapes that the overlay answers.
pub fn answered_shapes(overlay: &Overlay<i32>, fill: FillRule) -> Result<IntShapes<i32>, Fail> {
    expect_resolvable(overlay)?;
    Ok(overlay.overlay(OverlayRule::Subject, fill)?)
}

/// The overlay answers these shapes, and puts their contours in place of a buffer's.
pub fn expect(
    overlay: &Overlay<i32>,
    fill: FillRule,
    wanted: &[&[&[(i32, i32)]]],
) -> Result<(), Fail> {
    let alloc = *overlay.segments.allocator();
    expect_resolvable(overlay)?;
    let shapes = overlay.overlay(OverlayRule::Subject, fill)?;
    let mut buffer = FlatContoursBuffer::new(alloc);
    buffer.points.push(IntPoint::new(7, 7))?;
    overlay.overlay_into(OverlayRule::Subject, fill, &mut buffer)?;
    expect_answers(&shapes, &buffer, wanted)
}
