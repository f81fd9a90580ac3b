//! What the stroke calls answer, against tables.

use i_overlay_mesh::stroke::offset::IntStrokeOffset;
use mesh_below::below::IntOverlayOptions;
use mesh_join::style::IntStrokeStyle;
use mesh_num::num::OverlayInt;
use mesh_num::shape::buffer::FlatContoursBuffer;
use mesh_num::shape::resource::IntShapeResource;
use mesh_test_support::compared::{expect_answers, filled};
use std::alloc::Global;
use std::fmt::Debug;
use std::test::Fail;

/// With these options the source answers these shapes, at each call, and puts their contours in place of a buffer's.
pub fn expect_custom<I: OverlayInt + Debug, S: IntShapeResource<I>>(
    alloc: Global,
    source: &S,
    style: &IntStrokeStyle<I>,
    is_closed: bool,
    options: IntOverlayOptions<I::WideUInt>,
    wanted: &[&[&[(I, I)]]],
) -> Result<(), Fail> {
    let mut buffer = filled(alloc)?;
    expect_once(
        alloc,
        source,
        style,
        is_closed,
        options,
        wanted,
        &mut buffer,
    )?;
    expect_once(
        alloc,
        source,
        style,
        is_closed,
        options,
        wanted,
        &mut buffer,
    )
}

/// The same, for one call of each kind.
fn expect_once<I: OverlayInt + Debug, S: IntShapeResource<I>>(
    alloc: Global,
    source: &S,
    style: &IntStrokeStyle<I>,
    is_closed: bool,
    options: IntOverlayOptions<I::WideUInt>,
    wanted: &[&[&[(I, I)]]],
    buffer: &mut FlatContoursBuffer<I>,
) -> Result<(), Fail> {
    source.validate_stroke(style)?;
    let shapes = source.stroke_custom(alloc, style, is_closed, options)?;
    source.stroke_custom_into(alloc, style, is_closed, options, buffer)?;
    expect_answers(&shapes, buffer, wanted)
}

/// The same with the default options, by the calls that name none too.
pub fn expect<I: OverlayInt + Debug, S: IntShapeResource<I>>(
    alloc: Global,
    source: &S,
    style: &IntStrokeStyle<I>,
    is_closed: bool,
    wanted: &[&[&[(I, I)]]],
) -> Result<(), Fail> {
    source.validate_stroke(style)?;
    let mut buffer = filled(alloc)?;
    let shapes = source.stroke(alloc, style, is_closed)?;
    source.stroke_into(alloc, style, is_closed, &mut buffer)?;
    expect_answers(&shapes, &buffer, wanted)?;
    expect_custom(
        alloc,
        source,
        style,
        is_closed,
        IntOverlayOptions::new(),
        wanted,
    )
}
