//! What the outline calls answer, against tables.

use i_overlay_mesh::IntOutlineError;
use i_overlay_mesh::outline::offset::IntOutlineOffset;
use mesh_below::below::IntOverlayOptions;
use mesh_join::style::IntOutlineStyle;
use mesh_num::num::OverlayInt;
use mesh_num::shape::buffer::{FlatContoursBuffer, IntShapes};
use mesh_num::shape::resource::IntShapeResource;
use mesh_test_support::compared::{expect_answers, filled, is_filled};
use std::alloc::Global;
use std::fmt::Debug;
use std::test::Fail;

/// What one call answers.
type Answer<T> = Result<T, IntOutlineError>;

/// The shapes with these options, of a source that the style may move.
fn custom_shapes<I: OverlayInt, S: IntShapeResource<I>>(
    alloc: Global,
    source: &S,
    style: &IntOutlineStyle<I>,
    options: IntOverlayOptions<I::WideUInt>,
) -> Answer<IntShapes<I>> {
    source.validate_outline(style)?;
    source.outline_custom(alloc, style, options)
}

/// The same, into a buffer.
fn custom_into<I: OverlayInt, S: IntShapeResource<I>>(
    alloc: Global,
    source: &S,
    style: &IntOutlineStyle<I>,
    options: IntOverlayOptions<I::WideUInt>,
    buffer: &mut FlatContoursBuffer<I>,
) -> Answer<()> {
    source.validate_outline(style)?;
    source.outline_custom_into(alloc, style, options, buffer)
}

/// The shapes by the call that names no options, of a source that the style may move.
fn default_shapes<I: OverlayInt, S: IntShapeResource<I>>(
    alloc: Global,
    source: &S,
    style: &IntOutlineStyle<I>,
) -> Answer<IntShapes<I>> {
    source.validate_outline(style)?;
    source.outline(alloc, style)
}

/// The same, into a buffer.
fn default_into<I: OverlayInt, S: IntShapeResource<I>>(
    alloc: Global,
    source: &S,
    style: &IntOutlineStyle<I>,
    buffer: &mut FlatContoursBuffer<I>,
) -> Answer<()> {
    source.validate_outline(style)?;
    source.outline_into(alloc, style, buffer)
}

/// With these options the source answers these shapes, at each call, and puts their contours in place of a buffer's.
pub fn expect_custom<I: OverlayInt + Debug, S: IntShapeResource<I>>(
    alloc: Global,
    source: &S,
    style: &IntOutlineStyle<I>,
    options: IntOverlayOptions<I::WideUInt>,
    wanted: &[&[&[(I, I)]]],
) -> Result<(), Fail> {
    let mut buffer = filled(alloc)?;
    expect_once(alloc, source, style, options, wanted, &mut buffer)?;
    expect_once(alloc, source, style, options, wanted, &mut buffer)
}

/// The same, for one call of each kind.
fn expect_once<I: OverlayInt + Debug, S: IntShapeResource<I>>(
    alloc: Global,
    source: &S,
    style: &IntOutlineStyle<I>,
    options: IntOverlayOptions<I::WideUInt>,
    wanted: &[&[&[(I, I)]]],
    buffer: &mut FlatContoursBuffer<I>,
) -> Result<(), Fail> {
    let shapes = custom_shapes(alloc, source, style, options)?;
    custom_into(alloc, source, style, options, buffer)?;
    expect_answers(&shapes, buffer, wanted)
}

/// The same with the default options, by the calls that name none too.
pub fn expect<I: OverlayInt + Debug, S: IntShapeResource<I>>(
    alloc: Global,
    source: &S,
    style: &IntOutlineStyle<I>,
    wanted: &[&[&[(I, I)]]],
) -> Result<(), Fail> {
    let mut buffer = filled(alloc)?;
    let shapes = default_shapes(alloc, source, style)?;
    default_into(alloc, source, style, &mut buffer)?;
    expect_answers(&shapes, &buffer, wanted)?;
    expect_custom(alloc, source, style, IntOverlayOptions::new(), wanted)
}

/// Fails where the answer is no refusal of the range, or the buffer has changed.
fn expect_refusal<I: OverlayInt + Debug, T: Drop>(
    answer: Answer<T>,
    buffer: &FlatContoursBuffer<I>,
) -> Result<(), Fail> {
    let error = answer.err();
    if error == Some(IntOutlineError::CoordinateOutOfRange) && is_filled(buffer) {
        return Ok(());
    }
    Err(Fail::new(format_args!("{error:?} with {buffer:?}")))
}

/// All four calls refuse the areas of the source, though its points are accepted, and the buffer is unchanged.
pub fn expect_refused<I: OverlayInt + Debug, S: IntShapeResource<I>>(
    alloc: Global,
    source: &S,
    style: &IntOutlineStyle<I>,
) -> Result<(), Fail> {
    source.validate_outline(style)?;
    let mut buffer = filled(alloc)?;
    expect_refusals(alloc, source, style, &mut buffer)
}

/// The same, of a source whose points are accepted.
fn expect_refusals<I: OverlayInt + Debug, S: IntShapeResource<I>>(
    alloc: Global,
    source: &S,
    style: &IntOutlineStyle<I>,
    buffer: &mut FlatContoursBuffer<I>,
) -> Result<(), Fail> {
    let options = IntOverlayOptions::new();
    expect_refusal(default_shapes(alloc, source, style), buffer)?;
    expect_refusal(custom_shapes(alloc, source, style, options), buffer)?;
    expect_refusal(default_into(alloc, source, style, buffer), buffer)?;
    expect_refusal(custom_into(alloc, source, style, options, buffer), buffer)
}
