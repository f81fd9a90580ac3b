//! The shapes that the stroke calls answer, against tables: each call, with options and without.

use crate::tables::shapes::SHAPES;
use crate::values::{Contour, paths, shapes, style};
use i_overlay_mesh::IntVariableStrokeError;
use i_overlay_mesh::variable_stroke::offset::IntVariableStrokeOffset;
use i_overlay_mesh::variable_stroke::resource::IntVariableStrokeSource;
use mesh_below::below::{ContourDirection, IntOverlayOptions};
use mesh_drawing::coordinate::narrowed_area;
use mesh_join::style::{IntStrokeVertex, IntVariableStrokeStyle, MathMode};
use mesh_num::num::OverlayInt;
use mesh_num::shape::buffer::{FlatContoursBuffer, IntShapes};
use mesh_test_support::compared::{expect_answers, expect_equal, filled};
use mesh_test_support::rows::{broken, fields, is_for, numbers};
use std::alloc::{AllocError, Global};
use std::fmt::Debug;
use std::test::Fail;

/// The options of a field: the least area, whether contours are clockwise, and whether they keep points on a line.
fn options<I: OverlayInt>(
    alloc: Global,
    field: &str,
) -> Result<IntOverlayOptions<I::WideUInt>, Fail> {
    let numbers = numbers(alloc, field)?;
    let [area, clockwise, collinear] = numbers.as_slice() else {
        return Err(broken(field));
    };
    let Some(least) = narrowed_area::<I>(u128::try_from(*area)?) else {
        return Err(broken(field));
    };
    let mut options = IntOverlayOptions::new();
    options.min_output_area = least;
    if *clockwise == 1 {
        options.output_direction = ContourDirection::Clockwise;
    }
    options.preserve_output_collinear = *collinear == 1;
    Ok(options)
}

/// The shapes that the source answers with these options. Their contours take the place of the buffer's.
fn answered<I: OverlayInt, S: IntVariableStrokeSource<I>>(
    alloc: Global,
    source: &S,
    style: &IntVariableStrokeStyle,
    options: IntOverlayOptions<I::WideUInt>,
    buffer: &mut FlatContoursBuffer<I>,
) -> Result<IntShapes<I>, IntVariableStrokeError> {
    source.validate_variable_stroke()?;
    let shapes = source.variable_stroke_custom(alloc, *style, options)?;
    source.variable_stroke_custom_into(alloc, *style, options, buffer)?;
    Ok(shapes)
}

/// The same with the default options, by the calls that name none.
fn answered_by_default<I: OverlayInt, S: IntVariableStrokeSource<I>>(
    alloc: Global,
    source: &S,
    style: &IntVariableStrokeStyle,
    buffer: &mut FlatContoursBuffer<I>,
) -> Result<IntShapes<I>, IntVariableStrokeError> {
    source.validate_variable_stroke()?;
    let shapes = source.variable_stroke(alloc, *style)?;
    source.variable_stroke_into(alloc, *style, buffer)?;
    Ok(shapes)
}

/// With these options the source answers these shapes, at each call, and puts their contours in place of a buffer's.
fn expect_custom<I: OverlayInt + Debug, S: IntVariableStrokeSource<I>>(
    alloc: Global,
    source: &S,
    style: &IntVariableStrokeStyle,
    options: IntOverlayOptions<I::WideUInt>,
    wanted: &[&[&[(I, I)]]],
) -> Result<(), Fail> {
    let mut buffer = filled(alloc)?;
    for _ in 0..2 {
        let shapes = answered(alloc, source, style, options, &mut buffer)?;
        expect_answers(&shapes, &buffer, wanted)?;
    }
    Ok(())
}

/// By the calls that name no options the source answers these shapes, and puts their contours in place of a buffer's.
fn expect_default<I: OverlayInt + Debug, S: IntVariableStrokeSource<I>>(
    alloc: Global,
    source: &S,
    style: &IntVariableStrokeStyle,
    wanted: &[&[&[(I, I)]]],
) -> Result<(), Fail> {
    let mut buffer = filled(alloc)?;
    let shapes = answered_by_default(alloc, source, style, &mut buffer)?;
    expect_answers(&shapes, &buffer, wanted)
}

/// With the default options the source answers these shapes, whether or not a call names the options.
fn expect<I: OverlayInt + Debug, S: IntVariableStrokeSource<I>>(
    alloc: Global,
    source: &S,
    style: &IntVariableStrokeStyle,
    wanted: &[&[&[(I, I)]]],
) -> Result<(), Fail> {
    expect_default(alloc, source, style, wanted)?;
    expect_custom(alloc, source, style, IntOverlayOptions::new(), wanted)
}

/// The paths are stroked to these shapes with the options of a field, and by default where it has the default ones.
fn expect_choices<I: OverlayInt + Debug>(
    alloc: Global,
    paths: &Vec<Vec<IntStrokeVertex<I>>>,
    style: &IntVariableStrokeStyle,
    choices: &str,
    wanted: &[&[&[(I, I)]]],
) -> Result<(), Fail> {
    if choices == "0 0 0" {
        expect(alloc, paths, style, wanted)?;
    }
    expect_custom(alloc, paths, style, options::<I>(alloc, choices)?, wanted)
}

/// The same of shapes as lists.
fn expect_shapes<I: OverlayInt + Debug>(
    alloc: Global,
    paths: &Vec<Vec<IntStrokeVertex<I>>>,
    style: &IntVariableStrokeStyle,
    choices: &str,
    wanted: &[Vec<Contour<I>>],
) -> Result<(), Fail> {
    let contours = contours(alloc, wanted)?;
    expect_choices(alloc, paths, style, choices, &slices(alloc, &contours)?)
}

/// The paths of the row are stroked as it says, where it is meant for this width.
fn expect_row<I: OverlayInt + Debug>(
    alloc: Global,
    row: &str,
    fields: &[&str],
) -> Result<(), Fail> {
    let [width, arc, lists, choices, wanted] = fields else {
        return Err(broken(row));
    };
    if !is_for::<I>(width) {
        return Ok(());
    }
    let style = style(alloc, arc)?;
    let paths = paths::<I>(alloc, lists)?;
    expect_shapes(alloc, &paths, &style, choices, &shapes::<I>(alloc, wanted)?)
}

/// The contours of each shape.
fn contours<I: OverlayInt>(
    alloc: Global,
    shapes: &[Vec<Contour<I>>],
) -> Result<Vec<Vec<&[(I, I)]>>, AllocError> {
    let mut contours = Vec::new(alloc);
    for shape in shapes {
        contours.push(slices(alloc, shape)?)?;
    }
    Ok(contours)
}

/// The items of each list.
fn slices<T>(alloc: Global, lists: &[Vec<T>]) -> Result<Vec<&[T]>, AllocError> {
    let mut slices = Vec::new(alloc);
    for list in lists {
        slices.push(list.as_slice())?;
    }
    Ok(slices)
}

#[test]
fn stored_shapes(rt: HostRuntime) -> Result<(), Fail> {
    for row in SHAPES.lines() {
        let fields = fields(rt.alloc(), row)?;
        expect_row::<i16>(rt.alloc(), row, &fields)?;
        expect_row::<i32>(rt.alloc(), row, &fields)?;
    }
    Ok(())
}

/// No path has no shapes, which take the place of a buffer's too; and the default style is the one of the tables.
#[test]
fn no_path(rt: HostRuntime) -> Result<(), Fail> {
    let none: Vec<Vec<IntStrokeVertex<i32>>> = Vec::new(rt.alloc());
    let plain = IntVariableStrokeStyle::default();
    expect(rt.alloc(), &none, &plain, &[])?;
    let told = style(rt.alloc(), "68356528 5")?;
    expect_equal(&plain.arc, &told.arc, &"the arcs")?;
    expect_equal(&plain.math, &MathMode::Integer, &"the arithmetic")
}
