//! Paths, styles and shapes out of the fields of rows.

use mesh_drawing::coordinate::narrowed;
use mesh_join::arc::ArcOptions;
use mesh_join::style::{IntStrokeVertex, IntVariableStrokeStyle};
use mesh_num::num::{Angle, IntPoint, OverlayInt};
use mesh_test_support::plain::Point;
use mesh_test_support::rows::{Triple, broken, numbers, points, triples};
use std::alloc::Global;
use std::test::Fail;

/// A number of the width `I`.
fn number<I: OverlayInt>(number: i128) -> Result<I, Fail> {
    match narrowed(number) {
        Some(narrow) => Ok(narrow),
        None => Err(Fail::new(format_args!("{number} does not fit"))),
    }
}

/// The coordinates of a point.
fn spot<I: OverlayInt>((x, y): Point) -> Result<(I, I), Fail> {
    Ok((number(x)?, number(y)?))
}

/// The vertex of three numbers.
fn vertex<I: OverlayInt>((x, y, width): Triple) -> Result<IntStrokeVertex<I>, Fail> {
    let (x, y) = spot((x, y))?;
    Ok(IntStrokeVertex::new(IntPoint::new(x, y), number(width)?))
}

/// The vertices of a list.
pub fn vertices<I: OverlayInt>(alloc: Global, list: &str) -> Result<Vec<IntStrokeVertex<I>>, Fail> {
    let mut vertices = Vec::new(alloc);
    for triple in &triples(alloc, list)? {
        vertices.push(vertex(*triple)?)?;
    }
    Ok(vertices)
}

/// The paths of a field.
pub fn paths<I: OverlayInt>(
    alloc: Global,
    field: &str,
) -> Result<Vec<Vec<IntStrokeVertex<I>>>, Fail> {
    let mut paths = Vec::new(alloc);
    for list in field.split(';') {
        paths.push(vertices(alloc, list)?)?;
    }
    Ok(paths)
}

/// The style whose arcs have the bits and the precision of a field.
pub fn style(alloc: Global, field: &str) -> Result<IntVariableStrokeStyle, Fail> {
    let numbers = numbers(alloc, field)?;
    let [bits, precision] = numbers.as_slice() else {
        return Err(broken(field));
    };
    Ok(IntVariableStrokeStyle::new().arc(ArcOptions {
        max_step: Angle::from_bits(u32::try_from(*bits)?),
        rotation_precision: u32::try_from(*precision)?,
    }))
}

/// A contour's points, as a table of such numbers writes them.
pub type Contour<I> = Vec<(I, I)>;

/// The contour of a list.
fn contour<I: OverlayInt>(alloc: Global, list: &str) -> Result<Contour<I>, Fail> {
    let mut contour = Vec::new(alloc);
    for point in &points(alloc, list)? {
        contour.push(spot(*point)?)?;
    }
    Ok(contour)
}

/// The contours of a shape's lists.
fn shape<I: OverlayInt>(alloc: Global, lists: &str) -> Result<Vec<Contour<I>>, Fail> {
    let mut shape = Vec::new(alloc);
    for list in lists.split(';') {
        shape.push(contour(alloc, list)?)?;
    }
    Ok(shape)
}

/// The shapes of a field, between which it has slashes. An empty one has none.
pub fn shapes<I: OverlayInt>(alloc: Global, field: &str) -> Result<Vec<Vec<Contour<I>>>, Fail> {
    let mut shapes = Vec::new(alloc);
    if field.is_empty() {
        return Ok(shapes);
    }
    for lists in field.split('/') {
        shapes.push(shape(alloc, lists)?)?;
    }
    Ok(shapes)
}
