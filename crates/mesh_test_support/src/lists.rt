//! Points of tables, and the paths and segments that are made of them.

use mesh_num::num::{IntNumber, IntPoint};
use mesh_num::shape::segment::{Segment, SubjectSegments};
use std::alloc::{AllocError, Global};

/// A point as a table writes it.
pub type Spot = (i32, i32);

/// A rectangle of a table, counterclockwise from its least corner.
#[macro_export]
macro_rules! outer {
    ($x0:expr, $y0:expr, $x1:expr, $y1:expr) => {
        &[($x0, $y0), ($x1, $y0), ($x1, $y1), ($x0, $y1)]
    };
}

/// A rectangle of a table, clockwise from its least corner.
#[macro_export]
macro_rules! inner {
    ($x0:expr, $y0:expr, $x1:expr, $y1:expr) => {
        &[($x0, $y0), ($x0, $y1), ($x1, $y1), ($x1, $y0)]
    };
}

/// The path of these points.
pub fn path<I: IntNumber>(alloc: Global, spots: &[(I, I)]) -> Result<Vec<IntPoint<I>>, AllocError> {
    let mut path = Vec::new(alloc);
    for (x, y) in spots {
        path.push(IntPoint::new(*x, *y))?;
    }
    Ok(path)
}

/// The paths of these points.
pub fn paths<I: IntNumber>(
    alloc: Global,
    contours: &[&[(I, I)]],
) -> Result<Vec<Vec<IntPoint<I>>>, AllocError> {
    let mut paths = Vec::new(alloc);
    for contour in contours {
        paths.push(path(alloc, contour)?)?;
    }
    Ok(paths)
}

/// The shapes of these points.
pub fn shapes<I: IntNumber>(
    alloc: Global,
    shapes: &[&[&[(I, I)]]],
) -> Result<Vec<Vec<Vec<IntPoint<I>>>>, AllocError> {
    let mut made = Vec::new(alloc);
    for shape in shapes {
        made.push(paths(alloc, shape)?)?;
    }
    Ok(made)
}

/// Adds the edges of a contour.
pub fn push_contour<I: IntNumber>(
    segments: &mut Vec<Segment<I>>,
    contour: &[IntPoint<I>],
) -> Result<(), AllocError> {
    let Some(last) = contour.last() else {
        return Ok(());
    };
    let mut before = *last;
    for point in contour {
        segments.push_non_degenerate(before, *point)?;
        before = *point;
    }
    Ok(())
}

/// The edges of closed lists of points.
pub fn segments<I: IntNumber>(
    alloc: Global,
    contours: &[&[(I, I)]],
) -> Result<Vec<Segment<I>>, AllocError> {
    let mut segments = Vec::new(alloc);
    for contour in contours {
        push_contour(&mut segments, &path(alloc, contour)?)?;
    }
    Ok(segments)
}
