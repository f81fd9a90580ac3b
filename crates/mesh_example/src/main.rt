//! A plate with a window is moved outwards, and what comes of it is printed: a line for each contour.
#![tactic(auto)]

use i_overlay_mesh::{IntOutlineOffset, IntOutlineStyle, IntPoint};
use std::alloc::{AllocError, Global};

/// The boundary of the plate, counterclockwise.
const PLATE: [(i32, i32); 4] = [(0, 0), (90, 0), (90, 60), (0, 60)];

/// The boundary of its window, clockwise.
const WINDOW: [(i32, i32); 4] = [(30, 20), (30, 40), (60, 40), (60, 20)];

/// The contour through these corners.
fn contour(alloc: Global, corners: &[(i32, i32)]) -> Result<Vec<IntPoint<i32>>, AllocError> {
    let mut points = Vec::new(alloc);
    for (x, y) in corners {
        points.push(IntPoint::new(*x, *y))?;
    }
    Ok(points)
}

/// The points of a contour in one line of text.
fn listed(alloc: Global, contour: &[IntPoint<i32>]) -> Result<String, AllocError> {
    let mut line = String::new(alloc);
    for IntPoint { x, y } in contour {
        write!(line, " ({x}, {y})")?;
    }
    Ok(line)
}

fn main(rt: HostRuntime) -> anyhow::Result<()> {
    let alloc = rt.alloc();
    let contours = vec![in alloc; contour(alloc, &PLATE)?, contour(alloc, &WINDOW)?]?;
    let style = IntOutlineStyle::new(5);
    contours.validate_outline(&style)?;
    for shape in contours.outline(alloc, &style)? {
        for (index, contour) in shape.iter().enumerate() {
            let kind = if index == 0 { "boundary" } else { "hole" };
            let points = listed(alloc, contour)?;
            println!(rt; "{kind}:{points}")?;
        }
    }
    Ok(())
}
