//! Shapes of grid points as shapes of the caller's points, and back.

ghost use Rattle.std.specs.Prelude.{◌≡◌, [], ◌∷◌, IfOk, OnOk};
ghost use Rattle.std.specs.List.{All};
ghost use Rattle.mesh_plane.specs.Bounds.{IsSafe};
ghost use Rattle.mesh_num.specs.Paths.{contours_of, paths_of, shapes_of};
ghost use Rattle.mesh_below.specs.Private.Rings.{PushesContours};
ghost use Rattle.mesh_lattice.specs.Reach.{ArePointsSafe};

use crate::given::lattice_point;
use mesh_lattice::lattice::LatticePoint;
use mesh_num::num::convert::narrow;
use mesh_num::num::{IntNumber, IntPoint};
use mesh_num::shape::buffer::IntShapes;
use std::alloc::{AllocError, Global};

/// A point in the safe range with coordinates of the caller's width.
fn int_point<I: IntNumber>(p: LatticePoint) -> IntPoint<I>
    requires { IsSafe I.unit p }
    ensures { result ≡ p }
{
    IntPoint::new(narrow(p.0 as i128), narrow(p.1 as i128))
}

/// A contour of such points.
fn int_contour<I: IntNumber>(
    alloc: Global,
    contour: &[LatticePoint],
) -> Result<Vec<IntPoint<I>>, AllocError>
    requires { All (IsSafe I.unit) contour.now }
    ensures { IfOk result (λ v. v.items ≡ contour.now) }
{
    let mut points = Vec::with_capacity(alloc, contour.len())?;
    for p in contour {
        points.push(int_point(*p))?;
    }
    Ok(points)
}

/// A shape of such contours.
fn int_shape<I: IntNumber>(
    alloc: Global,
    shape: &[Vec<LatticePoint>],
) -> Result<Vec<Vec<IntPoint<I>>>, AllocError>
    requires { All (λ c. All (IsSafe I.unit) c) (paths_of shape.now) }
    ensures { IfOk result (λ v. paths_of v.items ≡ paths_of shape.now) }
{
    let mut contours = Vec::with_capacity(alloc, shape.len())?;
    for contour in shape {
        contours.push(int_contour(alloc, contour)?)?;
    }
    Ok(contours)
}

/// Shapes of points in the safe range, with coordinates of the caller's width.
pub fn int_shapes<I: IntNumber>(
    alloc: Global,
    shapes: &[Vec<Vec<LatticePoint>>],
) -> Result<IntShapes<I>, AllocError>
    requires { ArePointsSafe I.unit (shapes_of shapes.now) }
    ensures { IfOk result (λ v. shapes_of v.items ≡ shapes_of shapes.now) }
{
    let mut answer = Vec::with_capacity(alloc, shapes.len())?;
    for shape in shapes {
        answer.push(int_shape(alloc, shape)?)?;
    }
    Ok(answer)
}

/// A contour as points of the grid.
fn lattice_contour<I: IntNumber>(
    alloc: Global,
    contour: &[IntPoint<I>],
) -> Result<Vec<LatticePoint>, AllocError>
    ensures { IfOk result (λ v. v.items ≡ contour.now) }
{
    let mut points = Vec::with_capacity(alloc, contour.len())?;
    for p in contour {
        points.push(lattice_point(*p))?;
    }
    Ok(points)
}

/// Adds a contour, if it has a point.
fn push_contour<I: IntNumber>(
    alloc: Global,
    contours: &mut Vec<Vec<LatticePoint>>,
    contour: &[IntPoint<I>],
) -> Result<(), AllocError>
    ensures { OnOk result (PushesContours contours.old.items contours.new.items (contour.now ∷ [])) }
{
    if contour.is_empty() {
        return Ok(());
    }
    contours.push(lattice_contour(alloc, contour)?)?;
    Ok(())
}

/// Adds the contours of a shape that have a point.
fn push_contours<I: IntNumber>(
    alloc: Global,
    contours: &mut Vec<Vec<LatticePoint>>,
    shape: &[Vec<IntPoint<I>>],
) -> Result<(), AllocError>
    ensures { OnOk result (PushesContours contours.old.items contours.new.items (paths_of shape.now)) }
{
    for contour in shape {
        push_contour(alloc, contours, contour)?;
    }
    Ok(())
}

/// The contours of shapes that have a point.
pub fn lattice_contours<I: IntNumber>(
    alloc: Global,
    shapes: &[Vec<Vec<IntPoint<I>>>],
) -> Result<Vec<Vec<LatticePoint>>, AllocError>
    ensures { IfOk result (λ v. PushesContours [] v.items (contours_of (shapes_of shapes.now))) }
{
    let mut contours = Vec::new(alloc);
    for shape in shapes {
        push_contours(alloc, &mut contours, shape)?;
    }
    Ok(contours)
}
