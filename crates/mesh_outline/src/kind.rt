//! Whether a contour is an outer boundary or a hole, by the sign of its area.

ghost use Rattle.std.specs.Prelude.{◌≡◌, ◌↔◌, map, IfOk, OnOk};
ghost use Rattle.mesh_outline.specs.Kinds.{kind_for, contour_kind};
ghost use Rattle.mesh_outline.specs.Resolved.{DoAreasFit};

use crate::area::{double_area, fits_wide};
use mesh_num::num::IntNumber;
use mesh_num::shape::resource::IntShapeResource;
use mesh_offset::error::IntOutlineError;
use std::alloc::Global;

/// The kind of a closed contour. It decides by which offset the contour moves, and which side of it is filled.
#[derive(Debug, Copy, Clone, PartialEq, Eq)]
pub enum ContourKind {
    /// An outer boundary: its area is above 0, since it runs counterclockwise. It moves by the outer offset.
    Outer,
    /// A hole: its area is below 0, since it runs clockwise. It moves by the inner offset.
    Hole,
    /// A contour of area 0. It does not move, and nothing comes of it.
    Ignored,
}

impl ContourKind {
    /// The kind of a contour of this double area, in squares of the grid.
    pub fn of_area(double_area: i128) -> Self
        ensures { result ≡ kind_for double_area }
    {
        if double_area > 0 {
            ContourKind::Outer
        } else if double_area < 0 {
            ContourKind::Hole
        } else {
            ContourKind::Ignored
        }
    }
}

/// The kind of each path of the source, in order. The double area of each is computed once. `CoordinateOutOfRange` is
/// answered exactly where one does not fit the wide type, whatever memory there is, else `OutOfMemory` where a growth
/// was refused.
pub fn contour_kinds<I: IntNumber, S: IntShapeResource<I>>(
    source: &S,
    alloc: Global,
) -> Result<Vec<ContourKind>, IntOutlineError>
    ensures kinds { IfOk result (λ kinds. kinds.items ≡ map contour_kind (S.paths source.now)) }
    ensures fit { OnOk result (DoAreasFit I.Wide.half (S.paths source.now)) }
    ensures refused { result ≡ Err IntOutlineError.CoordinateOutOfRange
        ↔ ¬ DoAreasFit I.Wide.half (S.paths source.now) }
{
    let mut kinds = Vec::new(alloc);
    let mut refused = kinds.reserve_exact(source.path_count()).is_err();
    for index in 0..source.path_count() {
        let area = double_area(source.path_at(index));
        if !fits_wide::<I>(area) {
            return Err(IntOutlineError::CoordinateOutOfRange);
        }
        // After a refusal the areas that are left are still looked at: what does not fit is told, not the refusal.
        refused = refused || kinds.push(ContourKind::of_area(area)).is_err();
    }
    if refused {
        return Err(IntOutlineError::OutOfMemory);
    }
    Ok(kinds)
}
