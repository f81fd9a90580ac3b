//! The corners of a contour.

ghost use Rattle.std.specs.Prelude.{◌≡◌, ◌^◌, map, IfOk};
ghost use Rattle.std.specs.List.{All};
ghost use Rattle.mesh_num.specs.Bounds.{IsSafe};
ghost use Rattle.mesh_join.specs.Cleaned.{cleaned_sections};

use mesh_join::laws::equal_points_have_no_sections;
use mesh_join::uniq_iter::UniqueSegmentsIter;
use mesh_num::num::IntPoint;
use std::alloc::{AllocError, Global};

/// The corners of a closed contour: its points without repeats and without those that it runs straight through, none
/// where all are one.
pub fn corners(alloc: Global, contour: &[IntPoint<i32>]) -> Result<Vec<IntPoint<i32>>, AllocError>
    requires { All (IsSafe (2 ^ 30)) contour.now }
    ensures { IfOk result (λ corners. corners.items ≡ map (λ e. e.0) (cleaned_sections contour.now)) }
{
    equal_points_have_no_sections();
    let mut corners = Vec::new(alloc);
    let Some(sections) = UniqueSegmentsIter::new(contour) else {
        return Ok(corners);
    };
    for section in sections {
        corners.push(section.a)?;
    }
    Ok(corners)
}
