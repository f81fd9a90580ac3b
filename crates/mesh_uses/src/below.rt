//! What closed contours cover together.

ghost use Rattle.std.specs.Prelude.{◌≡◌, ◌^◌, ◌++◌, OnOk, IfOk};
ghost use Rattle.std.specs.List.{All};
ghost use Rattle.mesh_num.specs.Bounds.{IsSafe};
ghost use Rattle.mesh_num.specs.Paths.{shapes_of};
ghost use Rattle.mesh_num.specs.Segments.{proper_edges, segments_of};
ghost use Rattle.mesh_num.specs.Winding.{boundary};
ghost use Rattle.mesh_below.specs.FillRules.{filled};
ghost use Rattle.mesh_below.specs.Laws.{AreRegions};
ghost use Rattle.mesh_below.specs.Options.{plain};

use mesh_below::below::{FillRule, Overlay, OverlayRule};
use mesh_num::num::IntPoint;
use mesh_num::shape::{IntShapes, Segment, SubjectSegments};
use std::alloc::{AllocError, Global};

/// The shapes of what two closed contours cover together: the points round which both together run more often
/// counterclockwise than clockwise.
pub fn united(
    alloc: Global,
    first: &[IntPoint<i32>],
    second: &[IntPoint<i32>],
) -> Result<IntShapes<i32>, AllocError>
    requires first { All (IsSafe (2 ^ 30)) first.now }
    requires second { All (IsSafe (2 ^ 30)) second.now }
    ensures { IfOk result (λ shapes. AreRegions (proper_edges (boundary first.now ++ boundary second.now))
        (filled FillRule.Positive) plain (shapes_of shapes.items)) }
{
    let mut segments = Vec::new(alloc);
    add_contour(&mut segments, first)?;
    add_contour(&mut segments, second)?;
    Overlay::with_segments(segments).overlay(OverlayRule::Subject, FillRule::Positive)
}

/// Adds the edges of a closed contour; a point that is the next one too gives none.
fn add_contour(
    segments: &mut Vec<Segment<i32>>,
    contour: &[IntPoint<i32>],
) -> Result<(), AllocError>
    ensures { OnOk result (segments.new.items ≡ segments.old.items ++ segments_of (boundary contour.now)) }
{
    let Some((first, others)) = contour.split_first() else {
        return Ok(());
    };
    let mut start = *first;
    for end in others {
        segments.push_non_degenerate(start, *end)?;
        start = *end;
    }
    segments.push_non_degenerate(start, *first)
}
