//! Outlines and strokes, and an answer that is handed in again.

ghost use Rattle.std.specs.Prelude.{◌≡◌, ◌<◌, ◌^◌, List, [], ◌∷◌, false, OnOk, OnErr, IfOk};
ghost use Rattle.mesh_num.specs.FlatContours.{flat_contours};
ghost use Rattle.mesh_num.specs.Paths.{contours_of, paths_of, shapes_of};
ghost use Rattle.mesh_num.specs.Plane.{Point};
ghost use Rattle.mesh_below.specs.Meeting.{MeetInWholePoints};
ghost use Rattle.mesh_below.specs.Options.{plain};
ghost use Rattle.mesh_lattice.specs.Reach.{ArePointsSafe};
ghost use Rattle.mesh_join.specs.Joins.{outline_padding};
ghost use Rattle.mesh_join.specs.VariableStyles.{default_variable_style};
ghost use Rattle.mesh_offset.specs.Padding.{ArePathsSafe};
ghost use Rattle.mesh_offset.specs.Radii.{radius_of};
ghost use Rattle.mesh_offset.specs.Regions.{WindsOnceWhere};
ghost use Rattle.mesh_outline.specs.Nearness.{AreCountedOutlineRegions, all_drawn};
ghost use Rattle.mesh_outline.specs.Regions.{AreOutlineRegions, more_fill};
ghost use Rattle.mesh_split.specs.Counting.{IsWithinLimit};
ghost use Rattle.mesh_stroke.specs.Regions.{AreStrokeRegions};
ghost use Rattle.mesh_stroke.specs.Styles.{stroke_padding};
ghost use Rattle.mesh_variable_stroke.specs.Regions.{AreVariableStrokeRegions};
ghost use Rattle.mesh_variable_stroke.specs.Strokable.{ArePathsStrokable};
ghost use Rattle.mesh_uses.specs.Styles.{bevelled, rounded};
ghost use Rattle.mesh_uses.specs.Tracks.{StaysBeside};

use i_overlay_mesh::laws::kept_radii_reach;
use i_overlay_mesh::{
    ArcOptions, FlatContoursBuffer, IntLineCap, IntLineJoin, IntNearnessError, IntOutlineError,
    IntOutlineOffset, IntOutlineStyle, IntOverlayOptions, IntPoint, IntShapes, IntStrokeError,
    IntStrokeOffset, IntStrokeStyle, IntStrokeVertex, IntVariableStrokeError,
    IntVariableStrokeOffset, IntVariableStrokeStyle, NearShapes, SplitCount,
};
use mesh_num::laws::flat_contours_are_found;
use mesh_outline::laws::outlines_are_exact;
use std::alloc::Global;

/// The contour moved outwards by an offset, inwards by a negative one.
pub fn grown(
    alloc: Global,
    contour: &Vec<IntPoint<i32>>,
    offset: i32,
) -> Result<IntShapes<i32>, IntOutlineError>
    ensures accepted { OnOk result (ArePathsSafe (2 ^ 30) (outline_padding (bevelled offset))
        (contour.now.items ∷ [])) }
    ensures regions { IfOk result (λ shapes. AreOutlineRegions (2 ^ 30) (bevelled offset) plain
        (contour.now.items ∷ []) (shapes_of shapes.items)) }
    ensures safe { IfOk result (λ shapes. ArePointsSafe (2 ^ 30) (shapes_of shapes.items)) }
{
    let style = IntOutlineStyle::new(offset);
    contour.validate_outline(&style)?;
    contour.outline(alloc, &style)
}

/// The contours moved outwards by an offset. Where the edges that are drawn of all of them meet in whole points alone,
/// rounding moves nothing: the answer winds once round each point that more outlines fill than clear, and round no other.
pub fn grown_exactly(
    alloc: Global,
    contours: &Vec<Vec<IntPoint<i32>>>,
    offset: i32,
) -> Result<IntShapes<i32>, IntOutlineError>
    ensures { MeetInWholePoints (all_drawn (2 ^ 30) (bevelled offset) (paths_of contours.now.items))
        → IfOk result (λ shapes. WindsOnceWhere
        (more_fill (2 ^ 30) (bevelled offset) (paths_of contours.now.items)) (λ m q. Unit {0}) plain
        (shapes_of shapes.items)) }
{
    outlines_are_exact();
    let style = IntOutlineStyle::new(offset);
    contours.validate_outline(&style)?;
    contours.outline(alloc, &style)
}

/// The contour moved outwards by an offset, and how near to the drawn edges that is exact, by this many splits at most;
/// 0 is no limit.
pub fn grown_within(
    alloc: Global,
    contour: &Vec<IntPoint<i32>>,
    offset: i32,
    most_splits: u64,
) -> Result<NearShapes<i32>, IntNearnessError>
    ensures regions { IfOk result (λ near. (count : SplitCount) × IsWithinLimit count
        × AreCountedOutlineRegions near.nearness (2 ^ 30) (bevelled offset) plain (contour.now.items ∷ [])
        (shapes_of near.shapes.items) (record { made = 0; most = most_splits }) count) }
    ensures limited { result ≡ Err IntNearnessError.TooManySplits → 0 < most_splits }
{
    let style = IntOutlineStyle::new(offset);
    contour.validate_outline(&style)?;
    let mut count = SplitCount::new(most_splits);
    contour.outline_with_nearness(alloc, &style, IntOverlayOptions::new(), &mut count)
}

/// A track of this width along a path, with round corners and ends.
pub fn track(
    alloc: Global,
    path: &Vec<IntPoint<i32>>,
    width: i32,
) -> Result<IntShapes<i32>, IntStrokeError>
    ensures accepted { OnOk result (ArePathsSafe (2 ^ 30) (stroke_padding (rounded width)) (path.now.items ∷ [])) }
    ensures regions { IfOk result (λ shapes. AreStrokeRegions (2 ^ 30) (rounded width) false plain
        (path.now.items ∷ []) (shapes_of shapes.items)) }
{
    let style = IntStrokeStyle::new(width)
        .line_join(IntLineJoin::Round(ArcOptions::default()))
        .start_cap(IntLineCap::Round(ArcOptions::default()))
        .end_cap(IntLineCap::Round(ArcOptions::default()));
    path.validate_stroke(&style)?;
    path.stroke(alloc, &style, false)
}

/// The same track, by this many splits at most. Each point round which it winds lies within its nearness of a point that
/// is at most the radius and three quarters of a grid unit from the path: twice the square of that distance is at most
/// `2 * r * r + 3 * r + 1`.
pub fn track_within(
    alloc: Global,
    path: &Vec<IntPoint<i32>>,
    width: i32,
    most_splits: u64,
) -> Result<NearShapes<i32>, IntNearnessError>
    ensures { IfOk result (λ near. StaysBeside near.nearness (radius_of width) (path.now.items ∷ [])
        (shapes_of near.shapes.items)) }
{
    kept_radii_reach();
    let style = IntStrokeStyle::new(width)
        .line_join(IntLineJoin::Round(ArcOptions::default()))
        .start_cap(IntLineCap::Round(ArcOptions::default()))
        .end_cap(IntLineCap::Round(ArcOptions::default()));
    path.validate_stroke(&style)?;
    let mut count = SplitCount::new(most_splits);
    path.stroke_with_nearness(alloc, &style, false, IntOverlayOptions::new(), &mut count)
}

/// What a brush paints along a path, pressed at each vertex to the width that stands there.
pub fn painted(
    alloc: Global,
    path: &Vec<IntStrokeVertex<i32>>,
) -> Result<IntShapes<i32>, IntVariableStrokeError>
    ensures accepted { OnOk result (ArePathsStrokable (2 ^ 30) (path.now.items ∷ [])) }
    ensures regions { IfOk result (λ shapes. AreVariableStrokeRegions (2 ^ 30) default_variable_style.arc plain
        (path.now.items ∷ []) (shapes_of shapes.items)) }
{
    path.validate_variable_stroke()?;
    path.variable_stroke(alloc, IntVariableStrokeStyle::default())
}

/// Moves the contours of a buffer outwards, in place of its own, so that an answer can be handed in again. After an
/// error the buffer is unchanged.
pub fn grow(
    alloc: Global,
    contours: &mut FlatContoursBuffer<i32>,
    offset: i32,
) -> Result<(), IntOutlineError>
    ensures ok { OnOk result ((answer : List (List (List Point)))
        × AreOutlineRegions (2 ^ 30) (bevelled offset) plain (flat_contours contours.old) answer
        × (flat_contours contours.new ≡ contours_of answer)) }
    ensures err { OnErr result (contours.new ≡ contours.old) }
{
    flat_contours_are_found();
    let style = IntOutlineStyle::new(offset);
    contours.validate_outline(&style)?;
    let shapes = contours.outline(alloc, &style)?;
    contours.replace_with(&shapes)?;
    Ok(())
}
