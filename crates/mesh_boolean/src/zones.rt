//! Booleans of polygons that an overlay or an offset returned, and how often such zones cover the plane.

ghost use Rattle.std.specs.Prelude.{◌≡◌, ◌≤◌, ◌^◌, ◌++◌, [], IfOk, OnOk};
ghost use Rattle.std.specs.List.{All};
ghost use Rattle.mesh_num.specs.Paths.{shapes_of};
ghost use Rattle.mesh_lattice.specs.FillRules.{filled_by};
ghost use Rattle.mesh_lattice.specs.Reach.{ArePointsSafe};
ghost use Rattle.mesh_lattice.specs.declared.fill.WindingRule.TheVariants as winding_rule;
ghost use Rattle.mesh_ahead.specs.Counting.{CountsSplits};
ghost use Rattle.mesh_split.specs.Counting.{IsPastLimit, IsWithinLimit};
ghost use Rattle.mesh_below.specs.Nearness.{AreCountedRegions};
ghost use Rattle.mesh_below.specs.Options.{choices_of};
ghost use Rattle.mesh_offset.specs.Adding.{answer_edges, in_sense};
ghost use Rattle.mesh_offset.specs.Built.{AddsClosed};
ghost use Rattle.mesh_offset.specs.Counting.{CountsAttempts};
ghost use Rattle.mesh_boolean.specs.Private.Given.{AreGiven, AreZonesGiven};
ghost use Rattle.mesh_boolean.specs.Rules.{way_of};
ghost use Rattle.mesh_boolean.specs.Zones.{
  AreCoveredRegions,
  AreCoveredRegionsBeyond,
  AreOverlaidRegions,
  AreOverlaidRegionsBeyond,
  WindOnce,
  edges_by,
  rule_by,
  zone_edges,
  zones_of,
};

use crate::boolean::IntOverlayError;
use crate::rule::{BooleanRule, Way, way_of};
use mesh_below::below::{FillRule, IntOverlayOptions, Overlay, WindingRule};
use mesh_below::nearness::{NearShapes, SplitCount};
use mesh_num::num::IntNumber;
use mesh_num::shape::buffer::IntShapes;
use mesh_num::shape::segment::Segment;
use mesh_offset::error::{IntNearnessError, IntOutlineError};
use mesh_offset::segments::add_shapes;
use std::alloc::{AllocError, Global};

/// A boolean of polygons that an overlay or an offset returned, by default options: they wind once round what they hold.
/// It is the same as `overlay_shapes`, without resolving the operands first, so their edges are split once, and only once
/// can rounding bend them.
///
/// Every point has to be in the safe range, and the polygons of each operand have to wind once or not at all round each
/// point, as all answers do that leave nothing out and run counterclockwise. The only error is `OutOfMemory`.
pub fn overlay_regions<I: IntNumber>(
    alloc: Global,
    subject: &IntShapes<I>,
    clip: &IntShapes<I>,
    rule: BooleanRule,
    options: IntOverlayOptions<I::WideUInt>,
) -> Result<IntShapes<I>, IntOverlayError>
    requires subject { ArePointsSafe I.unit (shapes_of subject.now.items) }
    requires clip { ArePointsSafe I.unit (shapes_of clip.now.items) }
    requires subject_once { WindOnce (shapes_of subject.now.items) }
    requires clip_once { WindOnce (shapes_of clip.now.items) }
    ensures regions { IfOk result (λ shapes. AreOverlaidRegions rule
        (shapes_of subject.now.items) (shapes_of clip.now.items)
        (choices_of I.WideUInt.value options) (shapes_of shapes.items)) }
    ensures safe { IfOk result (λ shapes. ArePointsSafe I.unit (shapes_of shapes.items)) }
    ensures refused { ¬ result ≡ Err IntOutlineError.CoordinateOutOfRange }
{
    let way = way_of(rule);
    let segments = given_segments(alloc, subject, clip, way)?;
    let mut overlay = Overlay::with_segments(segments);
    overlay.options = options;
    let answer = overlay.overlay_by(last_rule(way))?;
    Ok(answer.shapes)
}

/// The same as `overlay_regions`, with a proved error bound, the nearness: at each point farther than it from all edges of
/// the polygons the answer holds exactly what the boolean keeps, and each point of its contours lies within it of such an
/// edge.
///
/// Every split of an edge is added to `count`, those of attempts that were given up too. `TooManySplits` means that the
/// count passed its limit, `OutOfMemory` that memory was refused. `CoordinateOutOfRange` is never returned.
pub fn overlay_regions_with_nearness<I: IntNumber>(
    alloc: Global,
    subject: &IntShapes<I>,
    clip: &IntShapes<I>,
    rule: BooleanRule,
    options: IntOverlayOptions<I::WideUInt>,
    count: &mut SplitCount,
) -> Result<NearShapes<I>, IntNearnessError>
    requires subject { ArePointsSafe I.unit (shapes_of subject.now.items) }
    requires clip { ArePointsSafe I.unit (shapes_of clip.now.items) }
    requires subject_once { WindOnce (shapes_of subject.now.items) }
    requires clip_once { WindOnce (shapes_of clip.now.items) }
    ensures regions { IfOk result (λ near. AreOverlaidRegionsBeyond near.nearness rule
        (shapes_of subject.now.items) (shapes_of clip.now.items)
        (choices_of I.WideUInt.value options) (shapes_of near.shapes.items)) }
    ensures standing { IfOk result (λ near. AreCountedRegions near.nearness
        (edges_by (way_of rule) (shapes_of subject.now.items) (shapes_of clip.now.items))
        (filled_by (rule_by (way_of rule))) (choices_of I.WideUInt.value options)
        (shapes_of near.shapes.items) count.old count.new) }
    ensures safe { IfOk result (λ near. ArePointsSafe I.unit (shapes_of near.shapes.items)) }
    ensures small { IfOk result (λ near. near.nearness ≤ 2 ^ 38) }
    ensures counted { CountsAttempts 1
        (λ edges. edges ≡ edges_by (way_of rule) (shapes_of subject.now.items) (shapes_of clip.now.items))
        count.old count.new }
    ensures within { OnOk result (IsWithinLimit count.new) }
    ensures past { result ≡ Err IntNearnessError.TooManySplits → IsPastLimit count.new }
    ensures refused { ¬ result ≡ Err IntNearnessError.CoordinateOutOfRange }
{
    // Read, so that it is known to fit: a return before any attempt counts none.
    let _made = count.made;
    let way = way_of(rule);
    let segments = given_segments(alloc, subject, clip, way)?;
    let mut overlay = Overlay::with_segments(segments);
    overlay.options = options;
    let near = overlay.overlay_by_with_nearness(last_rule(way), count)?;
    Ok(near)
}

/// The segments of the polygons that are resolved.
fn given_segments<I: IntNumber>(
    alloc: Global,
    subject: &IntShapes<I>,
    clip: &IntShapes<I>,
    way: Way,
) -> Result<Vec<Segment<I>>, AllocError>
    requires subject { ArePointsSafe I.unit (shapes_of subject.now.items) }
    requires clip { ArePointsSafe I.unit (shapes_of clip.now.items) }
    ensures { IfOk result (λ segments. AreGiven I.unit way
        (shapes_of subject.now.items) (shapes_of clip.now.items) segments.items) }
{
    match way {
        Way::Subject => segments_of(alloc, subject),
        Way::Clip => segments_of(alloc, clip),
        Way::Together(sense, _) => segments_of_both(alloc, subject, clip, sense),
    }
}

/// The segments of polygons.
fn segments_of<I: IntNumber>(
    alloc: Global,
    shapes: &IntShapes<I>,
) -> Result<Vec<Segment<I>>, AllocError>
    requires { ArePointsSafe I.unit (shapes_of shapes.now.items) }
    ensures { IfOk result (λ segments. AddsClosed I.unit [] segments.items
        (answer_edges (shapes_of shapes.now.items))) }
{
    let mut segments = Vec::new(alloc);
    add_shapes(shapes, FillRule::Positive, &mut segments)?;
    Ok(segments)
}

/// The segments of both operands, those of the clip in this sense.
fn segments_of_both<I: IntNumber>(
    alloc: Global,
    subject: &IntShapes<I>,
    clip: &IntShapes<I>,
    sense: FillRule,
) -> Result<Vec<Segment<I>>, AllocError>
    requires subject { ArePointsSafe I.unit (shapes_of subject.now.items) }
    requires clip { ArePointsSafe I.unit (shapes_of clip.now.items) }
    ensures { IfOk result (λ segments. AddsClosed I.unit [] segments.items
        (answer_edges (shapes_of subject.now.items) ++ in_sense sense (answer_edges (shapes_of clip.now.items)))) }
{
    let mut segments = Vec::new(alloc);
    add_shapes(subject, FillRule::Positive, &mut segments)?;
    add_shapes(clip, sense, &mut segments)?;
    Ok(segments)
}

/// The rule by which the polygons are resolved.
fn last_rule(way: Way) -> WindingRule
    ensures { result ≡ rule_by way }
{
    match way {
        Way::Subject | Way::Clip => WindingRule::Positive,
        Way::Together(_, sum) => sum,
    }
}

/// Where at least so many zones cover the plane: the points that so many of them hold, and one at least. Each zone is a
/// list of polygons as an overlay or an offset returned it, by default options. With `least` 1 it is the union of all
/// zones; of two zones, with `least` 2, what both hold.
///
/// Every point has to be in the safe range, and the polygons of each zone have to wind once or not at all round each
/// point, as all answers do that leave nothing out and run counterclockwise. The only error is `OutOfMemory`.
pub fn coverage<I: IntNumber>(
    alloc: Global,
    zones: &[IntShapes<I>],
    least: u32,
    options: IntOverlayOptions<I::WideUInt>,
) -> Result<IntShapes<I>, IntOverlayError>
    requires safe { All (ArePointsSafe I.unit) (zones_of zones.now) }
    requires once { All WindOnce (zones_of zones.now) }
    ensures regions { IfOk result (λ shapes. AreCoveredRegions least (zones_of zones.now)
        (choices_of I.WideUInt.value options) (shapes_of shapes.items)) }
    ensures safe { IfOk result (λ shapes. ArePointsSafe I.unit (shapes_of shapes.items)) }
    ensures refused { ¬ result ≡ Err IntOutlineError.CoordinateOutOfRange }
{
    let segments = zone_segments(alloc, zones)?;
    let mut overlay = Overlay::with_segments(segments);
    overlay.options = options;
    let answer = overlay.overlay_by(WindingRule::AtLeast(least))?;
    Ok(answer.shapes)
}

/// The same as `coverage`, with a proved error bound, the nearness: at each point farther than it from all edges of the
/// zones the answer holds exactly the points that so many zones hold, and each point of its contours lies within it of
/// such an edge.
///
/// Every split of an edge is added to `count`, those of attempts that were given up too. `TooManySplits` means that the
/// count passed its limit, `OutOfMemory` that memory was refused. `CoordinateOutOfRange` is never returned.
pub fn coverage_with_nearness<I: IntNumber>(
    alloc: Global,
    zones: &[IntShapes<I>],
    least: u32,
    options: IntOverlayOptions<I::WideUInt>,
    count: &mut SplitCount,
) -> Result<NearShapes<I>, IntNearnessError>
    requires safe { All (ArePointsSafe I.unit) (zones_of zones.now) }
    requires once { All WindOnce (zones_of zones.now) }
    ensures regions { IfOk result (λ near. AreCoveredRegionsBeyond near.nearness least (zones_of zones.now)
        (choices_of I.WideUInt.value options) (shapes_of near.shapes.items)) }
    ensures standing { IfOk result (λ near. AreCountedRegions near.nearness (zone_edges (zones_of zones.now))
        (filled_by (winding_rule.AtLeast least)) (choices_of I.WideUInt.value options)
        (shapes_of near.shapes.items) count.old count.new) }
    ensures safe { IfOk result (λ near. ArePointsSafe I.unit (shapes_of near.shapes.items)) }
    ensures small { IfOk result (λ near. near.nearness ≤ 2 ^ 38) }
    ensures counted { CountsAttempts 1 (λ edges. edges ≡ zone_edges (zones_of zones.now)) count.old count.new }
    ensures within { OnOk result (IsWithinLimit count.new) }
    ensures past { result ≡ Err IntNearnessError.TooManySplits → IsPastLimit count.new }
    ensures refused { ¬ result ≡ Err IntNearnessError.CoordinateOutOfRange }
{
    // Read, so that it is known to fit: a return before any attempt counts none.
    let _made = count.made;
    let segments = zone_segments(alloc, zones)?;
    let mut overlay = Overlay::with_segments(segments);
    overlay.options = options;
    let near = overlay.overlay_by_with_nearness(WindingRule::AtLeast(least), count)?;
    Ok(near)
}

/// The segments of all zones.
fn zone_segments<I: IntNumber>(
    alloc: Global,
    zones: &[IntShapes<I>],
) -> Result<Vec<Segment<I>>, AllocError>
    requires { All (ArePointsSafe I.unit) (zones_of zones.now) }
    ensures { IfOk result (λ segments. AreZonesGiven I.unit (zones_of zones.now) segments.items) }
{
    let mut segments = Vec::new(alloc);
    for zone in zones {
        add_shapes(zone, FillRule::Positive, &mut segments)?;
    }
    Ok(segments)
}
