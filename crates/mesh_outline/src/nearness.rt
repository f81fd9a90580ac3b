//! The outline of a source, and how near to the drawn edges it is exact: each contour is resolved alone, then what they
//! give together.

ghost use Rattle.std.specs.Prelude.{◌≡◌, ◌↔◌, ◌+◌, ◌≤◌, ◌^◌, List, length, map, IfOk, OnOk};
ghost use Rattle.std.specs.List.{All};
ghost use Rattle.std.specs.List.Sorted.{IsPermutation};
ghost use Rattle.mesh_num.specs.Paths.{shapes_of};
ghost use Rattle.mesh_num.specs.Rectangle.{IsSafeWidened};
ghost use Rattle.mesh_plane.specs.Plane.{Edge};
ghost use Rattle.mesh_lattice.specs.Reach.{ArePointsSafe};
ghost use Rattle.mesh_split.specs.Counting.{IsPastLimit, IsWithinLimit};
ghost use Rattle.mesh_split.specs.declared.count.SplitError.TheVariants.{TooManySplits};
ghost use Rattle.mesh_below.specs.Options.{choices_of};
ghost use Rattle.mesh_join.specs.Joins.{outline_padding};
ghost use Rattle.mesh_join.specs.Styles.{style_of};
ghost use Rattle.mesh_offset.specs.Counting.{CountsAttempts};
ghost use Rattle.mesh_offset.specs.Padding.{ArePathsSafe};
ghost use Rattle.mesh_outline.specs.Building.{IsMovable};
ghost use Rattle.mesh_outline.specs.Kinds.{contour_kind};
ghost use Rattle.mesh_outline.specs.Nearness.{AreCountedOutlineRegions, IsOutlineDrawing, drawn_of};
ghost use Rattle.mesh_outline.specs.Outline.{outline_edges};
ghost use Rattle.mesh_outline.specs.Private.Near.{AddsGivenNear, AddsNear, AreGivenCounted, ComesNear};
ghost use Rattle.mesh_outline.specs.Resolved.{DoAreasFit};

use crate::builder::OutlineBuilder;
use crate::kind::{ContourKind, contour_kinds};
use crate::resolve::fill_of;
use mesh_below::below::{FillRule, IntOverlayOptions, Overlay, OverlayRule};
use mesh_below::nearness::{NearShapes, SplitCount, SplitError};
use mesh_join::style::IntOutlineStyle;
use mesh_num::num::{IntNumber, IntPoint};
use mesh_num::shape::resource::IntShapeResource;
use mesh_num::shape::segment::Segment;
use mesh_offset::error::IntNearnessError;
use mesh_offset::segments::add_shapes;
use std::alloc::Global;

/// What contours give, and the greatest nearness of their own resolvings.
#[derive(Drop)]
struct NearSegments<I: IntNumber> {
    segments: Vec<Segment<I>>,
    nearness: u64,
}

/// The outline of the source's contours, with these options, and its nearness. `CoordinateOutOfRange` is answered
/// exactly where a double area does not fit the wide type, before anything is built.
pub(crate) fn near_outline<I: IntNumber, S: IntShapeResource<I>>(
    source: &S,
    alloc: Global,
    style: &IntOutlineStyle<I>,
    options: IntOverlayOptions<I::WideUInt>,
    count: &mut SplitCount,
) -> Result<NearShapes<I>, IntNearnessError>
    requires { ArePathsSafe I.unit (outline_padding (style_of I.value style.now)) (S.paths source.now) }
    ensures standing { IfOk result (λ near. AreCountedOutlineRegions near.nearness I.unit
        (style_of I.value style.now) (choices_of I.WideUInt.value options) (S.paths source.now)
        (shapes_of near.shapes.items) count.old count.new) }
    ensures safe { IfOk result (λ near. ArePointsSafe I.unit (shapes_of near.shapes.items)) }
    ensures unfit { result ≡ Err IntNearnessError.CoordinateOutOfRange
        ↔ ¬ DoAreasFit I.Wide.half (S.paths source.now) }
    ensures counted { CountsAttempts (length (S.paths source.now) + 1)
        (IsOutlineDrawing I.unit (style_of I.value style.now) (S.paths source.now)) count.old count.new }
    ensures within { OnOk result (IsWithinLimit count.new) }
    ensures refused { result ≡ Err IntNearnessError.TooManySplits → IsPastLimit count.new }
{
    // Read, so that it is known to fit: a return before any attempt counts none.
    let _made = count.made;
    let kinds = contour_kinds(source, alloc)?;
    Ok(resolved_near(source, alloc, style, options, &kinds, count)?)
}

/// The same where the contours are of these kinds.
fn resolved_near<I: IntNumber, S: IntShapeResource<I>>(
    source: &S,
    alloc: Global,
    style: &IntOutlineStyle<I>,
    options: IntOverlayOptions<I::WideUInt>,
    kinds: &[ContourKind],
    count: &mut SplitCount,
) -> Result<NearShapes<I>, SplitError>
    requires safe { ArePathsSafe I.unit (outline_padding (style_of I.value style.now)) (S.paths source.now) }
    requires kinds { kinds.now ≡ map contour_kind (S.paths source.now) }
    ensures standing { IfOk result (λ near. AreCountedOutlineRegions near.nearness I.unit
        (style_of I.value style.now) (choices_of I.WideUInt.value options) (S.paths source.now)
        (shapes_of near.shapes.items) count.old count.new) }
    ensures safe { IfOk result (λ near. ArePointsSafe I.unit (shapes_of near.shapes.items)) }
    ensures counted { CountsAttempts (length (S.paths source.now) + 1)
        (IsOutlineDrawing I.unit (style_of I.value style.now) (S.paths source.now)) count.old count.new }
    ensures within { OnOk result (IsWithinLimit count.new) }
    ensures refused { result ≡ Err SplitError.TooManySplits → IsPastLimit count.new }
{
    let given = near_segments(source, alloc, style, kinds, count)?;
    let mut overlay = Overlay::with_segments(given.segments);
    overlay.options = options;
    let near = overlay.overlay_with_nearness(OverlayRule::Subject, FillRule::Positive, count)?;
    Ok(NearShapes {
        shapes: near.shapes,
        nearness: given.nearness + near.nearness,
    })
}

/// The segments of what all contours of the source, of these kinds, give, one contour after another.
fn near_segments<I: IntNumber, S: IntShapeResource<I>>(
    source: &S,
    alloc: Global,
    style: &IntOutlineStyle<I>,
    kinds: &[ContourKind],
    count: &mut SplitCount,
) -> Result<NearSegments<I>, SplitError>
    requires safe { ArePathsSafe I.unit (outline_padding (style_of I.value style.now)) (S.paths source.now) }
    requires kinds { kinds.now ≡ map contour_kind (S.paths source.now) }
    ensures given { IfOk result (λ given. AreGivenCounted given.nearness I.unit (style_of I.value style.now)
        (S.paths source.now) (S.paths source.now) given.segments.items count.old count.new) }
    ensures small { IfOk result (λ given. given.nearness ≤ 2 ^ 38) }
    ensures counted { CountsAttempts (length (S.paths source.now))
        (IsOutlineDrawing I.unit (style_of I.value style.now) (S.paths source.now)) count.old count.new }
    ensures refused { result ≡ Err SplitError.TooManySplits → IsPastLimit count.new }
{
    // Read, so that it is known to fit: a return before any attempt counts none.
    let _made = count.made;
    let mut segments = Vec::new(alloc);
    let mut nearness: u64 = 0;
    for index in 0..source.path_count() {
        let own = add_contour(
            alloc,
            style,
            kinds[index],
            source.path_at(index),
            &mut segments,
            count,
        )?;
        nearness = nearness.max(own);
    }
    Ok(NearSegments { segments, nearness })
}

/// Adds what one contour of this kind gives, and tells the nearness of its own resolving.
fn add_contour<I: IntNumber>(
    alloc: Global,
    style: &IntOutlineStyle<I>,
    kind: ContourKind,
    path: &[IntPoint<I>],
    segments: &mut Vec<Segment<I>>,
    count: &mut SplitCount,
) -> Result<u64, SplitError>
    requires safe { All (IsSafeWidened I.unit (outline_padding (style_of I.value style.now))) path.now }
    requires kind { kind ≡ contour_kind path.now }
    ensures given { IfOk result (λ nearness. AddsGivenNear nearness I.unit (style_of I.value style.now) path.now
        segments.old.items segments.new.items count.old count.new) }
    ensures small { IfOk result (λ nearness. nearness ≤ 2 ^ 38) }
    ensures counted { CountsAttempts 1
        (λ (es : List Edge). IsPermutation es (drawn_of I.unit (style_of I.value style.now) path.now))
        count.old count.new }
    ensures refused { result ≡ Err SplitError.TooManySplits → IsPastLimit count.new }
{
    // Read, so that it is known to fit: a return before any attempt counts none.
    let _made = count.made;
    let Some(mut builder) = OutlineBuilder::for_kind(alloc, style, kind) else {
        return Ok(0);
    };
    add_resolved(alloc, &mut builder, fill_of(kind), path, segments, count)
}

/// Adds the edges of the answer of one contour, which is moved by the builder and resolved alone, and tells the
/// nearness of that.
fn add_resolved<I: IntNumber>(
    alloc: Global,
    builder: &mut OutlineBuilder<I>,
    fill: FillRule,
    path: &[IntPoint<I>],
    segments: &mut Vec<Segment<I>>,
    count: &mut SplitCount,
) -> Result<u64, SplitError>
    requires { All (IsMovable I.unit builder.old) path.now }
    ensures added { IfOk result (λ nearness. AddsNear nearness I.unit builder.old fill path.now
        segments.old.items segments.new.items count.old count.new) }
    ensures small { IfOk result (λ nearness. nearness ≤ 2 ^ 38) }
    ensures counted { CountsAttempts 1
        (λ (es : List Edge). IsPermutation es (outline_edges I.unit builder.old path.now)) count.old count.new }
    ensures refused { result ≡ Err SplitError.TooManySplits → IsPastLimit count.new }
{
    let near = near_alone(alloc, builder, fill, path, count)?;
    add_shapes(&near.shapes, fill, segments)?;
    Ok(near.nearness)
}

/// What comes of one contour, which is moved by the builder and resolved alone.
fn near_alone<I: IntNumber>(
    alloc: Global,
    builder: &mut OutlineBuilder<I>,
    fill: FillRule,
    path: &[IntPoint<I>],
    count: &mut SplitCount,
) -> Result<NearShapes<I>, SplitError>
    requires { All (IsMovable I.unit builder.old) path.now }
    ensures answer { IfOk result (λ near. ComesNear near.nearness I.unit
        (outline_edges I.unit builder.old path.now) fill (shapes_of near.shapes.items) count.old count.new) }
    ensures small { IfOk result (λ near. near.nearness ≤ 2 ^ 38) }
    ensures counted { CountsAttempts 1
        (λ (es : List Edge). IsPermutation es (outline_edges I.unit builder.old path.now)) count.old count.new }
    ensures refused { result ≡ Err SplitError.TooManySplits → IsPastLimit count.new }
{
    // Read, so that it is known to fit: a return before any attempt counts none.
    let _made = count.made;
    let mut built = Vec::new(alloc);
    builder.build(path, &mut built)?;
    let overlay = Overlay::with_segments(built);
    let near = overlay.overlay_with_nearness(OverlayRule::Subject, fill, count)?;
    Ok(near)
}
