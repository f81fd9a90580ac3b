//! The first step of an outline: each contour is resolved alone.

ghost use Rattle.std.specs.Prelude.{◌≡◌, map, OnOk, IfOk};
ghost use Rattle.std.specs.List.{All};
ghost use Rattle.mesh_num.specs.Paths.{shapes_of};
ghost use Rattle.mesh_num.specs.Rectangle.{IsSafeWidened};
ghost use Rattle.mesh_join.specs.Joins.{outline_padding};
ghost use Rattle.mesh_join.specs.Styles.{style_of};
ghost use Rattle.mesh_offset.specs.Padding.{ArePathsSafe};
ghost use Rattle.mesh_outline.specs.Building.{IsMovable};
ghost use Rattle.mesh_outline.specs.Kinds.{contour_kind, kind_fill};
ghost use Rattle.mesh_outline.specs.Private.Given.{AddsAnswer, AddsGiven, AreGiven, ComesAlone};

use crate::builder::OutlineBuilder;
use crate::kind::ContourKind;
use mesh_below::below::{FillRule, Overlay, OverlayAnswer, OverlayRule};
use mesh_join::style::IntOutlineStyle;
use mesh_num::num::{IntNumber, IntPoint};
use mesh_num::shape::resource::IntShapeResource;
use mesh_num::shape::segment::Segment;
use mesh_offset::segments::add_shapes;
use std::alloc::{AllocError, Global};

/// The segments of what all contours of the source, of these kinds, give, one contour after another.
pub(crate) fn given_segments<I: IntNumber, S: IntShapeResource<I>>(
    source: &S,
    alloc: Global,
    style: &IntOutlineStyle<I>,
    kinds: &[ContourKind],
) -> Result<Vec<Segment<I>>, AllocError>
    requires safe { ArePathsSafe I.unit (outline_padding (style_of I.value style.now)) (S.paths source.now) }
    requires kinds { kinds.now ≡ map contour_kind (S.paths source.now) }
    ensures { IfOk result (λ segments. AreGiven I.unit (style_of I.value style.now) (S.paths source.now)
        segments.items) }
{
    let mut segments = Vec::new(alloc);
    for index in 0..source.path_count() {
        add_contour(
            alloc,
            style,
            kinds[index],
            source.path_at(index),
            &mut segments,
        )?;
    }
    Ok(segments)
}

/// Adds what one contour of this kind gives: an outer boundary the edges of its answer, a hole those of its answer the
/// other way about.
fn add_contour<I: IntNumber>(
    alloc: Global,
    style: &IntOutlineStyle<I>,
    kind: ContourKind,
    path: &[IntPoint<I>],
    segments: &mut Vec<Segment<I>>,
) -> Result<(), AllocError>
    requires safe { All (IsSafeWidened I.unit (outline_padding (style_of I.value style.now))) path.now }
    requires kind { kind ≡ contour_kind path.now }
    ensures { OnOk result (AddsGiven I.unit (style_of I.value style.now) path.now
        segments.old.items segments.new.items) }
{
    let Some(mut builder) = OutlineBuilder::for_kind(alloc, style, kind) else {
        return Ok(());
    };
    add_resolved(alloc, &mut builder, fill_of(kind), path, segments)
}

/// The sense in which a contour of this kind is filled: a hole in the negative one.
pub(crate) fn fill_of(kind: ContourKind) -> FillRule
    ensures { result ≡ kind_fill kind }
{
    match kind {
        ContourKind::Hole => FillRule::Negative,
        ContourKind::Outer | ContourKind::Ignored => FillRule::Positive,
    }
}

/// Adds the edges of the answer of one contour, which is moved by the builder and resolved alone.
fn add_resolved<I: IntNumber>(
    alloc: Global,
    builder: &mut OutlineBuilder<I>,
    fill: FillRule,
    path: &[IntPoint<I>],
    segments: &mut Vec<Segment<I>>,
) -> Result<(), AllocError>
    requires { All (IsMovable I.unit builder.old) path.now }
    ensures { OnOk result (AddsAnswer I.unit builder.old fill path.now segments.old.items segments.new.items) }
{
    let answer = resolved_alone(alloc, builder, fill, path)?;
    add_shapes(&answer.shapes, fill, segments)
}

/// What comes of one contour, which is moved by the builder and resolved alone.
pub(crate) fn resolved_alone<I: IntNumber>(
    alloc: Global,
    builder: &mut OutlineBuilder<I>,
    fill: FillRule,
    path: &[IntPoint<I>],
) -> Result<OverlayAnswer<I>, AllocError>
    requires { All (IsMovable I.unit builder.old) path.now }
    ensures { IfOk result (λ answer. ComesAlone I.unit builder.old fill path.now
        (shapes_of answer.shapes.items) answer.is_settled answer.is_own_boundary) }
{
    let mut built = Vec::new(alloc);
    builder.build(path, &mut built)?;
    let answer = Overlay::with_segments(built).overlay_answer(OverlayRule::Subject, fill)?;
    Ok(answer)
}
