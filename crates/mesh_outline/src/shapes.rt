//! The outline of a source, as shapes: what comes of its contours is resolved together.

ghost use Rattle.std.specs.Prelude.{◌≡◌, ◌≢◌, ◌↔◌, [], ◌∷◌, map, true, IfOk};
ghost use Rattle.std.specs.List.{All, AllPairs};
ghost use Rattle.mesh_num.specs.Paths.{shapes_of};
ghost use Rattle.mesh_lattice.specs.Reach.{ArePointsSafe};
ghost use Rattle.mesh_apart.specs.Apart.{AreBoxesApart};
ghost use Rattle.mesh_below.specs.Answers.{AreOwnBoundary};
ghost use Rattle.mesh_below.specs.Options.{choices_of};
ghost use Rattle.mesh_join.specs.Joins.{outline_padding};
ghost use Rattle.mesh_join.specs.Styles.{style_of};
ghost use Rattle.mesh_offset.specs.Adding.{answer_edges};
ghost use Rattle.mesh_offset.specs.Padding.{ArePathsSafe};
ghost use Rattle.mesh_offset.specs.Built.{AddsClosed};
ghost use Rattle.mesh_outline.specs.Building.{IsMovable};
ghost use Rattle.mesh_outline.specs.Kinds.{contour_kind};
ghost use Rattle.mesh_outline.specs.Private.Gathered.{box_of, IsResolvedAgain};
ghost use Rattle.mesh_outline.specs.Private.Given.{IsResolvedTwice};
ghost use Rattle.mesh_outline.specs.Resolved.{DoAreasFit, IsOutline};
ghost use Rattle.mesh_outline.specs.declared.kind.ContourKind.TheVariants.{Hole, Outer};

use crate::bounds_apart::are_apart;
use crate::builder::OutlineBuilder;
use crate::gather::gather_all;
use crate::kind::{ContourKind, contour_kinds};
use crate::resolve::{given_segments, resolved_alone};
use mesh_below::below::{FillRule, IntOverlayOptions, Overlay, OverlayRule, arranged};
use mesh_join::join::Join;
use mesh_join::style::IntOutlineStyle;
use mesh_num::num::{IntNumber, IntPoint, IntRect};
use mesh_num::shape::buffer::IntShapes;
use mesh_num::shape::resource::IntShapeResource;
use mesh_num::shape::segment::Segment;
use mesh_offset::error::IntOutlineError;
use mesh_offset::segments::add_shapes;
use std::alloc::{AllocError, Global};

/// The outline of the source's contours, with these options. `CoordinateOutOfRange` is answered exactly where a double
/// area does not fit the wide type, before anything is built.
pub(crate) fn outline_shapes<I: IntNumber, S: IntShapeResource<I>>(
    source: &S,
    alloc: Global,
    style: &IntOutlineStyle<I>,
    options: IntOverlayOptions<I::WideUInt>,
) -> Result<IntShapes<I>, IntOutlineError>
    requires { ArePathsSafe I.unit (outline_padding (style_of I.value style.now)) (S.paths source.now) }
    ensures outline { IfOk result (λ shapes. IsOutline I.unit (style_of I.value style.now)
        (choices_of I.WideUInt.value options) (S.paths source.now) (shapes_of shapes.items)) }
    ensures safe { IfOk result (λ shapes. ArePointsSafe I.unit (shapes_of shapes.items)) }
    ensures refused { result ≡ Err IntOutlineError.CoordinateOutOfRange
        ↔ ¬ DoAreasFit I.Wide.half (S.paths source.now) }
{
    let kinds = contour_kinds(source, alloc)?;
    Ok(resolved_together(source, alloc, style, options, &kinds)?)
}

/// The same where the contours are of these kinds.
fn resolved_together<I: IntNumber, S: IntShapeResource<I>>(
    source: &S,
    alloc: Global,
    style: &IntOutlineStyle<I>,
    options: IntOverlayOptions<I::WideUInt>,
    kinds: &[ContourKind],
) -> Result<IntShapes<I>, AllocError>
    requires safe { ArePathsSafe I.unit (outline_padding (style_of I.value style.now)) (S.paths source.now) }
    requires kinds { kinds.now ≡ map contour_kind (S.paths source.now) }
    ensures outline { IfOk result (λ shapes. IsOutline I.unit (style_of I.value style.now)
        (choices_of I.WideUInt.value options) (S.paths source.now) (shapes_of shapes.items)) }
    ensures safe { IfOk result (λ shapes. ArePointsSafe I.unit (shapes_of shapes.items)) }
{
    if is_outer_boundary(kinds) {
        let join = Join::new(alloc, style.join, style.miter_min_turn);
        let mut builder = OutlineBuilder::new(style.outer_offset, join);
        let shapes = resolved_twice(alloc, &mut builder, source.path_at(0), options)?;
        return Ok(shapes);
    }
    if has_no_hole(kinds) {
        let shapes = outer_shapes(source, alloc, style, options, kinds)?;
        return Ok(shapes);
    }
    let segments = given_segments(source, alloc, style, kinds)?;
    let mut overlay = Overlay::with_segments(segments);
    overlay.options = options;
    let shapes = overlay.overlay(OverlayRule::Subject, FillRule::Positive)?;
    Ok(shapes)
}

/// Whether there is one contour, an outer boundary.
fn is_outer_boundary(kinds: &[ContourKind]) -> bool
    ensures { result ≡ true → kinds.now ≡ Outer ∷ [] }
{
    kinds.len() == 1 && kinds[0] == ContourKind::Outer
}

/// What comes of one outer boundary, which is moved by the builder and resolved alone, resolved once more with these
/// options. Where it is settled and the options are the default ones, it stays as it is; where its edges are their own
/// boundary, they are not split again.
fn resolved_twice<I: IntNumber>(
    alloc: Global,
    builder: &mut OutlineBuilder<I>,
    path: &[IntPoint<I>],
    options: IntOverlayOptions<I::WideUInt>,
) -> Result<IntShapes<I>, AllocError>
    requires { All (IsMovable I.unit builder.old) path.now }
    ensures { IfOk result (λ shapes. IsResolvedTwice I.unit builder.old (choices_of I.WideUInt.value options) path.now
        (shapes_of shapes.items)) }
{
    let answer = resolved_alone(alloc, builder, FillRule::Positive, path)?;
    if answer.is_settled && options.is_default() {
        return Ok(answer.shapes);
    }
    let shapes = resolved_again(alloc, answer.shapes, answer.is_own_boundary, options)?;
    Ok(shapes)
}

/// Whether no contour is a hole.
fn has_no_hole(kinds: &[ContourKind]) -> bool
    ensures { result ≡ true → All (λ kind. kind ≢ Hole) kinds.now }
{
    for kind in kinds {
        if *kind == ContourKind::Hole {
            return false;
        }
    }
    true
}

/// The outline of a source of which no contour is a hole. Where the edges of each answer are their own boundary and the
/// bounds of any two are apart, all edges are their own boundary together.
fn outer_shapes<I: IntNumber, S: IntShapeResource<I>>(
    source: &S,
    alloc: Global,
    style: &IntOutlineStyle<I>,
    options: IntOverlayOptions<I::WideUInt>,
    kinds: &[ContourKind],
) -> Result<IntShapes<I>, AllocError>
    requires safe { ArePathsSafe I.unit (outline_padding (style_of I.value style.now)) (S.paths source.now) }
    requires kinds { kinds.now ≡ map contour_kind (S.paths source.now) }
    requires no_hole { All (λ kind. kind ≢ Hole) kinds.now }
    ensures outline { IfOk result (λ shapes. IsOutline I.unit (style_of I.value style.now)
        (choices_of I.WideUInt.value options) (S.paths source.now) (shapes_of shapes.items)) }
    ensures safe { IfOk result (λ shapes. ArePointsSafe I.unit (shapes_of shapes.items)) }
{
    let gathered = gather_all(source, alloc, style, kinds)?;
    let is_own_boundary = are_own_and_apart(gathered.are_own_boundaries, gathered.bounds);
    let shapes = resolved_again(alloc, gathered.shapes, is_own_boundary, options)?;
    Ok(shapes)
}

/// Whether answers are known to be their own boundaries, and any two of their bounds to be apart.
fn are_own_and_apart<I: IntNumber>(are_own_boundaries: bool, bounds: Vec<IntRect<I>>) -> bool
    ensures { result ≡ true → (are_own_boundaries ≡ true) × AllPairs AreBoxesApart (map box_of bounds.items) }
{
    are_own_boundaries && are_apart(bounds)
}

/// Shapes resolved once more, with these options. Where their edges are their own boundary, they are not split again.
fn resolved_again<I: IntNumber>(
    alloc: Global,
    shapes: IntShapes<I>,
    is_own_boundary: bool,
    options: IntOverlayOptions<I::WideUInt>,
) -> Result<IntShapes<I>, AllocError>
    requires safe { ArePointsSafe I.unit (shapes_of shapes.items) }
    requires own_boundary { is_own_boundary ≡ true → AreOwnBoundary (answer_edges (shapes_of shapes.items)) }
    ensures { IfOk result (λ answer. IsResolvedAgain I.unit (choices_of I.WideUInt.value options)
        (shapes_of shapes.items) (shapes_of answer.items)) }
{
    if is_own_boundary {
        let answer = arranged(alloc, &shapes, options)?;
        return Ok(answer);
    }
    let segments = segments_of_shapes(alloc, shapes)?;
    let mut overlay = Overlay::with_segments(segments);
    overlay.options = options;
    let answer = overlay.overlay(OverlayRule::Subject, FillRule::Positive)?;
    Ok(answer)
}

/// The segments of all edges of shapes.
fn segments_of_shapes<I: IntNumber>(
    alloc: Global,
    shapes: IntShapes<I>,
) -> Result<Vec<Segment<I>>, AllocError>
    requires { ArePointsSafe I.unit (shapes_of shapes.items) }
    ensures { IfOk result (λ segments. AddsClosed I.unit [] segments.items (answer_edges (shapes_of shapes.items))) }
{
    let mut segments = Vec::new(alloc);
    add_shapes(&shapes, FillRule::Positive, &mut segments)?;
    Ok(segments)
}
