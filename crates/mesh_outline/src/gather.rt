//! Several outer boundaries: what comes of each, resolved alone, is gathered with its bounds.

ghost use Rattle.std.specs.Prelude.{◌≡◌, ◌≢◌, map, IfOk, OnOk};
ghost use Rattle.std.specs.List.{All};
ghost use Rattle.mesh_num.specs.Paths.{shapes_of};
ghost use Rattle.mesh_num.specs.Rectangle.{IsSafeWidened};
ghost use Rattle.mesh_join.specs.Joins.{outline_padding};
ghost use Rattle.mesh_join.specs.Styles.{style_of};
ghost use Rattle.mesh_offset.specs.Padding.{ArePathsSafe};
ghost use Rattle.mesh_outline.specs.Kinds.{contour_kind};
ghost use Rattle.mesh_outline.specs.Private.Gathered.{AddsShapes, AreGathered, GathersMore, so_far};
ghost use Rattle.mesh_outline.specs.declared.kind.ContourKind.TheVariants.{Hole};

use crate::bounds_apart::bounds_of_shapes;
use crate::builder::OutlineBuilder;
use crate::kind::ContourKind;
use crate::resolve::resolved_alone;
use mesh_below::below::{FillRule, OverlayAnswer};
use mesh_join::style::IntOutlineStyle;
use mesh_num::num::{IntNumber, IntPoint, IntRect};
use mesh_num::shape::buffer::IntShapes;
use mesh_num::shape::resource::IntShapeResource;
use std::alloc::{AllocError, Global};

/// What comes of outer boundaries, each resolved alone.
#[derive(Drop)]
pub(crate) struct Gathered<I: IntNumber> {
    /// The shapes of each, end to end.
    pub(crate) shapes: IntShapes<I>,
    /// The bounds of each one's shapes.
    pub(crate) bounds: Vec<IntRect<I>>,
    /// Whether the edges of each one's shapes are known to be their own boundary.
    pub(crate) are_own_boundaries: bool,
}

/// What comes of all contours of the source, none of which is a hole.
pub(crate) fn gather_all<I: IntNumber, S: IntShapeResource<I>>(
    source: &S,
    alloc: Global,
    style: &IntOutlineStyle<I>,
    kinds: &[ContourKind],
) -> Result<Gathered<I>, AllocError>
    requires safe { ArePathsSafe I.unit (outline_padding (style_of I.value style.now)) (S.paths source.now) }
    requires kinds { kinds.now ≡ map contour_kind (S.paths source.now) }
    requires no_hole { All (λ kind. kind ≢ Hole) kinds.now }
    ensures { IfOk result (λ g. AreGathered I.unit (style_of I.value style.now) (S.paths source.now) (so_far g)) }
{
    let mut gathered = Gathered {
        shapes: Vec::new(alloc),
        bounds: Vec::new(alloc),
        are_own_boundaries: true,
    };
    for index in 0..source.path_count() {
        gather(
            alloc,
            style,
            kinds[index],
            source.path_at(index),
            &mut gathered,
        )?;
    }
    Ok(gathered)
}

/// Adds what comes of one contour of this kind, if it moves.
fn gather<I: IntNumber>(
    alloc: Global,
    style: &IntOutlineStyle<I>,
    kind: ContourKind,
    path: &[IntPoint<I>],
    gathered: &mut Gathered<I>,
) -> Result<(), AllocError>
    requires safe { All (IsSafeWidened I.unit (outline_padding (style_of I.value style.now))) path.now }
    requires kind { kind ≡ contour_kind path.now }
    requires no_hole { kind ≢ Hole }
    ensures { OnOk result (GathersMore I.unit (style_of I.value style.now) path.now
        (so_far gathered.old) (so_far gathered.new)) }
{
    let Some(mut builder) = OutlineBuilder::for_kind(alloc, style, kind) else {
        return Ok(());
    };
    let answer = resolved_alone(alloc, &mut builder, FillRule::Positive, path)?;
    add_answer(gathered, answer)
}

/// Adds the answer of one contour.
fn add_answer<I: IntNumber>(
    gathered: &mut Gathered<I>,
    mut answer: OverlayAnswer<I>,
) -> Result<(), AllocError>
    ensures { OnOk result (AddsShapes (shapes_of answer.shapes.items) answer.is_own_boundary
        (so_far gathered.old) (so_far gathered.new)) }
{
    gathered.bounds.push(bounds_of_shapes(&answer.shapes))?;
    gathered.shapes.append(&mut answer.shapes)?;
    gathered.are_own_boundaries &= answer.is_own_boundary;
    Ok(())
}
