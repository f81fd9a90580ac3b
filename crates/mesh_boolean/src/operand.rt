//! Contours resolved alone, by a rule of their own, and two answers resolved together.

ghost use Rattle.std.specs.Prelude.{IfOk, OnOk};
ghost use Rattle.mesh_num.specs.Paths.{shapes_of};
ghost use Rattle.mesh_lattice.specs.FillRules.{filled_by};
ghost use Rattle.mesh_lattice.specs.Reach.{ArePointsSafe};
ghost use Rattle.mesh_below.specs.Laws.{AreRegions};
ghost use Rattle.mesh_below.specs.Options.{choices_of};
ghost use Rattle.mesh_boolean.specs.Booleans.{ArePathsInRange, both_edges, closed_edges};

use mesh_below::below::{FillRule, IntOverlayOptions, Overlay, WindingRule};
use mesh_num::num::IntNumber;
use mesh_num::shape::buffer::IntShapes;
use mesh_num::shape::resource::IntShapeResource;
use mesh_offset::segments::{add_paths, add_shapes};
use std::alloc::{AllocError, Global};

/// What the contours of a source fill by this rule.
pub(crate) fn region_of<I: IntNumber, S: IntShapeResource<I>>(
    alloc: Global,
    source: &S,
    rule: WindingRule,
    options: IntOverlayOptions<I::WideUInt>,
) -> Result<IntShapes<I>, AllocError>
    requires { ArePathsInRange I.unit (S.paths source.now) }
    ensures regions { IfOk result (λ shapes. AreRegions (closed_edges (S.paths source.now)) (filled_by rule)
        (choices_of I.WideUInt.value options) (shapes_of shapes.items)) }
    ensures safe { IfOk result (λ shapes. ArePointsSafe I.unit (shapes_of shapes.items)) }
{
    let mut segments = Vec::new(alloc);
    add_paths(source, FillRule::Positive, &mut segments)?;
    let mut overlay = Overlay::with_segments(segments);
    overlay.options = options;
    let answer = overlay.overlay_by(rule)?;
    Ok(answer.shapes)
}

/// What the contours of two answers fill together by this rule, those of the second in this sense.
pub(crate) fn combined<I: IntNumber>(
    alloc: Global,
    first: &IntShapes<I>,
    second: &IntShapes<I>,
    sense: FillRule,
    rule: WindingRule,
    options: IntOverlayOptions<I::WideUInt>,
) -> Result<IntShapes<I>, AllocError>
    requires first { ArePointsSafe I.unit (shapes_of first.now.items) }
    requires second { ArePointsSafe I.unit (shapes_of second.now.items) }
    ensures regions { IfOk result (λ shapes.
        AreRegions (both_edges sense (shapes_of first.now.items) (shapes_of second.now.items)) (filled_by rule)
        (choices_of I.WideUInt.value options) (shapes_of shapes.items)) }
    ensures safe { IfOk result (λ shapes. ArePointsSafe I.unit (shapes_of shapes.items)) }
{
    let mut segments = Vec::new(alloc);
    add_shapes(first, FillRule::Positive, &mut segments)?;
    add_shapes(second, sense, &mut segments)?;
    let mut overlay = Overlay::with_segments(segments);
    overlay.options = options;
    let answer = overlay.overlay_by(rule)?;
    Ok(answer.shapes)
}
