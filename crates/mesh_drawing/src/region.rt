//! The shapes of a drawing alone, to be combined with others.

ghost use Rattle.std.specs.Prelude.{◌≡◌, ◌↔◌, ◌≤◌, ◌^◌, IsTrue, IfOk, OnOk};
ghost use Rattle.mesh_num.specs.Paths.{shapes_of};
ghost use Rattle.mesh_lattice.specs.Reach.{ArePointsSafe};
ghost use Rattle.mesh_split.specs.Counting.{IsPastLimit, IsWithinLimit};
ghost use Rattle.mesh_below.specs.Options.{choices_of};
ghost use Rattle.mesh_drawing.specs.Drawings.{MayBeDrawn};
ghost use Rattle.mesh_drawing.specs.Drawn.{drawn_of};
ghost use Rattle.mesh_drawing.specs.Nearness.{AreCountedShapes, CountsDrawn};
ghost use Rattle.mesh_drawing.specs.Regions.{AreRegionsOf};

use crate::drawable::{Drawable, ShapeOptions};
use crate::drawing::Drawing;
use crate::refusal::find_refusal;
use i_overlay_mesh::IntOutlineError;
use mesh_below::below::IntOverlayOptions;
use mesh_below::nearness::{NearShapes, SplitCount};
use mesh_num::num::OverlayInt;
use mesh_num::shape::buffer::IntShapes;
use mesh_offset::error::IntNearnessError;
use std::alloc::Global;

/// Whether a drawing may be drawn: each of its points, moved by the padding, stays in the safe range, and the double area
/// of each contour of an outline fits its type. `find_refusal` says where it does not. It allocates nothing.
pub fn may_be_drawn<I: OverlayInt>(drawing: &Drawing<I>) -> bool
    ensures { IsTrue result ↔ MayBeDrawn I.unit (drawn_of I.value drawing.now) }
{
    find_refusal(drawing).is_none()
}

/// The shapes of a drawing that may be drawn: those of all its paths together, as clean polygons, each an outer contour
/// followed by its holes. `may_be_drawn` tests it. The only error is `OutOfMemory`: memory was refused.
pub fn region<I: OverlayInt>(
    alloc: Global,
    drawing: &Drawing<I>,
    options: IntOverlayOptions<I::WideUInt>,
) -> Result<IntShapes<I>, IntOutlineError>
    requires { MayBeDrawn I.unit (drawn_of I.value drawing.now) }
    ensures regions { IfOk result (λ shapes. AreRegionsOf I.unit (choices_of I.WideUInt.value options)
        (drawn_of I.value drawing.now) (shapes_of shapes.items)) }
    ensures safe { IfOk result (λ shapes. ArePointsSafe I.unit (shapes_of shapes.items)) }
    ensures refused { ¬ result ≡ Err IntOutlineError.CoordinateOutOfRange }
{
    let options = ShapeOptions(options);
    match drawing {
        Drawing::Outline(outline) => outline.shapes(alloc, &options),
        Drawing::Stroke(stroke) => stroke.shapes(alloc, &options),
        Drawing::VariableStroke(stroke) => stroke.shapes(alloc, &options),
    }
}

/// The same as `region`, with a proved error bound, the nearness, in 64ths of a grid unit: at each point farther than it
/// from all drawn edges the shapes hold exactly what the drawing covers.
///
/// Every split of an edge is added to `count`, those of attempts that were given up too. `TooManySplits` means that the
/// count passed its limit, `OutOfMemory` that memory was refused. `CoordinateOutOfRange` is never returned.
pub fn region_within<I: OverlayInt>(
    alloc: Global,
    drawing: &Drawing<I>,
    options: IntOverlayOptions<I::WideUInt>,
    count: &mut SplitCount,
) -> Result<NearShapes<I>, IntNearnessError>
    requires { MayBeDrawn I.unit (drawn_of I.value drawing.now) }
    ensures regions { IfOk result (λ near. AreCountedShapes near.nearness I.unit
        (choices_of I.WideUInt.value options) (drawn_of I.value drawing.now) (shapes_of near.shapes.items)
        count.old count.new) }
    ensures safe { IfOk result (λ near. ArePointsSafe I.unit (shapes_of near.shapes.items)) }
    ensures small { IfOk result (λ near. near.nearness ≤ 2 ^ 39) }
    ensures counted { CountsDrawn I.unit (drawn_of I.value drawing.now) count.old count.new }
    ensures within { OnOk result (IsWithinLimit count.new) }
    ensures past { result ≡ Err IntNearnessError.TooManySplits → IsPastLimit count.new }
    ensures refused { ¬ result ≡ Err IntNearnessError.CoordinateOutOfRange }
{
    let options = ShapeOptions(options);
    match drawing {
        Drawing::Outline(outline) => outline.near_shapes(alloc, &options, count),
        Drawing::Stroke(stroke) => stroke.near_shapes(alloc, &options, count),
        Drawing::VariableStroke(stroke) => stroke.near_shapes(alloc, &options, count),
    }
}
