//! Strokes of paths: gives lines a width.

ghost use Rattle.std.specs.Prelude.{◌≡◌, ◌↔◌, IsOk, IfOk, OnOk, OnErr, Bool, []};
ghost use Rattle.std.specs.List.{All};
ghost use Rattle.mesh_num.specs.Paths.{shapes_of};
ghost use Rattle.mesh_num.specs.Rectangle.{IsBounds, IsSafeRectangle};
ghost use Rattle.mesh_plane.specs.Plane.{Edge};
ghost use Rattle.mesh_lattice.specs.Reach.{ArePointsSafe};
ghost use Rattle.mesh_below.specs.Options.{choices_of, plain};
ghost use Rattle.mesh_offset.specs.Buffers.{HoldsAnswer, HoldsSafeAnswer};
ghost use Rattle.mesh_offset.specs.Padding.{ArePathsSafe, all_points, widened};
ghost use Rattle.mesh_stroke.specs.Halves.{HalvesAddUp};
ghost use Rattle.mesh_stroke.specs.Reach.{WindsWithinReach};
ghost use Rattle.mesh_stroke.specs.Styles.{stroke_padding, stroke_style_of};
ghost use Rattle.mesh_stroke.specs.Regions.{AreCountedStrokeRegions, AreStrokeRegions, AreStrokeRegionsBeyond};
ghost use Rattle.mesh_stroke.specs.Resolved.{IsStroke, HavePromisedEdges, AreAllEdges};
ghost use Rattle.mesh_stroke.specs.ResolvedEdges.{ResolvesPromisedEdges};
ghost use Rattle.mesh_split.specs.Counting.{IsPastLimit, IsWithinLimit};
ghost use Rattle.mesh_offset.specs.Counting.{CountsAttempts};
ghost use Rattle.mesh_stroke.specs.Staying.{StaysSafe};

use crate::radius::padding;
use crate::resolve::stroke_overlay;
use mesh_below::below::{FillRule, IntOverlayOptions, OverlayRule};
use mesh_below::nearness::{NearShapes, SplitCount};
use mesh_join::style::IntStrokeStyle;
use mesh_num::num::OverlayInt;
use mesh_num::shape::buffer::{FlatContoursBuffer, IntShapes};
use mesh_num::shape::resource::IntShapeResource;
use mesh_offset::bounds::validate_bounds;
use mesh_offset::error::{IntNearnessError, IntOutlineError, IntStrokeError};
use std::alloc::Global;

/// Strokes of the paths in a source.
pub trait IntStrokeOffset<I: OverlayInt>: IntShapeResource<I> {
    /// Tests whether the paths can be stroked in this style without leaving the safe range. `Ok` is returned exactly
    /// where there is no point, or where the bounds of all points, grown on each side by the padding of the style, are
    /// in the safe range. This holds for every value of the type and every custom cap. The padding includes the caps,
    /// even for closed paths, but for a half only the joins. The only error is `CoordinateOutOfRange`. It allocates
    /// nothing. Whatever it returns, the winding numbers of the left and the right half of each path add up to those of
    /// the whole stroke with butt caps.
    fn validate_stroke(&self, style: &IntStrokeStyle<I>) -> Result<(), IntStrokeError>
        ensures safe { IsOk result
            ↔ ArePathsSafe I.unit (stroke_padding (stroke_style_of I.value style.now)) (Self.paths self.now) }
        ensures bounds { (bounds : Edge) → IsBounds bounds (all_points (Self.paths self.now))
            → IsOk result ↔ IsSafeRectangle I.unit
            (widened (stroke_padding (stroke_style_of I.value style.now)) bounds) }
        ensures no_point { all_points (Self.paths self.now) ≡ [] → IsOk result }
        ensures error { OnErr result (result ≡ Err IntOutlineError.CoordinateOutOfRange) }
        ensures built { OnOk result ((closed : Bool) → HavePromisedEdges I.unit (stroke_style_of I.value style.now) closed
            (Self.paths self.now)) }
        ensures stays_safe { OnOk result ((closed : Bool) → StaysSafe I.unit (stroke_style_of I.value style.now) closed
            (Self.paths self.now)) }
        ensures halves { (closed : Bool) → All (HalvesAddUp I.unit (stroke_style_of I.value style.now) closed)
            (Self.paths self.now) };

    /// The stroke of the paths, with default options. See `stroke_custom`.
    final fn stroke(
        &self,
        alloc: Global,
        style: &IntStrokeStyle<I>,
        closed: bool,
    ) -> Result<IntShapes<I>, IntStrokeError>
        requires { ArePathsSafe I.unit (stroke_padding (stroke_style_of I.value style.now)) (Self.paths self.now) }
        ensures stroke { IfOk result (λ shapes. IsStroke I.unit (stroke_style_of I.value style.now) closed plain
            (Self.paths self.now) (shapes_of shapes.items)) }
        ensures regions { IfOk result (λ shapes. AreStrokeRegions I.unit (stroke_style_of I.value style.now) closed
            plain (Self.paths self.now) (shapes_of shapes.items)) }
        ensures edges { IfOk result (λ shapes. ResolvesPromisedEdges I.unit (stroke_style_of I.value style.now) closed
            plain (Self.paths self.now) (shapes_of shapes.items)) }
        ensures safe { IfOk result (λ shapes. ArePointsSafe I.unit (shapes_of shapes.items)) }
        ensures error { OnErr result (result ≡ Err IntOutlineError.OutOfMemory) }
    {
        self.stroke_custom(alloc, style, closed, IntOverlayOptions::new())
    }

    /// The same as `stroke`, into a buffer. See `stroke_custom_into`.
    final fn stroke_into(
        &self,
        alloc: Global,
        style: &IntStrokeStyle<I>,
        closed: bool,
        buffer: &mut FlatContoursBuffer<I>,
    ) -> Result<(), IntStrokeError>
        requires { ArePathsSafe I.unit (stroke_padding (stroke_style_of I.value style.now)) (Self.paths self.now) }
        ensures stroke { OnOk result (HoldsSafeAnswer I.unit buffer.new
            (IsStroke I.unit (stroke_style_of I.value style.now) closed plain (Self.paths self.now))) }
        ensures regions { OnOk result (HoldsAnswer buffer.new
            (AreStrokeRegions I.unit (stroke_style_of I.value style.now) closed plain (Self.paths self.now))) }
        ensures edges { OnOk result (HoldsAnswer buffer.new
            (ResolvesPromisedEdges I.unit (stroke_style_of I.value style.now) closed plain (Self.paths self.now))) }
        ensures error { OnErr result (result ≡ Err IntOutlineError.OutOfMemory) }
        ensures err { OnErr result (buffer.new ≡ buffer.old) }
    {
        self.stroke_custom_into(alloc, style, closed, IntOverlayOptions::new(), buffer)
    }

    /// Gives the paths a width, and returns clean polygons: each an outer contour followed by its holes. The paths are
    /// all closed, or all open with a cap at each end. The strokes of all paths are combined, with these options.
    ///
    /// Every point has to stay in the safe range when it moves by the padding of the style; `validate_stroke` tests
    /// this. The only error is `OutOfMemory`, which means that memory was refused.
    final fn stroke_custom(
        &self,
        alloc: Global,
        style: &IntStrokeStyle<I>,
        closed: bool,
        options: IntOverlayOptions<I::WideUInt>,
    ) -> Result<IntShapes<I>, IntStrokeError>
        requires { ArePathsSafe I.unit (stroke_padding (stroke_style_of I.value style.now)) (Self.paths self.now) }
        ensures stroke { IfOk result (λ shapes. IsStroke I.unit (stroke_style_of I.value style.now) closed
            (choices_of I.WideUInt.value options) (Self.paths self.now) (shapes_of shapes.items)) }
        ensures regions { IfOk result (λ shapes. AreStrokeRegions I.unit (stroke_style_of I.value style.now) closed
            (choices_of I.WideUInt.value options) (Self.paths self.now) (shapes_of shapes.items)) }
        ensures edges { IfOk result (λ shapes. ResolvesPromisedEdges I.unit (stroke_style_of I.value style.now) closed
            (choices_of I.WideUInt.value options) (Self.paths self.now) (shapes_of shapes.items)) }
        ensures safe { IfOk result (λ shapes. ArePointsSafe I.unit (shapes_of shapes.items)) }
        ensures error { OnErr result (result ≡ Err IntOutlineError.OutOfMemory) }
    {
        let drawn = stroke_overlay(self, alloc, style, closed, options)?;
        Ok(drawn.overlay(OverlayRule::Subject, FillRule::Positive)?)
    }

    /// The same as `stroke_custom`, into a buffer: its contours are replaced by those of the result, in order and end
    /// to end, also where the result has none. After an error the buffer is unchanged.
    final fn stroke_custom_into(
        &self,
        alloc: Global,
        style: &IntStrokeStyle<I>,
        closed: bool,
        options: IntOverlayOptions<I::WideUInt>,
        buffer: &mut FlatContoursBuffer<I>,
    ) -> Result<(), IntStrokeError>
        requires { ArePathsSafe I.unit (stroke_padding (stroke_style_of I.value style.now)) (Self.paths self.now) }
        ensures stroke { OnOk result (HoldsSafeAnswer I.unit buffer.new
            (IsStroke I.unit (stroke_style_of I.value style.now) closed (choices_of I.WideUInt.value options)
            (Self.paths self.now))) }
        ensures regions { OnOk result (HoldsAnswer buffer.new
            (AreStrokeRegions I.unit (stroke_style_of I.value style.now) closed (choices_of I.WideUInt.value options)
            (Self.paths self.now))) }
        ensures edges { OnOk result (HoldsAnswer buffer.new
            (ResolvesPromisedEdges I.unit (stroke_style_of I.value style.now) closed
            (choices_of I.WideUInt.value options) (Self.paths self.now))) }
        ensures error { OnErr result (result ≡ Err IntOutlineError.OutOfMemory) }
        ensures err { OnErr result (buffer.new ≡ buffer.old) }
    {
        let drawn = stroke_overlay(self, alloc, style, closed, options)?;
        drawn.overlay_into(OverlayRule::Subject, FillRule::Positive, buffer)?;
        Ok(())
    }

    /// The same as `stroke_custom`, with a proved error bound, the nearness, in 64ths of a grid unit: at each point
    /// farther than it from all offset curves, the polygons hold exactly what the pieces of the strokes cover.
    ///
    /// Every split of an edge is added to `count`, those of attempts that were given up too. `TooManySplits` means that
    /// the count passed its limit, `OutOfMemory` that memory was refused. `CoordinateOutOfRange` is never returned.
    final fn stroke_with_nearness(
        &self,
        alloc: Global,
        style: &IntStrokeStyle<I>,
        closed: bool,
        options: IntOverlayOptions<I::WideUInt>,
        count: &mut SplitCount,
    ) -> Result<NearShapes<I>, IntNearnessError>
        requires { ArePathsSafe I.unit (stroke_padding (stroke_style_of I.value style.now)) (Self.paths self.now) }
        ensures regions { IfOk result (λ near. AreStrokeRegionsBeyond near.nearness I.unit
            (stroke_style_of I.value style.now) closed (choices_of I.WideUInt.value options) (Self.paths self.now)
            (shapes_of near.shapes.items)) }
        ensures standing { IfOk result (λ near. AreCountedStrokeRegions near.nearness I.unit
            (stroke_style_of I.value style.now) closed (choices_of I.WideUInt.value options) (Self.paths self.now)
            (shapes_of near.shapes.items) count.old count.new) }
        ensures edges { IfOk result (λ near. ResolvesPromisedEdges I.unit (stroke_style_of I.value style.now) closed
            (choices_of I.WideUInt.value options) (Self.paths self.now) (shapes_of near.shapes.items)) }
        ensures safe { IfOk result (λ near. ArePointsSafe I.unit (shapes_of near.shapes.items)) }
        ensures reach { IfOk result (λ near. WindsWithinReach near.nearness (stroke_style_of I.value style.now) closed
            (choices_of I.WideUInt.value options) (Self.paths self.now) (shapes_of near.shapes.items)) }
        ensures counted { CountsAttempts 1
            (AreAllEdges I.unit (stroke_style_of I.value style.now) closed (Self.paths self.now)) count.old count.new }
        ensures within { OnOk result (IsWithinLimit count.new) }
        ensures refused { result ≡ Err IntNearnessError.TooManySplits → IsPastLimit count.new }
        ensures in_range { ¬ result ≡ Err IntNearnessError.CoordinateOutOfRange }
    {
        // Read, so that it is known to fit: a return before any attempt counts none.
        let _made = count.made;
        let drawn = stroke_overlay(self, alloc, style, closed, options)?;
        Ok(drawn.overlay_with_nearness(OverlayRule::Subject, FillRule::Positive, count)?)
    }
}

impl<I: OverlayInt, S: IntShapeResource<I>> IntStrokeOffset<I> for S {
    fn validate_stroke(&self, style: &IntStrokeStyle<I>) -> Result<(), IntStrokeError> {
        validate_bounds(self, padding(style))
    }
}
