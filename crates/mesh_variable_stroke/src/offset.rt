//! Strokes whose width changes from vertex to vertex.

ghost use Rattle.std.specs.Prelude.{◌≡◌, ◌↔◌, IsOk, IfOk, OnOk, OnErr, []};
ghost use Rattle.mesh_num.specs.Paths.{shapes_of};
ghost use Rattle.mesh_num.specs.Rectangle.{IsBounds, IsSafeRectangle};
ghost use Rattle.mesh_plane.specs.Plane.{Edge};
ghost use Rattle.mesh_lattice.specs.Reach.{ArePointsSafe};
ghost use Rattle.mesh_below.specs.Options.{choices_of, plain};
ghost use Rattle.mesh_arc.specs.declared.arc.ArcOptions.{ArcOptions};
ghost use Rattle.mesh_offset.specs.Buffers.{HoldsAnswer, HoldsSafeAnswer};
ghost use Rattle.mesh_offset.specs.Padding.{widened};
ghost use Rattle.mesh_variable_stroke.specs.Regions.{
  AreCountedVariableStrokeRegions,
  AreVariableStrokeRegions,
  AreVariableStrokeRegionsBeyond,
};
ghost use Rattle.mesh_variable_stroke.specs.Reach.{WindsWithinReach};
ghost use Rattle.mesh_variable_stroke.specs.Resolved.{IsVariableStroke, HavePromisedEdges, AreAllEdges};
ghost use Rattle.mesh_variable_stroke.specs.ResolvedEdges.{ResolvesPromisedEdges};
ghost use Rattle.mesh_split.specs.Counting.{IsPastLimit, IsWithinLimit};
ghost use Rattle.mesh_offset.specs.Counting.{CountsAttempts};
ghost use Rattle.mesh_variable_stroke.specs.Staying.{StaysSafe};
ghost use Rattle.mesh_variable_stroke.specs.Strokable.{ArePathsStrokable, all_vertex_points, padding_of};

use crate::bounds::validate_vertices;
use crate::resolve::stroke_overlay;
use crate::resource::IntVariableStrokeSource;
use mesh_below::below::{FillRule, IntOverlayOptions, OverlayRule};
use mesh_below::nearness::{NearShapes, SplitCount};
use mesh_join::style::IntVariableStrokeStyle;
use mesh_num::num::OverlayInt;
use mesh_num::shape::buffer::{FlatContoursBuffer, IntShapes};
use mesh_offset::error::{IntNearnessError, IntOutlineError, IntVariableStrokeError};
use std::alloc::Global;

/// Strokes of the paths in a source, each vertex with its own width. The radius of a vertex is half its width, rounded
/// up; a width below 0 counts as 0.
pub trait IntVariableStrokeOffset<I: OverlayInt>: IntVariableStrokeSource<I> {
    /// Tests whether the paths can be stroked without leaving the safe range. `Ok` is returned exactly where there is
    /// no vertex, or where the bounds of all points, grown on each side by the greatest radius of all vertices, are in
    /// the safe range. This holds for every value of the type. The only error is `CoordinateOutOfRange`. It allocates
    /// nothing.
    fn validate_variable_stroke(&self) -> Result<(), IntVariableStrokeError>
        ensures safe { IsOk result ↔ ArePathsStrokable I.unit (Self.paths self.now) }
        ensures bounds { (bounds : Edge) → IsBounds bounds (all_vertex_points (Self.paths self.now))
            → IsOk result ↔ IsSafeRectangle I.unit (widened (padding_of (Self.paths self.now)) bounds) }
        ensures no_point { all_vertex_points (Self.paths self.now) ≡ [] → IsOk result }
        ensures error { OnErr result (result ≡ Err IntOutlineError.CoordinateOutOfRange) }
        ensures built { OnOk result ((arc : ArcOptions) → HavePromisedEdges I.unit arc (Self.paths self.now)) }
        ensures stays_safe { OnOk result ((arc : ArcOptions) → StaysSafe I.unit arc (Self.paths self.now)) };

    /// The stroke of the paths, with default options. See `variable_stroke_custom`.
    final fn variable_stroke(
        &self,
        alloc: Global,
        style: IntVariableStrokeStyle,
    ) -> Result<IntShapes<I>, IntVariableStrokeError>
        requires { ArePathsStrokable I.unit (Self.paths self.now) }
        ensures stroke { IfOk result (λ shapes. IsVariableStroke I.unit style.arc plain (Self.paths self.now)
            (shapes_of shapes.items)) }
        ensures regions { IfOk result (λ shapes. AreVariableStrokeRegions I.unit style.arc plain (Self.paths self.now)
            (shapes_of shapes.items)) }
        ensures edges { IfOk result (λ shapes. ResolvesPromisedEdges I.unit style.arc plain (Self.paths self.now)
            (shapes_of shapes.items)) }
        ensures safe { IfOk result (λ shapes. ArePointsSafe I.unit (shapes_of shapes.items)) }
        ensures error { OnErr result (result ≡ Err IntOutlineError.OutOfMemory) }
    {
        self.variable_stroke_custom(alloc, style, IntOverlayOptions::new())
    }

    /// The same as `variable_stroke`, into a buffer. See `variable_stroke_custom_into`.
    final fn variable_stroke_into(
        &self,
        alloc: Global,
        style: IntVariableStrokeStyle,
        buffer: &mut FlatContoursBuffer<I>,
    ) -> Result<(), IntVariableStrokeError>
        requires { ArePathsStrokable I.unit (Self.paths self.now) }
        ensures stroke { OnOk result (HoldsSafeAnswer I.unit buffer.new
            (IsVariableStroke I.unit style.arc plain (Self.paths self.now))) }
        ensures regions { OnOk result (HoldsAnswer buffer.new
            (AreVariableStrokeRegions I.unit style.arc plain (Self.paths self.now))) }
        ensures edges { OnOk result (HoldsAnswer buffer.new
            (ResolvesPromisedEdges I.unit style.arc plain (Self.paths self.now))) }
        ensures error { OnErr result (result ≡ Err IntOutlineError.OutOfMemory) }
        ensures err { OnErr result (buffer.new ≡ buffer.old) }
    {
        self.variable_stroke_custom_into(alloc, style, IntOverlayOptions::new(), buffer)
    }

    /// Gives each path the width of its vertices, with round ends and corners, and returns clean polygons: each an
    /// outer contour followed by its holes. Every path is open. The strokes of all paths are combined, with these
    /// options.
    ///
    /// Every point has to stay in the safe range when it moves by the greatest radius of all vertices;
    /// `validate_variable_stroke` tests this. The only error is `OutOfMemory`, which means that memory was refused.
    final fn variable_stroke_custom(
        &self,
        alloc: Global,
        style: IntVariableStrokeStyle,
        options: IntOverlayOptions<I::WideUInt>,
    ) -> Result<IntShapes<I>, IntVariableStrokeError>
        requires { ArePathsStrokable I.unit (Self.paths self.now) }
        ensures stroke { IfOk result (λ shapes. IsVariableStroke I.unit style.arc (choices_of I.WideUInt.value options)
            (Self.paths self.now) (shapes_of shapes.items)) }
        ensures regions { IfOk result (λ shapes. AreVariableStrokeRegions I.unit style.arc
            (choices_of I.WideUInt.value options) (Self.paths self.now) (shapes_of shapes.items)) }
        ensures edges { IfOk result (λ shapes. ResolvesPromisedEdges I.unit style.arc
            (choices_of I.WideUInt.value options) (Self.paths self.now) (shapes_of shapes.items)) }
        ensures safe { IfOk result (λ shapes. ArePointsSafe I.unit (shapes_of shapes.items)) }
        ensures error { OnErr result (result ≡ Err IntOutlineError.OutOfMemory) }
    {
        let drawn = stroke_overlay(self, alloc, style, options)?;
        Ok(drawn.overlay(OverlayRule::Subject, FillRule::Positive)?)
    }

    /// The same as `variable_stroke_custom`, into a buffer: its contours are replaced by those of the result, in order
    /// and end to end, also where the result has none. After an error the buffer is unchanged.
    final fn variable_stroke_custom_into(
        &self,
        alloc: Global,
        style: IntVariableStrokeStyle,
        options: IntOverlayOptions<I::WideUInt>,
        buffer: &mut FlatContoursBuffer<I>,
    ) -> Result<(), IntVariableStrokeError>
        requires { ArePathsStrokable I.unit (Self.paths self.now) }
        ensures stroke { OnOk result (HoldsSafeAnswer I.unit buffer.new
            (IsVariableStroke I.unit style.arc (choices_of I.WideUInt.value options) (Self.paths self.now))) }
        ensures regions { OnOk result (HoldsAnswer buffer.new
            (AreVariableStrokeRegions I.unit style.arc (choices_of I.WideUInt.value options) (Self.paths self.now))) }
        ensures edges { OnOk result (HoldsAnswer buffer.new
            (ResolvesPromisedEdges I.unit style.arc (choices_of I.WideUInt.value options) (Self.paths self.now))) }
        ensures error { OnErr result (result ≡ Err IntOutlineError.OutOfMemory) }
        ensures err { OnErr result (buffer.new ≡ buffer.old) }
    {
        let drawn = stroke_overlay(self, alloc, style, options)?;
        drawn.overlay_into(OverlayRule::Subject, FillRule::Positive, buffer)?;
        Ok(())
    }

    /// The same as `variable_stroke_custom`, with a proved error bound, the nearness, in 64ths of a grid unit: at each
    /// point farther than it from all offset curves, the polygons hold exactly what the pieces of the strokes cover.
    ///
    /// Every split of an edge is added to `count`, those of attempts that were given up too. `TooManySplits` means that
    /// the count passed its limit, `OutOfMemory` that memory was refused. `CoordinateOutOfRange` is never returned.
    final fn variable_stroke_with_nearness(
        &self,
        alloc: Global,
        style: IntVariableStrokeStyle,
        options: IntOverlayOptions<I::WideUInt>,
        count: &mut SplitCount,
    ) -> Result<NearShapes<I>, IntNearnessError>
        requires { ArePathsStrokable I.unit (Self.paths self.now) }
        ensures regions { IfOk result (λ near. AreVariableStrokeRegionsBeyond near.nearness I.unit style.arc
            (choices_of I.WideUInt.value options) (Self.paths self.now) (shapes_of near.shapes.items)) }
        ensures standing { IfOk result (λ near. AreCountedVariableStrokeRegions near.nearness I.unit style.arc
            (choices_of I.WideUInt.value options) (Self.paths self.now) (shapes_of near.shapes.items)
            count.old count.new) }
        ensures edges { IfOk result (λ near. ResolvesPromisedEdges I.unit style.arc
            (choices_of I.WideUInt.value options) (Self.paths self.now) (shapes_of near.shapes.items)) }
        ensures safe { IfOk result (λ near. ArePointsSafe I.unit (shapes_of near.shapes.items)) }
        ensures reach { IfOk result (λ near. WindsWithinReach near.nearness (choices_of I.WideUInt.value options)
            (Self.paths self.now) (shapes_of near.shapes.items)) }
        ensures counted { CountsAttempts 1 (AreAllEdges I.unit style.arc (Self.paths self.now)) count.old count.new }
        ensures within { OnOk result (IsWithinLimit count.new) }
        ensures refused { result ≡ Err IntNearnessError.TooManySplits → IsPastLimit count.new }
        ensures in_range { ¬ result ≡ Err IntNearnessError.CoordinateOutOfRange }
    {
        // Read, so that it is known to fit: a return before any attempt counts none.
        let _made = count.made;
        let drawn = stroke_overlay(self, alloc, style, options)?;
        Ok(drawn.overlay_with_nearness(OverlayRule::Subject, FillRule::Positive, count)?)
    }
}

impl<I: OverlayInt, S: IntVariableStrokeSource<I>> IntVariableStrokeOffset<I> for S {
    fn validate_variable_stroke(&self) -> Result<(), IntVariableStrokeError> {
        validate_vertices(self)
    }
}
