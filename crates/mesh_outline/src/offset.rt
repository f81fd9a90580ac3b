//! Outlines of contours: grows or shrinks polygons.

ghost use Rattle.std.specs.Prelude.{◌≡◌, ◌↔◌, ◌+◌, IsOk, IfOk, OnOk, OnErr, [], length};
ghost use Rattle.mesh_num.specs.Paths.{shapes_of};
ghost use Rattle.mesh_plane.specs.Plane.{Edge};
ghost use Rattle.mesh_num.specs.Rectangle.{IsBounds, IsSafeRectangle};
ghost use Rattle.mesh_join.specs.Joins.{outline_padding};
ghost use Rattle.mesh_join.specs.Styles.{style_of};
ghost use Rattle.mesh_offset.specs.Buffers.{HoldsAnswer, HoldsSafeAnswer};
ghost use Rattle.mesh_offset.specs.Padding.{ArePathsSafe, all_points, widened};
ghost use Rattle.mesh_split.specs.Counting.{IsPastLimit, IsWithinLimit};
ghost use Rattle.mesh_offset.specs.Counting.{CountsAttempts};
ghost use Rattle.mesh_outline.specs.Nearness.{
  AreCountedOutlineRegions,
  AreOutlineRegionsBeyond,
  IsOutlineDrawing,
};
ghost use Rattle.mesh_outline.specs.Reach.{DiffersWithinReach};
ghost use Rattle.mesh_outline.specs.Regions.{AreOutlineRegions};
ghost use Rattle.mesh_outline.specs.Resolved.{DoAreasFit, IsOutline, HavePromisedEdges};
ghost use Rattle.mesh_outline.specs.Staying.{StaysSafe};
ghost use Rattle.mesh_below.specs.Options.{choices_of, plain};
ghost use Rattle.mesh_lattice.specs.Reach.{ArePointsSafe};

use crate::bounds::validate_outline_bounds;
use crate::nearness::near_outline;
use crate::shapes::outline_shapes;
use mesh_below::below::IntOverlayOptions;
use mesh_below::nearness::{NearShapes, SplitCount};
use mesh_join::style::IntOutlineStyle;
use mesh_num::num::OverlayInt;
use mesh_num::shape::buffer::{FlatContoursBuffer, IntShapes};
use mesh_num::shape::resource::IntShapeResource;
use mesh_offset::error::{IntNearnessError, IntOutlineError};
use std::alloc::Global;

/// Outlines of the contours in a source. Outer boundaries run counterclockwise, holes clockwise, with y upwards.
pub trait IntOutlineOffset<I: OverlayInt>: IntShapeResource<I> {
    /// Tests whether the contours can be outlined in this style without leaving the safe range. `Ok` is returned
    /// exactly where there is no point, or where the bounds of all points, grown on each side by the padding of the
    /// style (the farthest that it moves a point), are in the safe range. This holds for every value of the type. The
    /// only error is `CoordinateOutOfRange`. It allocates nothing.
    fn validate_outline(&self, style: &IntOutlineStyle<I>) -> Result<(), IntOutlineError>
        ensures safe { IsOk result
            ↔ ArePathsSafe I.unit (outline_padding (style_of I.value style.now)) (Self.paths self.now) }
        ensures bounds { (bounds : Edge) → IsBounds bounds (all_points (Self.paths self.now))
            → IsOk result ↔ IsSafeRectangle I.unit (widened (outline_padding (style_of I.value style.now)) bounds) }
        ensures no_point { all_points (Self.paths self.now) ≡ [] → IsOk result }
        ensures error { OnErr result (result ≡ Err IntOutlineError.CoordinateOutOfRange) }
        ensures built { HavePromisedEdges I.unit (style_of I.value style.now) (Self.paths self.now) }
        ensures stays_safe { OnOk result (StaysSafe I.unit (style_of I.value style.now) (Self.paths self.now)) };

    /// The outline of the contours, with default options. See `outline_custom`.
    final fn outline(
        &self,
        alloc: Global,
        style: &IntOutlineStyle<I>,
    ) -> Result<IntShapes<I>, IntOutlineError>
        requires { ArePathsSafe I.unit (outline_padding (style_of I.value style.now)) (Self.paths self.now) }
        ensures outline { IfOk result (λ shapes. IsOutline I.unit (style_of I.value style.now) plain
            (Self.paths self.now) (shapes_of shapes.items)) }
        ensures regions { IfOk result (λ shapes. AreOutlineRegions I.unit (style_of I.value style.now) plain
            (Self.paths self.now) (shapes_of shapes.items)) }
        ensures safe { IfOk result (λ shapes. ArePointsSafe I.unit (shapes_of shapes.items)) }
        ensures refused { result ≡ Err IntOutlineError.CoordinateOutOfRange
            ↔ ¬ DoAreasFit I.Wide.half (Self.paths self.now) }
    {
        self.outline_custom(alloc, style, IntOverlayOptions::new())
    }

    /// The same as `outline`, into a buffer. See `outline_custom_into`.
    final fn outline_into(
        &self,
        alloc: Global,
        style: &IntOutlineStyle<I>,
        buffer: &mut FlatContoursBuffer<I>,
    ) -> Result<(), IntOutlineError>
        requires { ArePathsSafe I.unit (outline_padding (style_of I.value style.now)) (Self.paths self.now) }
        ensures outline { OnOk result (HoldsSafeAnswer I.unit buffer.new
            (IsOutline I.unit (style_of I.value style.now) plain (Self.paths self.now))) }
        ensures regions { OnOk result (HoldsAnswer buffer.new
            (AreOutlineRegions I.unit (style_of I.value style.now) plain (Self.paths self.now))) }
        ensures refused { result ≡ Err IntOutlineError.CoordinateOutOfRange
            ↔ ¬ DoAreasFit I.Wide.half (Self.paths self.now) }
        ensures err { OnErr result (buffer.new ≡ buffer.old) }
    {
        self.outline_custom_into(alloc, style, IntOverlayOptions::new(), buffer)
    }

    /// Moves each contour outwards by an offset, or inwards by a negative one, and returns clean polygons: each an
    /// outer contour followed by its holes.
    ///
    /// Contours of positive area are outer boundaries and move by the outer offset; those of negative area are holes
    /// and move by the inner offset; those of area 0 are left out. First, each contour's offset curve is cleaned up
    /// alone, with default options. Then all results are combined, with these options: outer boundaries add to the
    /// region, holes are cut out of it.
    ///
    /// Every point has to stay in the safe range when it moves by the padding of the style; `validate_outline` tests
    /// this. `CoordinateOutOfRange` is returned exactly where twice a contour's area does not fit the wide type, which
    /// is found before anything is built. `OutOfMemory` means that memory was refused.
    final fn outline_custom(
        &self,
        alloc: Global,
        style: &IntOutlineStyle<I>,
        options: IntOverlayOptions<I::WideUInt>,
    ) -> Result<IntShapes<I>, IntOutlineError>
        requires { ArePathsSafe I.unit (outline_padding (style_of I.value style.now)) (Self.paths self.now) }
        ensures outline { IfOk result (λ shapes. IsOutline I.unit (style_of I.value style.now)
            (choices_of I.WideUInt.value options) (Self.paths self.now) (shapes_of shapes.items)) }
        ensures regions { IfOk result (λ shapes. AreOutlineRegions I.unit (style_of I.value style.now)
            (choices_of I.WideUInt.value options) (Self.paths self.now) (shapes_of shapes.items)) }
        ensures safe { IfOk result (λ shapes. ArePointsSafe I.unit (shapes_of shapes.items)) }
        ensures refused { result ≡ Err IntOutlineError.CoordinateOutOfRange
            ↔ ¬ DoAreasFit I.Wide.half (Self.paths self.now) }
    {
        outline_shapes(self, alloc, style, options)
    }

    /// The same as `outline_custom`, into a buffer: its contours are replaced by those of the result, in order and end
    /// to end, also where the result has none. After an error the buffer is unchanged.
    final fn outline_custom_into(
        &self,
        alloc: Global,
        style: &IntOutlineStyle<I>,
        options: IntOverlayOptions<I::WideUInt>,
        buffer: &mut FlatContoursBuffer<I>,
    ) -> Result<(), IntOutlineError>
        requires { ArePathsSafe I.unit (outline_padding (style_of I.value style.now)) (Self.paths self.now) }
        ensures outline { OnOk result (HoldsSafeAnswer I.unit buffer.new
            (IsOutline I.unit (style_of I.value style.now) (choices_of I.WideUInt.value options)
            (Self.paths self.now))) }
        ensures regions { OnOk result (HoldsAnswer buffer.new
            (AreOutlineRegions I.unit (style_of I.value style.now) (choices_of I.WideUInt.value options)
            (Self.paths self.now))) }
        ensures refused { result ≡ Err IntOutlineError.CoordinateOutOfRange
            ↔ ¬ DoAreasFit I.Wide.half (Self.paths self.now) }
        ensures err { OnErr result (buffer.new ≡ buffer.old) }
    {
        let shapes = outline_shapes(self, alloc, style, options)?;
        buffer.replace_with(&shapes)?;
        Ok(())
    }

    /// The same as `outline_custom`, with a proved error bound, the nearness, in 64ths of a grid unit: at each point
    /// farther than it from all offset curves, the polygons hold exactly what the contours' outlines fill. It is the
    /// greatest error bound of a contour cleaned up alone plus that of the last step.
    ///
    /// Every split of an edge is added to `count`, those of attempts that were given up too. `TooManySplits` means that
    /// the count passed its limit; the other errors are those of `outline_custom`.
    final fn outline_with_nearness(
        &self,
        alloc: Global,
        style: &IntOutlineStyle<I>,
        options: IntOverlayOptions<I::WideUInt>,
        count: &mut SplitCount,
    ) -> Result<NearShapes<I>, IntNearnessError>
        requires { ArePathsSafe I.unit (outline_padding (style_of I.value style.now)) (Self.paths self.now) }
        ensures regions { IfOk result (λ near. AreOutlineRegionsBeyond near.nearness I.unit
            (style_of I.value style.now) (choices_of I.WideUInt.value options) (Self.paths self.now)
            (shapes_of near.shapes.items)) }
        ensures standing { IfOk result (λ near. AreCountedOutlineRegions near.nearness I.unit
            (style_of I.value style.now) (choices_of I.WideUInt.value options) (Self.paths self.now)
            (shapes_of near.shapes.items) count.old count.new) }
        ensures safe { IfOk result (λ near. ArePointsSafe I.unit (shapes_of near.shapes.items)) }
        ensures reach { IfOk result (λ near. DiffersWithinReach near.nearness (style_of I.value style.now)
            (choices_of I.WideUInt.value options) (Self.paths self.now) (shapes_of near.shapes.items)) }
        ensures unfit { result ≡ Err IntNearnessError.CoordinateOutOfRange
            ↔ ¬ DoAreasFit I.Wide.half (Self.paths self.now) }
        ensures counted { CountsAttempts (length (Self.paths self.now) + 1)
            (IsOutlineDrawing I.unit (style_of I.value style.now) (Self.paths self.now)) count.old count.new }
        ensures within { OnOk result (IsWithinLimit count.new) }
        ensures refused { result ≡ Err IntNearnessError.TooManySplits → IsPastLimit count.new }
    {
        near_outline(self, alloc, style, options, count)
    }
}

impl<I: OverlayInt, S: IntShapeResource<I>> IntOutlineOffset<I> for S {
    fn validate_outline(&self, style: &IntOutlineStyle<I>) -> Result<(), IntOutlineError> {
        validate_outline_bounds(self, style)
    }
}
