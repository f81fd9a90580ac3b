//! What each kind of drawing does.

ghost use Rattle.std.specs.Prelude.{◌≡◌, ◌↔◌, ◌≤◌, ◌^◌, IsOk, IfOk, OnErr, OnOk};
ghost use Rattle.mesh_num.specs.Paths.{paths_of, shapes_of};
ghost use Rattle.mesh_lattice.specs.Reach.{ArePointsSafe};
ghost use Rattle.mesh_below.specs.Options.{choices_of};
ghost use Rattle.mesh_split.specs.Counting.{IsPastLimit, IsWithinLimit};
ghost use Rattle.mesh_drawing.specs.Order.{by_values};
ghost use Rattle.mesh_drawing.specs.Drawn.{Drawn};
ghost use Rattle.mesh_drawing.specs.Drawings.{AreEdgesOf, AreShapesOf, DoAreasFit};
ghost use Rattle.mesh_drawing.specs.Nearness.{AreCountedShapes, CountsDrawn};
ghost use Rattle.mesh_drawing.specs.Paddings.{DoesStayInRange};
ghost use Rattle.mesh_drawing.specs.Regions.{AreRegionsOf};

use i_overlay_mesh::IntOutlineError;
use mesh_below::below::IntOverlayOptions;
use mesh_below::nearness::{NearShapes, SplitCount};
use mesh_num::num::OverlayInt;
use mesh_num::shape::buffer::IntShapes;
use mesh_num::shape::edge::DirectedEdge;
use mesh_offset::error::IntNearnessError;
use std::alloc::Global;

/// Options of shapes, wrapped: a method that names the type `I::WideUInt` in its arguments is not given the clauses of its
/// trait.
#[derive(Drop)]
pub(crate) struct ShapeOptions<I: OverlayInt>(pub IntOverlayOptions<I::WideUInt>);

/// A drawing of one kind.
pub(crate) trait Drawable<I: OverlayInt> {
    ghost drawn: { Self → Drawn };

    /// Tests whether it stays in range. The only error is `CoordinateOutOfRange`.
    fn validate(&self) -> Result<(), IntOutlineError>
        ensures safe { IsOk result ↔ DoesStayInRange I.unit (drawn self.now) }
        ensures error { OnErr result (result ≡ Err IntOutlineError.CoordinateOutOfRange) };

    /// The edges of what is drawn of each path, in their order.
    fn edges(&self, alloc: Global) -> Result<Vec<Vec<DirectedEdge<I>>>, IntOutlineError>
        requires { DoesStayInRange I.unit (drawn self.now) }
        ensures edges { IfOk result (λ lists. AreEdgesOf (by_values I.cmp I.of_value) I.unit (drawn self.now)
            (paths_of lists.items)) }
        ensures unfit { result ≡ Err IntOutlineError.CoordinateOutOfRange ↔ ¬ DoAreasFit I.unit (drawn self.now) };

    /// The shapes of what is drawn of all paths together.
    fn shapes(
        &self,
        alloc: Global,
        options: &ShapeOptions<I>,
    ) -> Result<IntShapes<I>, IntOutlineError>
        requires { DoesStayInRange I.unit (drawn self.now) }
        ensures shapes { IfOk result (λ shapes. AreShapesOf I.unit (choices_of I.WideUInt.value options.now.0)
            (drawn self.now) (shapes_of shapes.items)) }
        ensures regions { IfOk result (λ shapes. AreRegionsOf I.unit (choices_of I.WideUInt.value options.now.0)
            (drawn self.now) (shapes_of shapes.items)) }
        ensures safe { IfOk result (λ shapes. ArePointsSafe I.unit (shapes_of shapes.items)) }
        ensures unfit { result ≡ Err IntOutlineError.CoordinateOutOfRange ↔ ¬ DoAreasFit I.unit (drawn self.now) };

    /// The same with their nearness. The splits that are made are counted on.
    fn near_shapes(
        &self,
        alloc: Global,
        options: &ShapeOptions<I>,
        count: &mut SplitCount,
    ) -> Result<NearShapes<I>, IntNearnessError>
        requires { DoesStayInRange I.unit (drawn self.now) }
        ensures shapes { IfOk result (λ near. AreCountedShapes near.nearness I.unit
            (choices_of I.WideUInt.value options.now.0) (drawn self.now) (shapes_of near.shapes.items)
            count.old count.new) }
        ensures safe { IfOk result (λ near. ArePointsSafe I.unit (shapes_of near.shapes.items)) }
        ensures small { IfOk result (λ near. near.nearness ≤ 2 ^ 39) }
        ensures within { OnOk result (IsWithinLimit count.new) }
        ensures unfit { result ≡ Err IntNearnessError.CoordinateOutOfRange ↔ ¬ DoAreasFit I.unit (drawn self.now) }
        ensures counted { CountsDrawn I.unit (drawn self.now) count.old count.new }
        ensures past { result ≡ Err IntNearnessError.TooManySplits → IsPastLimit count.new };
}
