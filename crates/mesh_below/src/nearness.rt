//! The overlay with a proved error bound.

ghost use Rattle.std.specs.Prelude.{◌≡◌, ◌≤◌, ◌^◌, IfOk, OnOk};
ghost use Rattle.std.specs.List.{All};
ghost use Rattle.mesh_num.specs.Paths.{shapes_of};
ghost use Rattle.mesh_num.specs.Segments.{IsSubject, edges_of};
ghost use Rattle.mesh_plane.specs.Winding.{IsBalanced};
ghost use Rattle.mesh_lattice.specs.FillRules.{filled, filled_by};
ghost use Rattle.mesh_lattice.specs.Reach.{AreEdgesSafe, ArePointsSafe};
ghost use Rattle.mesh_shapes.specs.Resolution.{IsResolution};
ghost use Rattle.mesh_ahead.specs.Counting.{CountsSplits};
ghost use Rattle.mesh_split.specs.Counting.{IsPastLimit, IsWithinLimit};
ghost use Rattle.mesh_split.specs.declared.count.SplitError.TheVariants.{TooManySplits};
ghost use Rattle.mesh_below.specs.Asked.{AreResolvable};
ghost use Rattle.mesh_below.specs.Nearness.{AreCountedRegions, AreRegionsBeyond};
ghost use Rattle.mesh_below.specs.Options.{choices_of};

use crate::answer::int_shapes;
use crate::below::{FillRule, Overlay, OverlayRule, WindingRule};
use crate::given::lattice_edges;
use crate::resolve::resolve_with_nearness;
use mesh_num::num::IntNumber;
use mesh_num::shape::buffer::IntShapes;
pub use mesh_split::count::{SplitCount, SplitError};

/// Polygons with a proved error bound.
#[derive(Debug, Drop)]
pub struct NearShapes<I: IntNumber> {
    /// The polygons.
    pub shapes: IntShapes<I>,
    /// The error bound, in 64ths of a grid unit, rounded up. The polygons are exactly right at each point that is
    /// farther than this from every given edge; distance is the greater of the differences in x and in y. 0 means that
    /// rounding moved nothing.
    pub nearness: u64,
}

impl<I: IntNumber> Overlay<I> {
    /// The same as `overlay`, with a proved error bound, the nearness: at each point farther than it from all given
    /// edges the polygons hold exactly what the edges fill, and each point of their contours lies within it of a given
    /// edge. It requires what `overlay` requires.
    ///
    /// Every split of an edge is added to `count`, those of attempts that were given up too. `TooManySplits` means that
    /// the count passed its limit, `OutOfMemory` that memory was refused. The overlay is unchanged in any case.
    pub fn overlay_with_nearness(
        &self,
        rule: OverlayRule,
        fill: FillRule,
        count: &mut SplitCount,
    ) -> Result<NearShapes<I>, SplitError>
        requires subject { All IsSubject self.now.segments.items }
        requires balanced { IsBalanced (edges_of self.now.segments.items) }
        requires safe { AreEdgesSafe I.unit (edges_of self.now.segments.items) }
        ensures resolution { IfOk result (λ near. IsResolution (edges_of self.now.segments.items) (filled fill)
            (choices_of I.WideUInt.value self.now.options) (shapes_of near.shapes.items)) }
        ensures regions { IfOk result (λ near. AreRegionsBeyond near.nearness (edges_of self.now.segments.items)
            (filled fill) (choices_of I.WideUInt.value self.now.options) (shapes_of near.shapes.items)) }
        ensures standing { IfOk result (λ near. AreCountedRegions near.nearness (edges_of self.now.segments.items)
            (filled fill) (choices_of I.WideUInt.value self.now.options) (shapes_of near.shapes.items)
            count.old count.new) }
        ensures safe { IfOk result (λ near. ArePointsSafe I.unit (shapes_of near.shapes.items)) }
        ensures small { IfOk result (λ near. near.nearness ≤ 2 ^ 38) }
        ensures counted { CountsSplits (edges_of self.now.segments.items) count.old count.new }
        ensures within { OnOk result (IsWithinLimit count.new) }
        ensures refused { result ≡ Err SplitError.TooManySplits → IsPastLimit count.new }
    {
        match rule {
            OverlayRule::Subject => self.resolved_with_nearness(fill.winding_rule(), count),
        }
    }

    /// The same as `overlay_with_nearness`, by any rule of the engine. Booleans are resolved so.
    pub fn overlay_by_with_nearness(
        &self,
        rule: WindingRule,
        count: &mut SplitCount,
    ) -> Result<NearShapes<I>, SplitError>
        requires subject { All IsSubject self.now.segments.items }
        requires balanced { IsBalanced (edges_of self.now.segments.items) }
        requires safe { AreEdgesSafe I.unit (edges_of self.now.segments.items) }
        ensures resolution { IfOk result (λ near. IsResolution (edges_of self.now.segments.items) (filled_by rule)
            (choices_of I.WideUInt.value self.now.options) (shapes_of near.shapes.items)) }
        ensures regions { IfOk result (λ near. AreRegionsBeyond near.nearness (edges_of self.now.segments.items)
            (filled_by rule) (choices_of I.WideUInt.value self.now.options) (shapes_of near.shapes.items)) }
        ensures standing { IfOk result (λ near. AreCountedRegions near.nearness (edges_of self.now.segments.items)
            (filled_by rule) (choices_of I.WideUInt.value self.now.options) (shapes_of near.shapes.items)
            count.old count.new) }
        ensures safe { IfOk result (λ near. ArePointsSafe I.unit (shapes_of near.shapes.items)) }
        ensures small { IfOk result (λ near. near.nearness ≤ 2 ^ 38) }
        ensures counted { CountsSplits (edges_of self.now.segments.items) count.old count.new }
        ensures within { OnOk result (IsWithinLimit count.new) }
        ensures refused { result ≡ Err SplitError.TooManySplits → IsPastLimit count.new }
    {
        self.resolved_with_nearness(rule, count)
    }

    /// What all segments fill, and how near.
    fn resolved_with_nearness(
        &self,
        fill: WindingRule,
        count: &mut SplitCount,
    ) -> Result<NearShapes<I>, SplitError>
        requires { AreResolvable I.unit self.now.segments.items }
        ensures standing { IfOk result (λ near. AreCountedRegions near.nearness (edges_of self.now.segments.items)
            (filled_by fill) (choices_of I.WideUInt.value self.now.options) (shapes_of near.shapes.items)
            count.old count.new) }
        ensures safe { IfOk result (λ near. ArePointsSafe I.unit (shapes_of near.shapes.items)) }
        ensures small { IfOk result (λ near. near.nearness ≤ 2 ^ 38) }
        ensures counted { CountsSplits (edges_of self.now.segments.items) count.old count.new }
        ensures within { OnOk result (IsWithinLimit count.new) }
        ensures refused { result ≡ Err SplitError.TooManySplits → IsPastLimit count.new }
    {
        // Read, so that it is known to fit: a return before any attempt counts none.
        let _made = count.made;
        let alloc = *self.segments.allocator();
        let edges = lattice_edges(alloc, &self.segments)?;
        let answer = resolve_with_nearness(alloc, &edges, fill, self.choices(), count)?;
        Ok(NearShapes {
            shapes: int_shapes(alloc, &answer.shapes)?,
            nearness: answer.nearness,
        })
    }
}
