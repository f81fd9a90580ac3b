//! The overlay: computes the region that directed edges fill, and returns it as polygons with holes.

ghost use Rattle.std.specs.Prelude.{◌≡◌, ◌↔◌, ◌+◌, ◌≤◌, ◌++◌, true, List, [], length, vec_capacity, IsTrue};
ghost use Rattle.std.specs.Prelude.{IfOk, IsOk, OnOk, OnErr};
ghost use Rattle.std.specs.List.{All, flat_map};
ghost use Rattle.mesh_num.specs.FlatContours.{HoldsContours};
ghost use Rattle.mesh_num.specs.Paths.{contours_of, shapes_of};
ghost use Rattle.mesh_plane.specs.Plane.{Point};
ghost use Rattle.mesh_num.specs.Segments.{IsSubject, edges_of};
ghost use Rattle.mesh_plane.specs.Winding.{IsBalanced, boundary};
ghost use Rattle.mesh_lattice.specs.FillRules.{filled, filled_by};
ghost use Rattle.mesh_lattice.specs.declared.fill.FillRule.TheVariants.{Positive};
ghost use Rattle.mesh_below.specs.Answers.{AreOwnBoundary, IsSettled};
ghost use Rattle.mesh_below.specs.Asked.{AreResolvable};
ghost use Rattle.mesh_below.specs.Laws.{AreRegions};
ghost use Rattle.mesh_below.specs.Private.OverlayAnswers.{IsOverlayAnswer};
ghost use Rattle.mesh_below.specs.Options.{choices_of, chosen, plain};
ghost use Rattle.mesh_lattice.specs.Reach.{AreEdgesSafe, ArePointsSafe};
ghost use Rattle.mesh_shapes.specs.Resolution.{IsResolution};

use crate::answer::{int_shapes, lattice_contours};
use crate::given::lattice_edges;
use crate::resolve::{Choices, arranged_contours, resolve};
pub use mesh_lattice::fill::{FillRule, WindingRule};
use mesh_num::num::{IntNumber, WideUnsigned};
use mesh_num::shape::buffer::{FlatContoursBuffer, IntShapes};
use mesh_num::shape::segment::Segment;
use std::alloc::{AllocError, Global};

/// Which segments take part in an overlay. All segments here belong to the subject.
#[derive(Debug, Copy, Clone, PartialEq, Eq)]
pub enum OverlayRule {
    /// All segments.
    Subject,
}

/// The direction in which outer contours run. Holes run the other way.
#[derive(Debug, Copy, Clone, PartialEq, Eq)]
pub enum ContourDirection {
    /// Outer contours counterclockwise, holes clockwise.
    CounterClockwise,
    /// Outer contours clockwise, holes counterclockwise.
    Clockwise,
}

impl Default for ContourDirection {
    ghost use Rattle.mesh_below.specs.declared.below.ContourDirection.TheVariants.{CounterClockwise};

    ghost is_default = { λ direction. direction ≡ CounterClockwise };

    fn default() -> Self {
        ContourDirection::CounterClockwise
    }
}

/// Options of the result. `U` is the unsigned type that holds an area: `u32` for `i16`, `u64` for `i32`.
#[derive(Debug, Copy, Clone)]
pub struct IntOverlayOptions<U> {
    /// Contours that enclose less area than this, in square grid units, are left out. 0 keeps all of them.
    pub min_output_area: U,
    /// The direction in which outer contours run.
    pub output_direction: ContourDirection,
    /// Whether vertices on a straight line between their neighbours are kept.
    pub preserve_output_collinear: bool,
}

impl<U: WideUnsigned> IntOverlayOptions<U> {
    /// The default options: every contour is kept, outer contours run counterclockwise, and vertices on a straight line
    /// are dropped.
    pub fn new() -> Self
        ensures { choices_of U.value result ≡ plain }
    {
        IntOverlayOptions {
            min_output_area: U::from_u128(0),
            output_direction: ContourDirection::CounterClockwise,
            preserve_output_collinear: false,
        }
    }

    /// Whether these are the default options.
    pub fn is_default(&self) -> bool
        ensures { IsTrue result ↔ choices_of U.value self.now ≡ plain }
    {
        self.min_output_area.to_u128() == 0
            && self.output_direction == ContourDirection::CounterClockwise
            && !self.preserve_output_collinear
    }
}

impl<U: WideUnsigned> Default for IntOverlayOptions<U> {
    ghost is_default = { λ o. choices_of U.value o ≡ plain };

    fn default() -> Self {
        Self::new()
    }
}

/// The polygons of an overlay, and what is known of them that can save a second overlay.
#[derive(Debug, Drop)]
pub struct OverlayAnswer<I: IntNumber> {
    /// The shapes.
    pub shapes: IntShapes<I>,
    /// Whether the polygons would come back unchanged from a second overlay: they are also an answer for the edges of
    /// their own contours, by the fill rule `Positive` and with the same options. `false` means that this is not known.
    pub is_settled: bool,
    /// Whether the edges of these contours are known to need no splitting: they share only common ends, and each has
    /// the filled region on its left alone, by the fill rule `Positive`. Then `arranged` turns them into polygons
    /// again, with any options. `false` means that this is not known.
    pub is_own_boundary: bool,
}

/// Segments to be turned into polygons.
#[derive(Debug, Drop)]
pub struct Overlay<I: IntNumber> {
    /// The segments, in any order.
    pub segments: Vec<Segment<I>>,
    /// Options of the result.
    pub options: IntOverlayOptions<I::WideUInt>,
}

impl<I: IntNumber> Overlay<I> {
    /// An overlay of these segments, with the default options. It allocates nothing.
    pub fn with_segments(segments: Vec<Segment<I>>) -> Self
        ensures segments { result.segments ≡ segments }
        ensures options { choices_of I.WideUInt.value result.options ≡ plain }
    {
        Overlay {
            segments,
            options: IntOverlayOptions::new(),
        }
    }

    /// Adds segments to the overlay. It succeeds where the vector has room for them. `Err` means that memory was
    /// refused; the overlay is then unchanged.
    pub fn add_segments(&mut self, segments: &[Segment<I>]) -> Result<(), AllocError>
        ensures ok { OnOk result (self.new.segments.items ≡ self.old.segments.items ++ segments.now) }
        ensures err { OnErr result (self.new.segments.items ≡ self.old.segments.items) }
        ensures options { self.new.options ≡ self.old.options }
        ensures room { length self.old.segments.items + length segments.now ≤ vec_capacity self.old.segments
            → IsOk result }
        ensures nothing { segments.now ≡ [] → IsOk result }
        ensures capacity { vec_capacity self.old.segments ≤ vec_capacity self.new.segments }
    {
        self.segments.extend_from_slice(segments)
    }

    /// The polygons of the region that the segments fill: each polygon is its outer contour followed by its holes.
    ///
    /// The segments have to be such as `Segment::subject` makes, balanced (at each point as many edges start as end),
    /// and in the safe range: coordinates of a size below 2^14 for `i16` and below 2^30 for `i32`, in grid units.
    /// `are_resolvable` in `checks` tests this. `Err` means that memory was refused. The overlay is unchanged in any
    /// case.
    pub fn overlay(&self, rule: OverlayRule, fill: FillRule) -> Result<IntShapes<I>, AllocError>
        requires subject { All IsSubject self.now.segments.items }
        requires balanced { IsBalanced (edges_of self.now.segments.items) }
        requires safe { AreEdgesSafe I.unit (edges_of self.now.segments.items) }
        ensures resolution { IfOk result (λ shapes. IsResolution (edges_of self.now.segments.items) (filled fill)
            (choices_of I.WideUInt.value self.now.options) (shapes_of shapes.items)) }
        ensures regions { IfOk result (λ shapes. AreRegions (edges_of self.now.segments.items) (filled fill)
            (choices_of I.WideUInt.value self.now.options) (shapes_of shapes.items)) }
        ensures safe { IfOk result (λ shapes. ArePointsSafe I.unit (shapes_of shapes.items)) }
    {
        Ok(self.overlay_answer(rule, fill)?.shapes)
    }

    /// The same as `overlay`, together with what is known of the polygons. Nothing is known where the options ask for a
    /// least area above 0 or for outer contours that run clockwise. Otherwise the polygons are settled where every
    /// point of the boundary is a vertex, and they need no splitting where only one edge of the boundary starts at each
    /// point that is not a vertex.
    pub fn overlay_answer(
        &self,
        rule: OverlayRule,
        fill: FillRule,
    ) -> Result<OverlayAnswer<I>, AllocError>
        requires subject { All IsSubject self.now.segments.items }
        requires balanced { IsBalanced (edges_of self.now.segments.items) }
        requires safe { AreEdgesSafe I.unit (edges_of self.now.segments.items) }
        ensures resolution { IfOk result (λ answer. IsResolution (edges_of self.now.segments.items) (filled fill)
            (choices_of I.WideUInt.value self.now.options) (shapes_of answer.shapes.items)) }
        ensures regions { IfOk result (λ answer. AreRegions (edges_of self.now.segments.items) (filled fill)
            (choices_of I.WideUInt.value self.now.options) (shapes_of answer.shapes.items)) }
        ensures safe { IfOk result (λ answer. ArePointsSafe I.unit (shapes_of answer.shapes.items)) }
        ensures settled { IfOk result (λ answer. answer.is_settled ≡ true
            → IsSettled (choices_of I.WideUInt.value self.now.options) (shapes_of answer.shapes.items)) }
        ensures own_boundary { IfOk result (λ answer. answer.is_own_boundary ≡ true
            → AreOwnBoundary (flat_map boundary (contours_of (shapes_of answer.shapes.items)))) }
    {
        match rule {
            OverlayRule::Subject => self.resolved(fill.winding_rule()),
        }
    }

    /// The same as `overlay_answer`, by any rule of the engine. Booleans are resolved so.
    pub fn overlay_by(&self, rule: WindingRule) -> Result<OverlayAnswer<I>, AllocError>
        requires subject { All IsSubject self.now.segments.items }
        requires balanced { IsBalanced (edges_of self.now.segments.items) }
        requires safe { AreEdgesSafe I.unit (edges_of self.now.segments.items) }
        ensures resolution { IfOk result (λ answer. IsResolution (edges_of self.now.segments.items) (filled_by rule)
            (choices_of I.WideUInt.value self.now.options) (shapes_of answer.shapes.items)) }
        ensures regions { IfOk result (λ answer. AreRegions (edges_of self.now.segments.items) (filled_by rule)
            (choices_of I.WideUInt.value self.now.options) (shapes_of answer.shapes.items)) }
        ensures safe { IfOk result (λ answer. ArePointsSafe I.unit (shapes_of answer.shapes.items)) }
        ensures settled { IfOk result (λ answer. answer.is_settled ≡ true
            → IsSettled (choices_of I.WideUInt.value self.now.options) (shapes_of answer.shapes.items)) }
        ensures own_boundary { IfOk result (λ answer. answer.is_own_boundary ≡ true
            → AreOwnBoundary (flat_map boundary (contours_of (shapes_of answer.shapes.items)))) }
    {
        self.resolved(rule)
    }

    /// Replaces the contours in the buffer by those of `overlay`, polygon by polygon. It requires what `overlay`
    /// requires. `Err` means that memory was refused; the buffer is then unchanged. The overlay is unchanged in any
    /// case.
    pub fn overlay_into(
        &self,
        rule: OverlayRule,
        fill: FillRule,
        buffer: &mut FlatContoursBuffer<I>,
    ) -> Result<(), AllocError>
        requires subject { All IsSubject self.now.segments.items }
        requires balanced { IsBalanced (edges_of self.now.segments.items) }
        requires safe { AreEdgesSafe I.unit (edges_of self.now.segments.items) }
        ensures resolution { OnOk result ((answer : List (List (List Point)))
            × IsResolution (edges_of self.now.segments.items) (filled fill)
            (choices_of I.WideUInt.value self.now.options) answer
            × ArePointsSafe I.unit answer
            × HoldsContours buffer.new (contours_of answer)) }
        ensures regions { OnOk result ((answer : List (List (List Point)))
            × AreRegions (edges_of self.now.segments.items) (filled fill)
            (choices_of I.WideUInt.value self.now.options) answer
            × HoldsContours buffer.new (contours_of answer)) }
        ensures err { OnErr result (buffer.new ≡ buffer.old) }
    {
        let shapes = self.overlay(rule, fill)?;
        buffer.replace_with(&shapes)
    }

    /// What all segments fill.
    fn resolved(&self, fill: WindingRule) -> Result<OverlayAnswer<I>, AllocError>
        requires { AreResolvable I.unit self.now.segments.items }
        ensures { IfOk result (λ answer. IsOverlayAnswer I.unit (edges_of self.now.segments.items) (filled_by fill)
            (choices_of I.WideUInt.value self.now.options) (shapes_of answer.shapes.items)
            answer.is_settled answer.is_own_boundary) }
    {
        let alloc = *self.segments.allocator();
        let edges = lattice_edges(alloc, &self.segments)?;
        let answer = resolve(alloc, &edges, fill, self.choices())?;
        Ok(OverlayAnswer {
            shapes: int_shapes(alloc, &answer.shapes)?,
            is_settled: answer.is_settled,
            is_own_boundary: answer.is_own_boundary,
        })
    }

    /// The options, as the resolving takes them.
    pub(crate) fn choices(&self) -> Choices
        ensures { chosen result ≡ choices_of I.WideUInt.value self.now.options }
    {
        choices_for::<I>(self.options)
    }
}

/// Options, as the resolving takes them.
fn choices_for<I: IntNumber>(options: IntOverlayOptions<I::WideUInt>) -> Choices
    ensures { chosen result ≡ choices_of I.WideUInt.value options }
{
    Choices {
        least_area: I::uint_to_u128(options.min_output_area) as u64,
        all_vertices: options.preserve_output_collinear,
        clockwise: options.output_direction == ContourDirection::Clockwise,
    }
}

/// Turns the contours of these polygons into polygons again, with other options. The contours have to need no
/// splitting, as `OverlayAnswer::is_own_boundary` reports, so they are only sorted and grouped anew. `Err` means that
/// memory was refused.
pub fn arranged<I: IntNumber>(
    alloc: Global,
    shapes: &IntShapes<I>,
    options: IntOverlayOptions<I::WideUInt>,
) -> Result<IntShapes<I>, AllocError>
    requires own_boundary { AreOwnBoundary (flat_map boundary (contours_of (shapes_of shapes.now.items))) }
    requires safe { ArePointsSafe I.unit (shapes_of shapes.now.items) }
    ensures resolution { IfOk result (λ answer.
        IsResolution (flat_map boundary (contours_of (shapes_of shapes.now.items))) (filled Positive)
        (choices_of I.WideUInt.value options) (shapes_of answer.items)) }
    ensures regions { IfOk result (λ answer.
        AreRegions (flat_map boundary (contours_of (shapes_of shapes.now.items))) (filled Positive)
        (choices_of I.WideUInt.value options) (shapes_of answer.items)) }
    ensures safe { IfOk result (λ answer. ArePointsSafe I.unit (shapes_of answer.items)) }
{
    let contours = lattice_contours(alloc, shapes)?;
    let answer = arranged_contours(alloc, contours, choices_for::<I>(options))?;
    Ok(int_shapes(alloc, &answer)?)
}
