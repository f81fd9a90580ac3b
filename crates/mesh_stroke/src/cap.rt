//! Caps of the ends of open paths.

ghost use Rattle.std.specs.Prelude.{◌≡◌, ◌≤◌, length, take, vec_capacity, IsOk, OnOk, IsTrue};
ghost use Rattle.std.specs.List.{All};
ghost use Rattle.mesh_join.specs.Appending.{Appends, HasRoomForEdges};
ghost use Rattle.mesh_join.specs.Joints.{NeverTurnsBack, IsWithinPadding};
ghost use Rattle.mesh_arc.specs.declared.arc.ArcDirection.TheVariants.{Counterclockwise};
ghost use Rattle.mesh_stroke.specs.Caps.{cap_edges, cap_points, cap_padding, is_stock, DrawsDirectly, IsCapped};
ghost use Rattle.mesh_stroke.specs.Kinds.{kind_of};

mod butt;
mod custom;
mod round;
mod square;

use crate::cap::round::RoundCap;
use crate::end::PathEnd;
use mesh_join::style::IntLineCap;
use mesh_num::num::{IntNumber, IntPoint};
use mesh_num::shape::segment::Segment;
use std::alloc::{AllocError, Global};
use std::marker::Model;

/// How a cap is drawn.
#[derive(Drop)]
pub(crate) enum Method<'a, I: IntNumber> {
    Butt,
    Square,
    Round(RoundCap<I>),
    Custom(&'a [IntPoint<I>]),
}

/// Adds the edges that close an end of an open path. It borrows the points of a custom cap. Contracts see its kind.
#[derive(Drop)]
pub struct Cap<'a, I: IntNumber> {
    method: Method<'a, I>,
}

impl<'a, I: IntNumber> Model for Cap<'a, I> {
    ghost use Rattle.mesh_stroke.specs.Caps.{CapKind};
    ghost use Rattle.mesh_stroke.specs.Kinds.{kind_of_method};

    ghost Value = { CapKind };

    ghost view = { λ c. kind_of_method c.method };
}

impl<'a, I: IntNumber> Cap<'a, I> {
    /// A cap of this kind. It takes no memory.
    pub fn new(alloc: Global, kind: &'a IntLineCap<I>) -> Self
        ensures { result ≡ kind_of kind.now }
    {
        let method = match kind {
            IntLineCap::Butt => Method::Butt,
            IntLineCap::Square => Method::Square,
            IntLineCap::Round(options) => Method::Round(RoundCap::new(alloc, *options)),
            IntLineCap::Custom(points) => Method::Custom(points.as_slice()),
        };
        Cap { method }
    }

    /// How far a cap of this kind reaches from its end in each coordinate, in grid units. A radius below 0 counts as
    /// its size; each radius is accepted, and each custom point.
    pub fn padding(kind: &IntLineCap<I>, radius: I) -> I::Wide
        ensures { I.Wide.value result ≡ cap_padding (kind_of kind.now) (I.value radius) }
    {
        match kind {
            IntLineCap::Butt => butt::padding(radius),
            IntLineCap::Square => square::padding(radius),
            IntLineCap::Round(_) => round::padding(radius),
            IntLineCap::Custom(points) => custom::padding(points.as_slice()),
        }
    }

    /// Adds the edges of the cap round the end of a path, from the point to its right to the point to its left. Those
    /// of stock caps never turn back round the end. The points of each cap are within its padding. Where there is room
    /// for the edges it succeeds, but for a round cap, whose arc has a buffer of its own. After a refusal the vector
    /// still begins with what it held.
    ///
    /// The directions are fresh and opposite, both points are the contact points beside the end, the radius, in grid
    /// units, is at least 0, and the end stays in the safe range where it moves by the padding.
    pub fn add(
        &mut self,
        end: &PathEnd<I>,
        segments: &mut Vec<Segment<I>>,
    ) -> Result<(), AllocError>
        requires { IsCapped I.unit self.old end.now }
        ensures ok { OnOk result (Appends segments.old segments.new (cap_edges self.old I.unit end.now)) }
        ensures ahead { IsTrue (is_stock self.old) →
            NeverTurnsBack Counterclockwise end.now.center (cap_edges self.old I.unit end.now) }
        ensures near { All (IsWithinPadding (cap_padding self.old end.now.radius) end.now.center)
            (cap_points self.old I.unit end.now) }
        ensures kept { take (length segments.old.items) segments.new.items ≡ segments.old.items }
        ensures room { DrawsDirectly self.old → HasRoomForEdges segments.old (cap_edges self.old I.unit end.now)
            → IsOk result }
        ensures capacity { vec_capacity segments.old ≤ vec_capacity segments.new }
        ensures same { self.new ≡ self.old }
    {
        // Read for what its type says of it: it is no longer than directions are.
        let _ = &end.outward;
        self.draw(end, segments)
    }

    fn draw(&mut self, end: &PathEnd<I>, segments: &mut Vec<Segment<I>>) -> Result<(), AllocError>
        requires { IsCapped I.unit self.old end.now }
        ensures ok { OnOk result (Appends segments.old segments.new (cap_edges self.old I.unit end.now)) }
        ensures kept { take (length segments.old.items) segments.new.items ≡ segments.old.items }
        ensures room { DrawsDirectly self.old → HasRoomForEdges segments.old (cap_edges self.old I.unit end.now)
            → IsOk result }
        ensures capacity { vec_capacity segments.old ≤ vec_capacity segments.new }
        ensures same { self.new ≡ self.old }
    {
        if let Method::Custom(points) = &self.method {
            return custom::add(points, end, segments);
        }
        if let Method::Round(round) = &mut self.method {
            return round.add(end, segments);
        }
        if let Method::Square = &self.method {
            return square::add(end, segments);
        }
        butt::add(end, segments)
    }
}
