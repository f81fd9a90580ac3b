//! Circles and arcs round a vertex.

ghost use Rattle.std.specs.Prelude.{◌≡◌, ◌≤◌, [], length, take, vec_capacity, IsOk, IsTrue, OnOk, ℤ, pos, ◌≤ℤ◌, ◌<ℤ◌};
ghost use Rattle.mesh_plane.specs.Winding.{route};
ghost use Rattle.mesh_num.specs.Rectangle.{IsSafeWidened};
ghost use Rattle.mesh_join.specs.Appending.{Appends, HasRoomForEdges};
ghost use Rattle.mesh_join.specs.Joints.{StaysWithin};
ghost use Rattle.mesh_join.specs.Joints.{IsApart};
ghost use Rattle.mesh_join.specs.RoundJoins.{round_padding};
ghost use Rattle.mesh_circle.specs.Sweeps.{arc_edges, arc_pieces, circle_edges, circle_pieces, half_circles};
ghost use Rattle.mesh_circle.specs.Sweeps.{polyline_edges, is_direct, AddUpTo, IsReached, IsSwept};

use crate::polyline::push_points;
use crate::sweep::{Sweep, is_central, is_empty, is_whole, sweep_of};
use crate::vertex::{direction, distance, east_of, west_of};
use mesh_arc::arc::{ArcDirection, ArcOptions, IntegerArc};
use mesh_join::route::push_straight;
use mesh_num::num::convert::widen;
use mesh_num::num::{IntNumber, IntPoint};
use mesh_num::shape::segment::Segment;
use std::alloc::{AllocError, Global};
use std::marker::Model;

/// Adds the edges of circles and of arcs round a vertex. Contracts see the options that were asked for.
#[derive(Debug, Drop)]
pub struct Sweeper<I: IntNumber> {
    options: ArcOptions,
    arc: IntegerArc<I>,
}

impl<I: IntNumber> Model for Sweeper<I> {
    ghost use Rattle.std.specs.Prelude.{◌≡◌};
    ghost use Rattle.mesh_arc.specs.Arcs.{clamped};
    ghost use Rattle.mesh_arc.specs.declared.arc.ArcOptions.{ArcOptions};

    ghost Value = { ArcOptions };

    ghost view = { λ s. s.options };

    ghost invariant = { λ s. s.arc.options ≡ clamped s.options };
}

impl<I: IntNumber> Sweeper<I> {
    /// Draws circles and arcs in the directions of arcs with these options. Options out of their ranges count as the
    /// nearest ones in them. It takes no memory.
    pub fn new(alloc: Global, options: ArcOptions) -> Self
        ensures { result ≡ options }
    {
        let ArcOptions {
            max_step,
            rotation_precision,
        } = options;
        let arc = IntegerArc::new(
            alloc,
            ArcOptions {
                max_step,
                rotation_precision,
            },
        );
        Sweeper {
            options: ArcOptions {
                max_step,
                rotation_precision,
            },
            arc,
        }
    }

    /// Adds the edges of the circle counterclockwise round `center`: from the point to its east to the one to its west
    /// and back, through the points away from it by the radius in the directions of both arcs between. They stay within
    /// the radius of `center`, and are the boundaries of its pieces. A radius of at most 1 has none, which takes no
    /// memory. After a refusal the vector still begins with what it held.
    ///
    /// The center stays in the safe range where it moves by the radius, in grid units.
    pub fn add_circle(
        &mut self,
        center: IntPoint<I>,
        radius: I,
        segments: &mut Vec<Segment<I>>,
    ) -> Result<(), AllocError>
        requires { IsSafeWidened I.unit (I.value radius) center }
        ensures ok { OnOk result (Appends segments.old segments.new
            (circle_edges I.unit self.old center (I.value radius))) }
        ensures near { StaysWithin (I.value radius) center (circle_edges I.unit self.old center (I.value radius)) }
        ensures sum { AddUpTo [] (circle_pieces I.unit self.old center (I.value radius))
            (circle_edges I.unit self.old center (I.value radius)) }
        ensures kept { take (length segments.old.items) segments.new.items ≡ segments.old.items }
        ensures room { I.value radius ≤ℤ pos 1 → IsOk result }
        ensures capacity { vec_capacity segments.old ≤ vec_capacity segments.new }
        ensures same { self.new ≡ self.old }
    {
        self.push_circle(center, radius, segments)
    }

    /// Adds the edges of the arc counterclockwise round `center` from `from` to `to`. It runs through points away from
    /// `center` by the distance of `from`, cut to a whole number. Points on one ray from `center` are a whole turn
    /// apart where `aligned` is major, else none. A minor arc from a point to itself has no edges. An arc that begins
    /// or ends in `center` is one edge, and so is the last one of a whole turn, after its circle.
    ///
    /// The edges stay as near to `center` as both points and that distance, and are the edge between both points and
    /// the boundaries of the pieces. A minor arc from a point to itself takes no memory, and an arc that begins or ends
    /// in `center` succeeds where there is room for its edge. After a refusal the vector still begins with what it
    /// held.
    ///
    /// The center stays in the safe range where it moves by that distance, and both points are in it.
    pub fn add_arc(
        &mut self,
        center: IntPoint<I>,
        from: IntPoint<I>,
        to: IntPoint<I>,
        aligned: Sweep,
        segments: &mut Vec<Segment<I>>,
    ) -> Result<(), AllocError>
        requires { IsSwept I.unit center from to }
        ensures ok { OnOk result (Appends segments.old segments.new
            (arc_edges I.unit self.old center from to aligned)) }
        ensures near { (reach : ℤ) → IsReached reach center from to
            → StaysWithin reach center (arc_edges I.unit self.old center from to aligned) }
        ensures sum { AddUpTo (route from [] to) (arc_pieces I.unit self.old center from to aligned)
            (arc_edges I.unit self.old center from to aligned) }
        ensures kept { take (length segments.old.items) segments.new.items ≡ segments.old.items }
        ensures room { IsTrue (is_direct center from to aligned)
            → HasRoomForEdges segments.old (arc_edges I.unit self.old center from to aligned) → IsOk result }
        ensures capacity { vec_capacity segments.old ≤ vec_capacity segments.new }
        ensures same { self.new ≡ self.old }
    {
        self.push_arc(center, from, to, aligned, segments)
    }

    // Adds the edges of a circle.
    fn push_circle(
        &mut self,
        center: IntPoint<I>,
        radius: I,
        segments: &mut Vec<Segment<I>>,
    ) -> Result<(), AllocError>
        requires { IsSafeWidened I.unit (I.value radius) center }
        ensures ok { OnOk result (Appends segments.old segments.new
            (circle_edges I.unit self.old center (I.value radius))) }
        ensures kept { take (length segments.old.items) segments.new.items ≡ segments.old.items }
        ensures room { I.value radius ≤ℤ pos 1 → IsOk result }
        ensures capacity { vec_capacity segments.old ≤ vec_capacity segments.new }
        ensures same { self.new ≡ self.old }
    {
        if widen(radius) <= 1 {
            return Ok(());
        }
        self.push_halves(center, radius, segments)
    }

    // Adds the edges of both halves of a circle.
    fn push_halves(
        &mut self,
        center: IntPoint<I>,
        radius: I,
        segments: &mut Vec<Segment<I>>,
    ) -> Result<(), AllocError>
        requires large { pos 1 <ℤ I.value radius }
        requires safe { IsSafeWidened I.unit (I.value radius) center }
        ensures ok { OnOk result (Appends segments.old segments.new
            (half_circles I.unit self.old center (I.value radius))) }
        ensures kept { take (length segments.old.items) segments.new.items ≡ segments.old.items }
        ensures capacity { vec_capacity segments.old ≤ vec_capacity segments.new }
        ensures same { self.new ≡ self.old }
    {
        let east = east_of(center, radius);
        let west = west_of(center, radius);
        self.push_polyline(center, east, west, radius, segments)?;
        self.push_polyline(center, west, east, radius, segments)
    }

    // Adds the edges of an arc.
    fn push_arc(
        &mut self,
        center: IntPoint<I>,
        from: IntPoint<I>,
        to: IntPoint<I>,
        aligned: Sweep,
        segments: &mut Vec<Segment<I>>,
    ) -> Result<(), AllocError>
        requires { IsSwept I.unit center from to }
        ensures ok { OnOk result (Appends segments.old segments.new
            (arc_edges I.unit self.old center from to aligned)) }
        ensures kept { take (length segments.old.items) segments.new.items ≡ segments.old.items }
        ensures room { IsTrue (is_direct center from to aligned)
            → HasRoomForEdges segments.old (arc_edges I.unit self.old center from to aligned) → IsOk result }
        ensures capacity { vec_capacity segments.old ≤ vec_capacity segments.new }
        ensures same { self.new ≡ self.old }
    {
        let sweep = sweep_of(center, from, to, aligned);
        if is_empty(sweep, from, to) {
            return Ok(());
        }
        if is_central(center, from, to) {
            return push_straight(from, to, segments);
        }
        let radius = distance(center, from);
        if is_whole(sweep, center, from, to) {
            self.push_circle(center, radius, segments)?;
            push_straight(from, to, segments)
        } else {
            self.push_polyline(center, from, to, radius, segments)
        }
    }

    // Adds the edges from `from` to `to` through the points in the directions of the arc between.
    fn push_polyline(
        &mut self,
        center: IntPoint<I>,
        from: IntPoint<I>,
        to: IntPoint<I>,
        radius: I,
        segments: &mut Vec<Segment<I>>,
    ) -> Result<(), AllocError>
        requires from { IsApart I.unit center from }
        requires to { IsApart I.unit center to }
        requires safe { IsSafeWidened I.unit (round_padding (I.value radius)) center }
        ensures ok { OnOk result (Appends segments.old segments.new
            (polyline_edges I.unit self.old center from to (I.value radius))) }
        ensures kept { take (length segments.old.items) segments.new.items ≡ segments.old.items }
        ensures capacity { vec_capacity segments.old ≤ vec_capacity segments.new }
        ensures same { self.new ≡ self.old }
    {
        let first = direction(center, from);
        let last = direction(center, to);
        self.arc
            .rebuild(first, last, ArcDirection::Counterclockwise)?;
        push_points(center, from, self.arc.directions(), radius, to, segments)
    }
}
