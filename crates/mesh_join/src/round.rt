//! Round joins.

ghost use Rattle.std.specs.Prelude.{◌≡◌, ◌≤◌, false, length, take, vec_capacity, OnOk, OnErr};
ghost use Rattle.mesh_plane.specs.Plane.{minus};
ghost use Rattle.mesh_plane.specs.Winding.{route, same_point};
ghost use Rattle.mesh_num.specs.Direction.{IsFresh};
ghost use Rattle.mesh_num.specs.Directed.{direction_of};
ghost use Rattle.mesh_num.specs.Rectangle.{IsSafeWidened};
ghost use Rattle.mesh_join.specs.Appending.{Appends};
ghost use Rattle.mesh_join.specs.Joins.{IsJoint};
ghost use Rattle.mesh_join.specs.Methods.{style_of_round};
ghost use Rattle.mesh_join.specs.Joints.{IsApart};
ghost use Rattle.mesh_join.specs.Private.RoundJoins.{round_edges};
ghost use Rattle.mesh_join.specs.RoundJoins.{round_padding, arc_point as arc_point_of, used_points};

use crate::joint::Joint;
use crate::route::push_straight;
use mesh_arc::arc::{ArcOptions, IntegerArc};
use mesh_num::num::convert::wide_size;
use mesh_num::num::{Angle, IntNumber, IntPoint, UnitIntVector, WideNumber};
use mesh_num::shape::segment::Segment;
use std::alloc::{AllocError, Global};
use std::marker::Model;

/// A round join, with the builder of its arcs. Contracts see the options that were asked for.
#[derive(Debug, Drop)]
pub(crate) struct Round<I: IntNumber> {
    options: ArcOptions,
    min_turn: Angle,
    arc: IntegerArc<I>,
}

impl<I: IntNumber> Model for Round<I> {
    ghost use Rattle.std.specs.Prelude.{◌≡◌};
    ghost use Rattle.mesh_arc.specs.Arcs.{clamped};
    ghost use Rattle.mesh_join.specs.RoundJoins.{RoundStyle};

    ghost Value = { RoundStyle };

    ghost view = { λ r. record { options = r.options; min_turn = r.min_turn } };

    ghost invariant = { λ r. r.arc.options ≡ clamped r.options };
}

/// How far a round join reaches from its corner in each coordinate, in grid units.
pub(crate) fn padding<I: IntNumber>(radius: I) -> I::Wide
    ensures { I.Wide.value result ≡ round_padding (I.value radius) }
{
    wide_size::<I>(radius)
}

impl<I: IntNumber> Round<I> {
    /// A round join with arcs of these options. It takes no memory.
    pub(crate) fn new(alloc: Global, options: ArcOptions, min_turn: Angle) -> Self
        ensures { result ≡ record { options = options; min_turn = min_turn } }
    {
        let ArcOptions {
            max_step,
            rotation_precision,
        } = options;
        let arc = IntegerArc::new(
            alloc,
            ArcOptions {
                max_step,
                rotation_precision,
            },
        );
        Round {
            options: ArcOptions {
                max_step,
                rotation_precision,
            },
            min_turn,
            arc,
        }
    }

    /// Adds the edges of the round join at a joint whose points differ. After a refusal the vector is cut back to its
    /// old length.
    pub(crate) fn add(
        &mut self,
        joint: &Joint<I>,
        segments: &mut Vec<Segment<I>>,
    ) -> Result<(), AllocError>
        requires joint { IsJoint I.unit (style_of_round self.old) joint.now }
        requires apart { same_point joint.now.first joint.now.last ≡ false }
        ensures ok { OnOk result (Appends segments.old segments.new (round_edges self.old.options I.unit joint.now)) }
        ensures err { OnErr result (segments.new.items ≡ segments.old.items) }
        ensures capacity { vec_capacity segments.old ≤ vec_capacity segments.new }
        ensures same { self.new ≡ self.old }
    {
        let length = segments.len();
        if let Err(error) = self.push(joint, segments) {
            segments.truncate(length);
            return Err(error);
        }
        Ok(())
    }

    fn push(&mut self, joint: &Joint<I>, segments: &mut Vec<Segment<I>>) -> Result<(), AllocError>
        requires joint { IsJoint I.unit (style_of_round self.old) joint.now }
        requires apart { same_point joint.now.first joint.now.last ≡ false }
        ensures ok { OnOk result (Appends segments.old segments.new (round_edges self.old.options I.unit joint.now)) }
        ensures kept { take (length segments.old.items) segments.new.items ≡ segments.old.items }
        ensures capacity { vec_capacity segments.old ≤ vec_capacity segments.new }
        ensures same { self.new ≡ self.old }
    {
        let from = direction(joint.center, joint.first);
        let to = direction(joint.center, joint.last);
        self.arc.rebuild(from, to, joint.sense)?;
        push_used(joint, self.arc.directions(), segments)
    }
}

// Adds the edges from the first point of a joint through those points in these directions that are used to the last
// point.
fn push_used<I: IntNumber>(
    joint: &Joint<I>,
    directions: &[UnitIntVector<I>],
    segments: &mut Vec<Segment<I>>,
) -> Result<(), AllocError>
    requires { IsSafeWidened I.unit (round_padding joint.now.radius) joint.now.center }
    ensures ok { OnOk result (Appends segments.old segments.new
        (route joint.now.first (used_points I.unit joint.now directions.now) joint.now.last)) }
    ensures kept { take (length segments.old.items) segments.new.items ≡ segments.old.items }
    ensures capacity { vec_capacity segments.old ≤ vec_capacity segments.new }
{
    let mut last = joint.first;
    for direction in directions {
        let point = arc_point(joint, *direction);
        if joint.runs_on(last, point) {
            push_straight(last, point, segments)?;
            last = point;
        }
    }
    push_straight(last, joint.last, segments)
}

// The point round the corner in a direction.
fn arc_point<I: IntNumber>(joint: &Joint<I>, direction: UnitIntVector<I>) -> IntPoint<I>
    requires { IsSafeWidened I.unit (round_padding joint.now.radius) joint.now.center }
    ensures { result ≡ arc_point_of I.unit joint.now direction }
{
    joint.center.moved(&direction.scale(joint.radius))
}

// The direction from a corner to a point.
fn direction<I: IntNumber>(center: IntPoint<I>, point: IntPoint<I>) -> UnitIntVector<I>
    requires { IsApart I.unit center point }
    ensures value { result ≡ direction_of I.unit (minus point center) }
    ensures fresh { IsFresh I.unit result }
{
    let Some(direction) = (point - center).fast_normalize() else {
        unreachable!()
    };
    direction
}
