//! Joins of outer corners.

ghost use Rattle.std.specs.Prelude.{◌≡◌, ◌≤◌, ◌++◌, vec_capacity, OnOk, OnErr, IsOk, pos, ◌≤ℤ◌, unsigned_abs};
ghost use Rattle.mesh_num.specs.Segments.{edges_of, proper_edges};
ghost use Rattle.mesh_join.specs.Appending.{Appends, HasRoomForEdges};
ghost use Rattle.mesh_join.specs.Joints.{joint, NeverTurnsBack, StaysWithin};
ghost use Rattle.mesh_join.specs.Joins.{join_edges, join_padding, HasFew, IsJoint};
ghost use Rattle.mesh_join.specs.Private.Joins.{HasRoomForJoin};

use crate::bevel;
use crate::joint::{Joint, coordinates, is_one_point};
use crate::miter::{self, Miter};
use crate::round::{self, Round};
use crate::style::IntLineJoin;
use mesh_arc::arc::ArcDirection;
use mesh_num::num::{Angle, IntNumber, IntPoint, UnitIntVector, WideNumber};
use mesh_num::shape::segment::Segment;
use std::alloc::{AllocError, Global};
use std::marker::Model;

/// How a join is drawn. A bevel keeps the turn below which a miter would be one, which it has no use for.
#[derive(Debug, Drop)]
pub(crate) enum Method<I: IntNumber> {
    Bevel(Angle),
    Miter(Miter),
    Round(Round<I>),
}

/// Draws the joins of outer corners. Contracts see the style.
#[derive(Debug, Drop)]
pub struct Join<I: IntNumber> {
    method: Method<I>,
}

impl<I: IntNumber> Model for Join<I> {
    ghost use Rattle.mesh_join.specs.Styles.{JoinStyle};
    ghost use Rattle.mesh_join.specs.Methods.{style_of_method};

    ghost Value = { JoinStyle };

    ghost view = { λ j. style_of_method j.method };
}

impl<I: IntNumber> Join<I> {
    /// A join of this kind; `min_turn` is the turn below which a miter is drawn as a bevel. It allocates nothing.
    pub fn new(alloc: Global, kind: IntLineJoin, min_turn: Angle) -> Self
        ensures { result ≡ record { kind = kind; min_turn = min_turn } }
    {
        let method = match kind {
            IntLineJoin::Bevel => Method::Bevel(min_turn),
            IntLineJoin::Miter(angle) => Method::Miter(Miter::new(angle, min_turn)),
            IntLineJoin::Round(options) => Method::Round(Round::new(alloc, options, min_turn)),
        };
        Join { method }
    }

    /// How far a join of this kind reaches from its corner in x and in y, in grid units. It is at least the size of the
    /// radius. A negative radius, as of an inward offset, counts as its size; every radius is accepted.
    pub fn padding(kind: IntLineJoin, radius: I) -> I::Wide
        ensures value { I.Wide.value result ≡ join_padding kind (I.value radius) }
        ensures covers { pos (unsigned_abs (I.value radius)) ≤ℤ I.Wide.value result }
    {
        match kind {
            IntLineJoin::Bevel => bevel::padding(radius),
            IntLineJoin::Miter(angle) => miter::padding(angle, radius),
            IntLineJoin::Round(_) => round::padding(radius),
        }
    }

    /// Adds the edges of the join round `center` from `a` to `b`, the moved end points before and after the corner.
    /// Nothing is added where `a` equals `b`; then nothing is allocated, and the vector keeps its capacity. The edges
    /// never turn back round `center`, and stay within the padding. The call succeeds where the vector has room for
    /// them, except for a round join, whose arc has a buffer of its own. After an error the vector has its old length.
    ///
    /// The radius, in grid units, has to be at least 0. Both directions have to be such as `fast_normalize` returns,
    /// and must not turn back from the first to the second in the sense of the arc. The corner has to stay in the safe
    /// range when it moves by the padding.
    #[allow(clippy::too_many_arguments)]
    pub fn add(
        &mut self,
        center: IntPoint<I>,
        a: IntPoint<I>,
        b: IntPoint<I>,
        incoming: UnitIntVector<I>,
        outgoing: UnitIntVector<I>,
        radius: I,
        direction: ArcDirection,
        segments: &mut Vec<Segment<I>>,
    ) -> Result<(), AllocError>
        requires { IsJoint I.unit self.old (joint center a b incoming outgoing (I.value radius) direction) }
        ensures ok { OnOk result (Appends segments.old segments.new
            (join_edges I.unit self.old (joint center a b incoming outgoing (I.value radius) direction))) }
        ensures edges { OnOk result (edges_of segments.new.items ≡ edges_of segments.old.items ++ proper_edges
            (join_edges I.unit self.old (joint center a b incoming outgoing (I.value radius) direction))) }
        ensures ahead { NeverTurnsBack direction center
            (join_edges I.unit self.old (joint center a b incoming outgoing (I.value radius) direction)) }
        ensures near { StaysWithin (join_padding self.old.kind (I.value radius)) center
            (join_edges I.unit self.old (joint center a b incoming outgoing (I.value radius) direction)) }
        ensures err { OnErr result (segments.new.items ≡ segments.old.items) }
        ensures same_ends { a ≡ b → IsOk result }
        ensures same_capacity { a ≡ b → vec_capacity segments.new ≡ vec_capacity segments.old }
        ensures room { HasFew self.old → HasRoomForEdges segments.old
            (join_edges I.unit self.old (joint center a b incoming outgoing (I.value radius) direction)) → IsOk result }
        ensures capacity { vec_capacity segments.old ≤ vec_capacity segments.new }
        ensures same { self.new ≡ self.old }
    {
        let joint = Joint {
            center,
            first: a,
            last: b,
            incoming,
            outgoing,
            radius,
            sense: direction,
        };
        self.draw(&joint, segments)
    }

    fn draw(&mut self, joint: &Joint<I>, segments: &mut Vec<Segment<I>>) -> Result<(), AllocError>
        requires { IsJoint I.unit self.old joint.now }
        ensures ok { OnOk result (Appends segments.old segments.new (join_edges I.unit self.old joint.now)) }
        ensures err { OnErr result (segments.new.items ≡ segments.old.items) }
        ensures same_ends { joint.now.first ≡ joint.now.last → IsOk result }
        ensures same_capacity { joint.now.first ≡ joint.now.last
            → vec_capacity segments.new ≡ vec_capacity segments.old }
        ensures room { HasFew self.old → HasRoomForJoin segments.old I.unit self.old joint.now → IsOk result }
        ensures capacity { vec_capacity segments.old ≤ vec_capacity segments.new }
        ensures same { self.new ≡ self.old }
    {
        if is_one_point(coordinates(joint.first), coordinates(joint.last)) {
            return Ok(());
        }
        if let Method::Miter(miter) = &self.method {
            return miter.add(joint, segments);
        }
        if let Method::Round(round) = &mut self.method {
            return round.add(joint, segments);
        }
        bevel::add(joint.first, joint.last, segments)
    }
}
