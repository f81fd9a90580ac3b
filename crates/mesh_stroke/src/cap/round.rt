//! Round caps: round joins of half a turn.

ghost use Rattle.std.specs.Prelude.{◌≡◌, ◌≤◌, length, take, vec_capacity, OnOk};
ghost use Rattle.mesh_join.specs.Appending.{Appends};
ghost use Rattle.mesh_stroke.specs.Caps.{cap_edges, CapKind, IsCapped};
ghost use Rattle.mesh_stroke.specs.RoundCaps.{round_cap_padding};

use crate::end::PathEnd;
use mesh_join::arc::{ArcDirection, ArcOptions};
use mesh_join::join::Join;
use mesh_join::style::IntLineJoin;
use mesh_num::num::convert::wide_size;
use mesh_num::num::{Angle, IntNumber};
use mesh_num::shape::segment::Segment;
use std::alloc::{AllocError, Global};
use std::marker::Model;

/// A round cap, drawn as a round join. Contracts see the options of its arc.
#[derive(Drop)]
pub(crate) struct RoundCap<I: IntNumber> {
    options: ArcOptions,
    join: Join<I>,
}

impl<I: IntNumber> Model for RoundCap<I> {
    ghost use Rattle.std.specs.Prelude.{◌≡◌};
    ghost use Rattle.mesh_arc.specs.declared.arc.ArcOptions.{ArcOptions};
    ghost use Rattle.mesh_join.specs.declared.style.IntLineJoin.TheVariants.{Round};

    ghost Value = { ArcOptions };

    ghost view = { λ c. c.options };

    ghost invariant = { λ c. c.join ≡ record { kind = Round c.options; min_turn = 0 } };
}

/// How far a round cap reaches from its end in each coordinate, in grid units.
pub(crate) fn padding<I: IntNumber>(radius: I) -> I::Wide
    ensures { I.Wide.value result ≡ round_cap_padding (I.value radius) }
{
    wide_size::<I>(radius)
}

impl<I: IntNumber> RoundCap<I> {
    /// A round cap with an arc of these options. It takes no memory.
    pub(crate) fn new(alloc: Global, options: ArcOptions) -> Self
        ensures { result ≡ options }
    {
        let ArcOptions {
            max_step,
            rotation_precision,
        } = options;
        let drawn = ArcOptions {
            max_step,
            rotation_precision,
        };
        RoundCap {
            options: ArcOptions {
                max_step,
                rotation_precision,
            },
            join: Join::new(alloc, IntLineJoin::Round(drawn), Angle::from_bits(0)),
        }
    }

    /// Adds the edges of the cap. After a refusal the vector still begins with what it held.
    pub(crate) fn add(
        &mut self,
        end: &PathEnd<I>,
        segments: &mut Vec<Segment<I>>,
    ) -> Result<(), AllocError>
        requires { IsCapped I.unit (CapKind.Round self.old) end.now }
        ensures ok { OnOk result (Appends segments.old segments.new
            (cap_edges (CapKind.Round self.old) I.unit end.now)) }
        ensures kept { take (length segments.old.items) segments.new.items ≡ segments.old.items }
        ensures capacity { vec_capacity segments.old ≤ vec_capacity segments.new }
        ensures same { self.new ≡ self.old }
    {
        self.join.add(
            end.center,
            end.right,
            end.left,
            end.outward,
            end.inward,
            end.radius,
            ArcDirection::Counterclockwise,
            segments,
        )
    }
}
