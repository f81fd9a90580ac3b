//! Chains: what is drawn as one.

ghost use Rattle.std.specs.Prelude.{◌≡◌, ◌≤◌, length, take, vec_capacity, IsOk, OnOk, IfSome, None};
ghost use Rattle.mesh_join.specs.Appending.{Appends};
ghost use Rattle.mesh_variable_stroke.specs.Private.Walks.{IsGoodOpen, IsGoodSection, IsThinOpen, opened, gone_on};
ghost use Rattle.mesh_variable_stroke.specs.Private.Walks.{attaching_edges, finish_edges, step_edges};

use crate::chain_end::{ChainEnd, are_butt};
use crate::ends::{add_end, add_start};
use crate::joint::add_joint;
use mesh_circle::circle::Circle;
use mesh_circle::section::Section;
use mesh_circle::sweeper::Sweeper;
use mesh_join::route::push_straight;
use mesh_num::num::IntNumber;
use mesh_num::shape::segment::Segment;
use std::alloc::AllocError;
use std::marker::Model;

/// A chain so far. Contracts see the record of all.
#[derive(Drop)]
pub(crate) struct Chain<I: IntNumber> {
    start: Circle<I>,
    start_end: ChainEnd,
    last: Option<Section<I>>,
    has_step: bool,
}

impl<I: IntNumber> Model for Chain<I> {
    ghost use Rattle.mesh_variable_stroke.specs.Private.Walks.{Open};

    ghost Value = { Open };

    ghost view = { λ c. record {
      start = c.start;
      start_end = c.start_end;
      last = c.last;
      has_step = c.has_step;
    } };
}

impl<I: IntNumber> Chain<I> {
    /// A chain that starts at a circle.
    pub(crate) fn new(start: Circle<I>, start_end: ChainEnd) -> Self
        ensures { result ≡ opened start start_end }
    {
        Chain {
            start,
            start_end,
            last: None,
            has_step: false,
        }
    }

    /// Goes on with a step: adds its section, where it has one, and what joins that to the chain so far.
    pub(crate) fn go_on(
        &mut self,
        section: Option<Section<I>>,
        sweeper: &mut Sweeper<I>,
        segments: &mut Vec<Segment<I>>,
    ) -> Result<(), AllocError>
        requires chain { IsGoodOpen I.unit self.old }
        requires section { IfSome section (IsGoodSection I.unit) }
        ensures ok { OnOk result (Appends segments.old segments.new
            (step_edges I.unit sweeper.old self.old section)) }
        ensures chain { OnOk result (self.new ≡ gone_on self.old section) }
        ensures nothing { section ≡ None → IsOk result }
        ensures kept { take (length segments.old.items) segments.new.items ≡ segments.old.items }
        ensures capacity { vec_capacity segments.old ≤ vec_capacity segments.new }
        ensures same { sweeper.new ≡ sweeper.old }
    {
        self.has_step = true;
        let Some(section) = section else {
            return Ok(());
        };
        push_straight(section.b_left, section.a_left, segments)?;
        push_straight(section.a_right, section.b_right, segments)?;
        self.attach(&section, sweeper, segments)?;
        self.last = Some(section);
        Ok(())
    }

    // Adds what joins a section to the chain so far.
    fn attach(
        &self,
        section: &Section<I>,
        sweeper: &mut Sweeper<I>,
        segments: &mut Vec<Segment<I>>,
    ) -> Result<(), AllocError>
        requires chain { IsGoodOpen I.unit self.now }
        requires section { IsGoodSection I.unit section.now }
        ensures ok { OnOk result (Appends segments.old segments.new
            (attaching_edges I.unit sweeper.old self.now.start_end self.now.last section.now)) }
        ensures kept { take (length segments.old.items) segments.new.items ≡ segments.old.items }
        ensures capacity { vec_capacity segments.old ≤ vec_capacity segments.new }
        ensures same { sweeper.new ≡ sweeper.old }
    {
        match &self.last {
            None => add_start(sweeper, section, self.start_end, segments),
            Some(last) => add_joint(sweeper, last, section, segments),
        }
    }

    /// Ends the chain: at its last section, or as the circle of its vertex where it has no step, unless both ends are
    /// butt.
    pub(crate) fn finish(
        &self,
        end: ChainEnd,
        sweeper: &mut Sweeper<I>,
        segments: &mut Vec<Segment<I>>,
    ) -> Result<(), AllocError>
        requires { IsGoodOpen I.unit self.now }
        ensures ok { OnOk result (Appends segments.old segments.new
            (finish_edges I.unit sweeper.old self.now end)) }
        ensures thin { IsThinOpen self.now → IsOk result }
        ensures kept { take (length segments.old.items) segments.new.items ≡ segments.old.items }
        ensures capacity { vec_capacity segments.old ≤ vec_capacity segments.new }
        ensures same { sweeper.new ≡ sweeper.old }
    {
        if let Some(last) = &self.last {
            return add_end(sweeper, last, end, segments);
        }
        if self.has_step || are_butt(self.start_end, end) {
            return Ok(());
        }
        sweeper.add_circle(self.start.center, self.start.radius, segments)
    }
}
