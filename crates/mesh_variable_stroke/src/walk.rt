//! Walks along a path, from circle to circle.

ghost use Rattle.std.specs.Prelude.{◌≡◌, ◌≤◌, ◌++◌, length, take, vec_capacity, IsOk, OnOk, IfOk, IfSome};
ghost use Rattle.std.specs.Prelude.{None, pos, ◌≤ℤ◌};
ghost use Rattle.mesh_join.specs.Appending.{Appends};
ghost use Rattle.mesh_circle.specs.Sections.{IsSafeCircle};
ghost use Rattle.mesh_variable_stroke.specs.Chains.{is_covered_by as is_covered_in, is_smaller as is_smaller_than};
ghost use Rattle.mesh_variable_stroke.specs.Chains.{end_before, end_after};
ghost use Rattle.mesh_variable_stroke.specs.Private.Walks.{IsGoodOpen, IsGoodSection, IsGoodWalk, opened, gone_on, step_edges};
ghost use Rattle.mesh_variable_stroke.specs.Private.Walks.{walk_from, step_to, walked, walked_edges, finish_edges};
ghost use Rattle.mesh_variable_stroke.specs.Private.Walks.{IsThinOpen, IsThinWalk};
ghost use Rattle.mesh_variable_stroke.specs.declared.chain_end.ChainEnd.TheVariants.{Butt, Round};

use crate::chain::Chain;
use crate::chain_end::ChainEnd;
use mesh_circle::circle::Circle;
use mesh_circle::section::Section;
use mesh_circle::sweeper::Sweeper;
use mesh_num::num::IntNumber;
use mesh_num::num::convert::is_less;
use mesh_num::shape::segment::Segment;
use std::alloc::AllocError;
use std::marker::Model;

/// A walk along a path: its open chain, the section of the step before, the circle it has come to, and how the chain
/// ends where the path ends here. Contracts see the record of all.
#[derive(Drop)]
pub(crate) struct Walk<I: IntNumber> {
    chain: Chain<I>,
    before: Option<Section<I>>,
    at: Circle<I>,
    end: ChainEnd,
}

impl<I: IntNumber> Model for Walk<I> {
    ghost use Rattle.mesh_variable_stroke.specs.Private.Walks.{Walk as PlaneWalk};

    ghost Value = { PlaneWalk };

    ghost view = { λ w. record { chain = w.chain; before = w.before; at = w.at; end = w.end } };
}

impl<I: IntNumber> Walk<I> {
    /// A walk that begins at a circle.
    pub(crate) fn new(first: Circle<I>) -> Self
        ensures { result ≡ walk_from first }
    {
        Walk {
            chain: Chain::new(first, ChainEnd::Round),
            before: None,
            at: first,
            end: ChainEnd::Round,
        }
    }

    /// Goes on to the next circle.
    pub(crate) fn step(
        &mut self,
        next: Circle<I>,
        sweeper: &mut Sweeper<I>,
        segments: &mut Vec<Segment<I>>,
    ) -> Result<(), AllocError>
        requires walk { IsGoodWalk I.unit self.old }
        requires next { IsSafeCircle I.unit next }
        ensures ok { OnOk result (Appends segments.old segments.new
            (walked_edges I.unit sweeper.old self.old (step_to I.unit self.old next))) }
        ensures walk { OnOk result (self.new ≡ walked self.old (step_to I.unit self.old next)) }
        ensures good { OnOk result (IsGoodWalk I.unit self.new) }
        ensures thin { IsThinWalk self.old → next.radius ≤ℤ pos 1 → IsOk result }
        ensures kept { take (length segments.old.items) segments.new.items ≡ segments.old.items }
        ensures capacity { vec_capacity segments.old ≤ vec_capacity segments.new }
        ensures same { sweeper.new ≡ sweeper.old }
    {
        let at = self.at;
        let section = Section::new(at, next);
        let covered = is_covered_by(&self.before, next);
        self.before = section;
        self.at = next;
        self.end = ChainEnd::Round;
        if at.is_nested_with(next) {
            self.chain = break_off(&self.chain, at, next, sweeper, segments)?;
            return Ok(());
        }
        if covered {
            self.chain = start_again(&self.chain, at, section, sweeper, segments)?;
            self.end = ChainEnd::Butt;
            return Ok(());
        }
        self.chain.go_on(section, sweeper, segments)
    }

    /// Ends the walk.
    pub(crate) fn finish(
        &self,
        sweeper: &mut Sweeper<I>,
        segments: &mut Vec<Segment<I>>,
    ) -> Result<(), AllocError>
        requires { IsGoodWalk I.unit self.now }
        ensures ok { OnOk result (Appends segments.old segments.new
            (finish_edges I.unit sweeper.old self.now.chain self.now.end)) }
        ensures thin { IsThinWalk self.now → IsOk result }
        ensures kept { take (length segments.old.items) segments.new.items ≡ segments.old.items }
        ensures capacity { vec_capacity segments.old ≤ vec_capacity segments.new }
        ensures same { sweeper.new ≡ sweeper.old }
    {
        self.chain.finish(self.end, sweeper, segments)
    }
}

// Ends a chain at the circle `at`, and starts one at the next circle: the greater of both is drawn.
fn break_off<I: IntNumber>(
    chain: &Chain<I>,
    at: Circle<I>,
    next: Circle<I>,
    sweeper: &mut Sweeper<I>,
    segments: &mut Vec<Segment<I>>,
) -> Result<Chain<I>, AllocError>
    requires { IsGoodOpen I.unit chain.now }
    ensures ok { OnOk result (Appends segments.old segments.new
        (finish_edges I.unit sweeper.old chain.now (end_before at next))) }
    ensures chain { IfOk result (λ c. c ≡ opened next (end_after at next)) }
    ensures thin { IsThinOpen chain.now → IsOk result }
    ensures kept { take (length segments.old.items) segments.new.items ≡ segments.old.items }
    ensures capacity { vec_capacity segments.old ≤ vec_capacity segments.new }
    ensures same { sweeper.new ≡ sweeper.old }
{
    if is_less(at.radius, next.radius) {
        chain.finish(ChainEnd::Butt, sweeper, segments)?;
        Ok(Chain::new(next, ChainEnd::Round))
    } else {
        chain.finish(ChainEnd::Round, sweeper, segments)?;
        Ok(Chain::new(next, ChainEnd::Butt))
    }
}

// Ends a chain at the circle `at`, and starts one there with the next section.
fn start_again<I: IntNumber>(
    chain: &Chain<I>,
    at: Circle<I>,
    section: Option<Section<I>>,
    sweeper: &mut Sweeper<I>,
    segments: &mut Vec<Segment<I>>,
) -> Result<Chain<I>, AllocError>
    requires chain { IsGoodOpen I.unit chain.now }
    requires at { IsSafeCircle I.unit at }
    requires section { IfSome section (IsGoodSection I.unit) }
    ensures ok { OnOk result (Appends segments.old segments.new
        (finish_edges I.unit sweeper.old chain.now Round
        ++ step_edges I.unit sweeper.old (opened at Butt) section)) }
    ensures chain { IfOk result (λ c. c ≡ gone_on (opened at Butt) section) }
    ensures thin { IsThinOpen chain.now → section ≡ None → IsOk result }
    ensures kept { take (length segments.old.items) segments.new.items ≡ segments.old.items }
    ensures capacity { vec_capacity segments.old ≤ vec_capacity segments.new }
    ensures same { sweeper.new ≡ sweeper.old }
{
    chain.finish(ChainEnd::Round, sweeper, segments)?;
    let mut next = Chain::new(at, ChainEnd::Butt);
    next.go_on(section, sweeper, segments)?;
    Ok(next)
}

// Whether the section, if there is one, surely holds the circle, which is smaller than one of its own.
fn is_covered_by<I: IntNumber>(section: &Option<Section<I>>, circle: Circle<I>) -> bool
    requires section { IfSome section.now (IsGoodSection I.unit) }
    requires circle { IsSafeCircle I.unit circle }
    ensures { result ≡ is_covered_in section.now circle }
{
    let Some(section) = section else {
        return false;
    };
    is_smaller(circle, section) && section.covers_circle(circle)
}

// Whether a circle is smaller than one of a section.
fn is_smaller<I: IntNumber>(circle: Circle<I>, section: &Section<I>) -> bool
    ensures { result ≡ is_smaller_than circle section.now }
{
    is_less(circle.radius, section.a.radius) || is_less(circle.radius, section.b.radius)
}
