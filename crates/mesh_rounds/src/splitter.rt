//! The splitting itself: one legal split at a time, until no two segments meet. What the first pass left is tested
//! here.

ghost use Rattle.std.specs.Prelude.{◌≤◌, ◌^◌, IfErr, IfOk, OnOk};
ghost use Rattle.mesh_plane.specs.Winding.{sum_of};
ghost use Rattle.mesh_lattice.specs.Clean.{IsProper};
ghost use Rattle.mesh_lattice.specs.Counted.{size, IsRoomy};
ghost use Rattle.mesh_lattice.specs.Splitting.{IsSplitting};
ghost use Rattle.mesh_split.specs.Counting.{CountsAmong, CountsAtMost, CountsSplits, CountsWith, IsReason, IsWithinLimit};
ghost use Rattle.mesh_store.specs.Steps.{IsSettled};
ghost use Rattle.mesh_rounds.specs.Told.{IsCountedSplitting, IsToldSplitting};

use crate::rounds::split_in_rounds;
use mesh_lattice::lattice::{CountedSegment, LatticeEdge};
use mesh_split::count::{SplitCount, SplitError};
use mesh_split::first_pass::first_pass;
use mesh_split::nearness::nearness;
use mesh_split::steps::Settled;
use std::alloc::{AllocError, Global};

/// The segments that edges are split into, and how near they lie to the edges.
#[derive(Drop)]
pub struct ToldSplitting {
    /// Each segment once, with its net count.
    pub segments: Vec<CountedSegment>,
    /// The nearness of the splits in 64ths of a grid unit, rounded up: each split point lies so near to the edge that
    /// its segment comes from. At most 2^38.
    pub nearness: u64,
}

/// Splits directed edges, none of which ends where it starts, until any two segments share only common ends:
/// the segments come from the edges by legal splits, each stands once, with its net count, also where that is 0,
/// and each edge has become a path in its own box that never goes back in `x` nor in `y`. So segments of edges in the
/// safe range are in it. It fails only where memory is refused.
pub fn split_edges(alloc: Global, edges: &[LatticeEdge]) -> Result<Vec<CountedSegment>, AllocError>
    requires { IsProper edges.now }
    ensures splitting { IfOk result (λ v. IsSplitting edges.now v.items) }
    ensures room { IfOk result (λ v. IsRoomy (sum_of size v.items)) }
{
    let mut count = SplitCount::new(0);
    let settled = match settled(alloc, edges, &mut count) {
        Ok(settled) => settled,
        Err(SplitError::OutOfMemory) => return Err(AllocError),
        Err(SplitError::TooManySplits) => unreachable!(),
    };
    Ok(settled.segments)
}

/// The same, and tells how near the splits lie to the edges. The splits are counted on, those of attempts that were
/// given up too, whatever comes of it; there are at most 47 attempts. It fails where memory is refused, and where the
/// splits pass the limit of the count, if it has one.
pub fn split_edges_told(
    alloc: Global,
    edges: &[LatticeEdge],
    count: &mut SplitCount,
) -> Result<ToldSplitting, SplitError>
    requires { IsProper edges.now }
    ensures splitting { IfOk result (λ told. IsToldSplitting edges.now told.segments.items told.nearness) }
    ensures room { IfOk result (λ told. IsRoomy (sum_of size told.segments.items)) }
    ensures small { IfOk result (λ told. told.nearness ≤ 2 ^ 38) }
    ensures counted { CountsSplits edges.now count.old count.new }
    ensures standing { IfOk result (λ told.
        IsCountedSplitting edges.now count.old count.new told.segments.items told.nearness) }
    ensures within { OnOk result (IsWithinLimit count.new) }
    ensures refused { IfErr result (λ e. IsReason e count.new) }
{
    let settled = settled(alloc, edges, count)?;
    let nearness = nearness(alloc, &settled.log)?;
    Ok(ToldSplitting {
        segments: settled.segments,
        nearness,
    })
}

/// The segments that splits leave, none of which meets another: in rounds where these serve.
fn settled(
    alloc: Global,
    edges: &[LatticeEdge],
    count: &mut SplitCount,
) -> Result<Settled, SplitError>
    requires { IsProper edges.now }
    ensures settled { IfOk result (λ s. IsSettled edges.now s.log s.segments.items) }
    ensures counted { CountsSplits edges.now count.old count.new }
    ensures standing { IfOk result (λ s. CountsWith edges.now count.old count.new s.log) }
    ensures within { OnOk result (IsWithinLimit count.new) }
    ensures refused { IfErr result (λ e. IsReason e count.new) }
{
    let Some(settled) = split_in_rounds(alloc, edges, count)? else {
        return settled_one_by_one(alloc, edges, count);
    };
    Ok(settled)
}

/// The same by splits one by one, each of a segment and another one that it is found to meet.
fn settled_one_by_one(
    alloc: Global,
    edges: &[LatticeEdge],
    count: &mut SplitCount,
) -> Result<Settled, SplitError>
    requires { IsProper edges.now }
    ensures settled { IfOk result (λ s. IsSettled edges.now s.log s.segments.items) }
    ensures counted { CountsAtMost 45 edges.now count.old count.new }
    ensures standing { IfOk result (λ s. CountsAmong 45 edges.now count.old count.new s.log) }
    ensures within { OnOk result (IsWithinLimit count.new) }
    ensures refused { IfErr result (λ e. IsReason e count.new) }
{
    let mut splitter = first_pass(alloc, edges, count)?;
    while let Some(s) = splitter.todo.pop() {
        splitter.settle(s)?;
        count.check(&splitter.log)?;
    }
    count.add(&splitter.log)?;
    let segments = splitter.live.into_segments(alloc)?;
    Ok(Settled {
        segments,
        log: splitter.log,
    })
}
