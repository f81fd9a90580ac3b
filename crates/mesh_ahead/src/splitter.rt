//! Edges split in arrays, and in rounds where that is given up: the public calls.

ghost use Rattle.std.specs.Prelude.{◌≡◌, ◌≤◌, ◌^◌, List, IfErr, IfOk, IfSome, IsTrue, OnOk};
ghost use Rattle.mesh_plane.specs.Plane.{Edge};
ghost use Rattle.mesh_plane.specs.Winding.{sum_of};
ghost use Rattle.mesh_lattice.specs.Clean.{IsProper};
ghost use Rattle.mesh_lattice.specs.Counted.{size, IsRoomy};
ghost use Rattle.mesh_lattice.specs.Splitting.{IsSplitting};
ghost use Rattle.mesh_split.specs.Counting.{counted, CountsAtMost, IsReason, IsWithinLimit};
ghost use Rattle.mesh_rounds.specs.Told.{IsToldSplitting};
ghost use Rattle.mesh_convex.specs.Convex.{IsConvexLoop};
ghost use Rattle.mesh_attempt.specs.Attempts.{AreCut};
ghost use Rattle.mesh_clear.specs.AllClear.{AreAllClear};
ghost use Rattle.mesh_in_line.specs.InLine.{AreCutInLine};
ghost use Rattle.mesh_ahead.specs.Ahead.{AreSettled, IsCountedSplitting, IsMadeAfter, IsMadeAmong};
ghost use Rattle.mesh_ahead.specs.Counting.{attempts_in_arrays, CountsAfter, CountsSplits};

use crate::boxes::do_arrays_serve;
use crate::nearness::nearness;
use crate::segments::counted_segments;
use crate::settling::{count_on, cut_and_settled};
use mesh_attempt::attempt::CutEdges;
use mesh_convex::convex::{is_convex_loop, split_convex_loop};
use mesh_in_line::in_line::{CutInLine, cut_in_line};
use mesh_in_line::samples::are_many_in_line;
use mesh_lattice::lattice::{CountedSegment, LatticeEdge};
use mesh_paths::pieces::collect;
use mesh_rounds::splitter as rounds;
pub use mesh_rounds::splitter::ToldSplitting;
use mesh_split::count::{SplitCount, SplitError};
use std::alloc::{AllocError, Global};

/// The pieces as segments, where no two of them meet.
fn segments_of(
    alloc: Global,
    edges: &[LatticeEdge],
    cut: &CutEdges,
) -> Result<Vec<CountedSegment>, AllocError>
    requires proper { IsProper edges.now }
    requires cut { AreCut edges.now cut.now }
    requires clear { AreAllClear cut.now.paths }
    ensures settled { IfOk result (λ v. AreSettled edges.now cut.now.paths.splits v.items) }
    ensures room { IfOk result (λ v. IsRoomy (sum_of size v.items)) }
{
    let pieces = collect(alloc, &cut.paths)?;
    counted_segments(alloc, &pieces.list)
}

/// The edges cut at each other's ends where many are level or upright and lie in line. `None` where they stay as they are.
fn cut_first(alloc: Global, edges: &[LatticeEdge]) -> Result<Option<CutInLine>, AllocError>
    ensures { IfOk result (λ o. IfSome o (λ c. AreCutInLine edges.now c.edges.items c.splits)) }
{
    if !are_many_in_line(edges) {
        return Ok(None);
    }
    cut_in_line(alloc, edges)
}

/// Splits edges in arrays as they are. `None` where that is given up.
fn splitting_of(
    alloc: Global,
    edges: &[LatticeEdge],
) -> Result<Option<Vec<CountedSegment>>, AllocError>
    requires { IsProper edges.now }
    ensures splitting { IfOk result (λ o. IfSome o (λ v. IsSplitting edges.now v.items)) }
    ensures room { IfOk result (λ o. IfSome o (λ v. IsRoomy (sum_of size v.items))) }
{
    let mut count = SplitCount::new(0);
    let settled = match cut_and_settled(alloc, edges, 0, &mut count) {
        Ok(settled) => settled,
        Err(SplitError::OutOfMemory) => return Err(AllocError),
        Err(SplitError::TooManySplits) => unreachable!(),
    };
    let Some((cut, clear)) = settled else {
        return Ok(None);
    };
    if !clear {
        return Ok(None);
    }
    Ok(Some(segments_of(alloc, edges, &cut)?))
}

/// Splits edges in arrays. `None` where that is given up: the edges have to be split another way then.
fn splitting_in_arrays(
    alloc: Global,
    edges: &[LatticeEdge],
) -> Result<Option<Vec<CountedSegment>>, AllocError>
    requires { IsProper edges.now }
    ensures splitting { IfOk result (λ o. IfSome o (λ v. IsSplitting edges.now v.items)) }
    ensures room { IfOk result (λ o. IfSome o (λ v. IsRoomy (sum_of size v.items))) }
{
    if is_convex_loop(edges) {
        return Ok(Some(split_convex_loop(alloc, edges)?));
    }
    if !do_arrays_serve(edges) {
        return Ok(None);
    }
    let Some(cut) = cut_first(alloc, edges)? else {
        return splitting_of(alloc, edges);
    };
    splitting_of(alloc, &cut.edges)
}

/// Splits edges in arrays as they are, with the nearness of the splits, which are counted on, and so many made before.
fn told_after(
    alloc: Global,
    edges: &[LatticeEdge],
    before: usize,
    count: &mut SplitCount,
) -> Result<Option<ToldSplitting>, SplitError>
    requires { IsProper edges.now }
    ensures made { IfOk result (λ o. IfSome o (λ told.
        IsMadeAfter before edges.now count.old count.new told.segments.items told.nearness)) }
    ensures room { IfOk result (λ o. IfSome o (λ told. IsRoomy (sum_of size told.segments.items))) }
    ensures small { IfOk result (λ o. IfSome o (λ told. told.nearness ≤ 2 ^ 38)) }
    ensures counted { CountsAfter before edges.now count.old count.new }
    ensures within { IfOk result (λ o. IfSome o (λ _. IsWithinLimit count.new)) }
    ensures refused { IfErr result (λ e. IsReason e count.new) }
{
    let Some((cut, clear)) = cut_and_settled(alloc, edges, before, count)? else {
        return Ok(None);
    };
    count_on(count, before.saturating_add(cut.paths.splits.made().len()))?;
    if !clear {
        return Ok(None);
    }
    let nearness = nearness(&cut.paths);
    let segments = segments_of(alloc, edges, &cut)?;
    Ok(Some(ToldSplitting { segments, nearness }))
}

/// The edges themselves as segments, and the nearness 0, where they run once round a convex polygon: no split is made, so
/// none is counted on.
fn told_of_convex_loop(
    alloc: Global,
    edges: &[LatticeEdge],
    count: &mut SplitCount,
) -> Result<ToldSplitting, SplitError>
    requires convex { IsConvexLoop edges.now }
    requires proper { IsProper edges.now }
    ensures made { IfOk result (λ told.
        IsMadeAmong 1 edges.now count.old count.new told.segments.items told.nearness) }
    ensures room { IfOk result (λ told. IsRoomy (sum_of size told.segments.items)) }
    ensures small { IfOk result (λ told. told.nearness ≤ 2 ^ 38) }
    ensures counted { CountsAtMost 1 edges.now count.old count.new }
    ensures within { OnOk result (IsWithinLimit count.new) }
    ensures refused { IfErr result (λ e. IsReason e count.new) }
{
    count_on(count, 0)?;
    let segments = split_convex_loop(alloc, edges)?;
    Ok(ToldSplitting {
        segments,
        nearness: 0,
    })
}

/// Splits edges in arrays, with the nearness of the splits, which are counted on. Those of a convex polygon stay as they
/// are, and edges in line are cut first.
fn told_in_arrays(
    alloc: Global,
    edges: &[LatticeEdge],
    count: &mut SplitCount,
) -> Result<Option<ToldSplitting>, SplitError>
    requires { IsProper edges.now }
    ensures made { IfOk result (λ o. IfSome o (λ told.
        IsMadeAmong attempts_in_arrays edges.now count.old count.new told.segments.items told.nearness)) }
    ensures room { IfOk result (λ o. IfSome o (λ told. IsRoomy (sum_of size told.segments.items))) }
    ensures small { IfOk result (λ o. IfSome o (λ told. told.nearness ≤ 2 ^ 38)) }
    ensures counted { CountsAtMost attempts_in_arrays edges.now count.old count.new }
    ensures within { IfOk result (λ o. IfSome o (λ _. IsWithinLimit count.new)) }
    ensures refused { IfErr result (λ e. IsReason e count.new) }
{
    let _made = count.made;
    if is_convex_loop(edges) {
        return Ok(Some(told_of_convex_loop(alloc, edges, count)?));
    }
    if !do_arrays_serve(edges) {
        return Ok(None);
    }
    let Some(cut) = cut_first(alloc, edges)? else {
        return told_after(alloc, edges, 0, count);
    };
    told_after(alloc, &cut.edges, cut.splits, count)
}

/// Splits directed edges, none of which ends where it starts, until any two segments share only common ends:
/// the segments come from the edges by legal splits, each stands once, with its net count, also where that is 0,
/// and each edge has become a path in its own box that never goes back in `x` nor in `y`. So segments of edges in the
/// safe range are in it. It fails only where memory is refused.
pub fn split_edges(alloc: Global, edges: &[LatticeEdge]) -> Result<Vec<CountedSegment>, AllocError>
    requires { IsProper edges.now }
    ensures splitting { IfOk result (λ v. IsSplitting edges.now v.items) }
    ensures room { IfOk result (λ v. IsRoomy (sum_of size v.items)) }
{
    if let Some(segments) = splitting_in_arrays(alloc, edges)? {
        return Ok(segments);
    }
    rounds::split_edges(alloc, edges)
}

/// The same, and tells how near the splits lie to the edges. The splits are counted on, those of attempts that were
/// given up too, whatever comes of it; there are at most 51 attempts. It fails where memory is refused, and where the
/// splits pass the limit of the count, if it has one.
pub fn split_edges_told(
    alloc: Global,
    edges: &[LatticeEdge],
    count: &mut SplitCount,
) -> Result<ToldSplitting, SplitError>
    requires { IsProper edges.now }
    ensures splitting { IfOk result (λ told. IsToldSplitting edges.now told.segments.items told.nearness) }
    ensures room { IfOk result (λ told. IsRoomy (sum_of size told.segments.items)) }
    ensures small { IfOk result (λ told. told.nearness ≤ 2 ^ 38) }
    ensures counted { CountsSplits edges.now count.old count.new }
    ensures standing { IfOk result (λ told.
        IsCountedSplitting edges.now count.old count.new told.segments.items told.nearness) }
    ensures within { OnOk result (IsWithinLimit count.new) }
    ensures refused { IfErr result (λ e. IsReason e count.new) }
{
    if let Some(told) = told_in_arrays(alloc, edges, count)? {
        return Ok(told);
    }
    rounds::split_edges_told(alloc, edges, count)
}
