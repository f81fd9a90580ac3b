//! Edges cut until no two pieces meet: pieces that meet still are cut where they do, and where that does not come to an
//! end, the edges are cut anew, in another order.

ghost use Rattle.std.specs.Prelude.{◌≡◌, IfErr, IfOk, IfSome, IsTrue, OnOk};
ghost use Rattle.std.specs.List.Sorted.{IsPermutation};
ghost use Rattle.mesh_lattice.specs.Clean.{IsProper};
ghost use Rattle.mesh_split.specs.Counting.{counted, IsReason, IsWithinLimit};
ghost use Rattle.mesh_attempt.specs.Attempts.{AreCut};
ghost use Rattle.mesh_clear.specs.AllClear.{AreAllClear};
ghost use Rattle.mesh_ahead.specs.Arranged.{unplaced};
ghost use Rattle.mesh_ahead.specs.Counting.{CountsEach, most_anew};

use crate::mending::{Verdict, mended};
use mesh_anew::anew::cut_anew;
use mesh_anew::groups::Marks;
use mesh_attempt::attempt::{CutEdges, cut_edges};
use mesh_lattice::lattice::LatticeEdge;
use mesh_rounds::curve::{follow_each_other, place};
use mesh_split::count::{SplitCount, SplitError};
use std::alloc::{AllocError, Global};

/// Where more pairs of edges meet or come close, an attempt is given up. A pair takes 24 bytes, so twice as many would take
/// twice the memory.
const MOST_PAIRS: usize = 1 << 23;

/// Fewer edges are cut in the order in which they stand: boxes of all are soon looked at.
const SOME_EDGES: usize = 64;

/// Edges are cut anew where at most one pair for so many of them is in doubt, beside a few: with more it is seldom of use.
const EDGES_A_DOUBT: usize = 256;

const FEW_DOUBTS: usize = 16;

/// Edges are cut anew so often, at most: what is not settled then seldom is. `attempts_in_arrays` follows from it.
const TIMES_ANEW: usize = 3;

/// How many splits may be made before the limit of a count is passed.
fn splits_left(count: SplitCount) -> usize {
    if count.most == 0 {
        return usize::MAX;
    }
    count.most.saturating_sub(count.made) as usize
}

/// Counts the splits of an attempt on. `TooManySplits`: they pass the limit.
pub fn count_on(count: &mut SplitCount, splits: usize) -> Result<(), SplitError>
    ensures sum { count.new ≡ counted count.old splits }
    ensures within { OnOk result (IsWithinLimit count.new) }
    ensures refused { IfErr result (λ e. IsReason e count.new) }
{
    count.made = count.made.saturating_add(splits as u64);
    if 0 < count.most && count.most < count.made {
        return Err(SplitError::TooManySplits);
    }
    Ok(())
}

/// Edges that were cut, and are cut anew while pieces meet still. The splits of what is given up are counted on, and so
/// many made before it.
fn settle_anew(
    alloc: Global,
    edges: &[LatticeEdge],
    first: CutEdges,
    doubts: Option<Vec<(u32, u32)>>,
    before: usize,
    count: &mut SplitCount,
) -> Result<Option<(CutEdges, bool)>, SplitError>
    requires { AreCut edges.now first }
    ensures cut { IfOk result (λ o. IfSome o (λ c. AreCut edges.now c.0)) }
    ensures clear { IfOk result (λ o. IfSome o (λ c. IsTrue c.1 → AreAllClear c.0.paths)) }
    ensures counted { CountsEach most_anew before edges.now count.old count.new }
    ensures refused { IfErr result (λ e. IsReason e count.new) }
{
    // Read, so that it is known to fit: a return before anything is cut anew counts no split.
    let _made = count.made;
    let mut cut = first;
    let mut verdict = Verdict {
        clear: false,
        doubts,
    };
    let mut marks = Marks::new(alloc, cut.paths.edges.len())?;
    for _time in 0..TIMES_ANEW {
        let Some(doubts) = &verdict.doubts else {
            break;
        };
        let most_doubts = FEW_DOUBTS.saturating_add(edges.len() / EDGES_A_DOUBT);
        if doubts.len() > most_doubts || !marks.find(alloc, &cut.paths, doubts)? {
            break;
        }
        count_on(count, before.saturating_add(cut.paths.splits.made().len()))?;
        let Some(again) = cut_anew(alloc, cut, &marks)? else {
            return Ok(None);
        };
        cut = again;
        verdict = mended(alloc, &mut cut)?;
    }
    Ok(Some((cut, verdict.clear)))
}

/// Edges, each with its place on a curve that fills the plane.
fn placed(alloc: Global, edges: &[LatticeEdge]) -> Result<Vec<(u64, LatticeEdge)>, AllocError>
    ensures { IfOk result (λ v. unplaced v.items ≡ edges.now) }
{
    let mut placed = Vec::with_capacity(alloc, edges.len())?;
    for e in edges {
        placed.push((place(*e), *e))?;
    }
    Ok(placed)
}

/// The edges alone.
fn without_places(
    alloc: Global,
    placed: &[(u64, LatticeEdge)],
) -> Result<Vec<LatticeEdge>, AllocError>
    ensures { IfOk result (λ v. v.items ≡ unplaced placed.now) }
{
    let mut edges = Vec::with_capacity(alloc, placed.len())?;
    for k in placed {
        edges.push(k.1)?;
    }
    Ok(edges)
}

/// The edges in an order in which near ones follow each other, mostly. `None` where they do as they stand, or are few.
fn arranged(alloc: Global, edges: &[LatticeEdge]) -> Result<Option<Vec<LatticeEdge>>, AllocError>
    ensures { IfOk result (λ o. IfSome o (λ v. IsPermutation edges.now v.items)) }
{
    if edges.len() < SOME_EDGES || follow_each_other(edges) {
        return Ok(None);
    }
    let mut placed = placed(alloc, edges)?;
    placed.sort_unstable_by_key(|k| k.0);
    Ok(Some(without_places(alloc, &placed)?))
}

/// Cuts edges in an order in which near ones follow each other, so that their boxes part soon.
fn cut_arranged(
    alloc: Global,
    edges: &[LatticeEdge],
    most_splits: usize,
) -> Result<Option<CutEdges>, AllocError>
    requires { IsProper edges.now }
    ensures { IfOk result (λ o. IfSome o (λ c. AreCut edges.now c)) }
{
    let Some(list) = arranged(alloc, edges)? else {
        return cut_edges(alloc, edges, MOST_PAIRS, most_splits);
    };
    cut_edges(alloc, &list, MOST_PAIRS, most_splits)
}

/// The paths that edges are cut into, and whether their pieces are clear of each other. `None` where the attempt is given
/// up. It stops where the splits pass the limit of the count, with so many made before.
#[tactic(auto, using(crate::proofs::InLine::each_none))]
pub fn cut_and_settled(
    alloc: Global,
    edges: &[LatticeEdge],
    before: usize,
    count: &mut SplitCount,
) -> Result<Option<(CutEdges, bool)>, SplitError>
    requires { IsProper edges.now }
    ensures cut { IfOk result (λ o. IfSome o (λ c. AreCut edges.now c.0)) }
    ensures clear { IfOk result (λ o. IfSome o (λ c. IsTrue c.1 → AreAllClear c.0.paths)) }
    ensures counted { CountsEach most_anew before edges.now count.old count.new }
    ensures refused { IfErr result (λ e. IsReason e count.new) }
{
    // Read, so that it is known to fit: a return before anything is cut anew counts no split.
    let _made = count.made;
    let left = splits_left(*count).saturating_sub(before);
    let Some(mut cut) = cut_arranged(alloc, edges, left)? else {
        return Ok(None);
    };
    if cut.paths.splits.made().len() > left {
        return Ok(Some((cut, false)));
    }
    let verdict = mended(alloc, &mut cut)?;
    if verdict.clear {
        return Ok(Some((cut, true)));
    }
    settle_anew(alloc, edges, cut, verdict.doubts, before, count)
}
