//! The plane in parts, by cuts along the axes and along long segments, finer where much is listed. Each segment is
//! listed in the parts that it reaches, where those are sought that a segment may meet, until it is taken out. What a
//! part lists counts only where it lives.

ghost use Rattle.std.specs.Prelude.{◌≡◌, ◌^◌, ◌<◌, true, false, not, ℤ, pos, ◌*ℤ◌, ◌<ℤ◌, MatchOption};
ghost use Rattle.std.specs.Prelude.{IfOk, OnOk};
ghost use Rattle.mesh_plane.specs.Bounds.{IsSmall};
ghost use Rattle.mesh_plane.specs.Plane.{Edge};
ghost use Rattle.mesh_lattice.specs.Split.{AreClear, same_edge};
ghost use Rattle.mesh_store.specs.Cells.{Cell, IsAt, height, is_below, reaches, listed_at, StandsIn, HasListed};
ghost use Rattle.mesh_store.specs.Cells.{KeepsThose, KeepsListed, KeepsOthers, IsCellClear, MeetsLive};
ghost use Rattle.mesh_store.specs.BoundingBoxes.{AreBounds};
ghost use Rattle.mesh_store.specs.Steps.{exactly};

use crate::bounding::{BoundingBox, bounding_box, is_beside};
use crate::tally::Tally;
use crate::tuning::{FEW_OF_A_PART, SAMPLED_FOR_A_CUT};
use mesh_lattice::exact::{meeting, same_edge};
use mesh_lattice::lattice::{LatticeEdge, LatticePoint};
use mesh_lattice::samples::sample;
use std::alloc::{AllocError, Global};

/// The ends of a live segment that another segment meets, and where both are to be split.
pub type Meeting = (LatticeEdge, LatticePoint);

/// A vector across a cut.
type Across = (i16, i16);

/// A line, which parts the plane.
#[derive(Copy, Clone)]
pub struct Cut {
    /// A vector across it.
    across: Across,
    /// The least height beyond it, along that vector.
    at: i64,
}

/// The plane, or a part of it.
#[derive(Drop)]
pub enum Tree {
    /// What is listed, and from how many on the part is to be parted.
    Leaf(Vec<LatticeEdge>, usize),
    /// What lies below a cut, and the rest.
    Fork(Box<Tree>, Cut, Box<Tree>),
}

/// One term of a height.
fn term(component: i16, coordinate: i32) -> i64
    ensures value { result ≡ component *ℤ coordinate }
    ensures size { IsSmall (2 ^ 48) result }
{
    component as i64 * coordinate as i64
}

/// How far a point lies along a vector, times the length of the vector.
fn height(across: Across, p: LatticePoint) -> i64
    ensures { result ≡ height across p }
{
    term(across.0, p.0) + term(across.1, p.1)
}

/// Whether a point lies below a cut.
fn is_below(cut: Cut, p: LatticePoint) -> bool
    ensures { result ≡ is_below cut p }
{
    height(cut.across, p) < cut.at
}

/// Whether an end of an edge lies on this side of a cut. If none does, no point of it does.
fn reaches(cut: Cut, e: LatticeEdge, below: bool) -> bool
    ensures { result ≡ reaches cut e below }
{
    if below {
        is_below(cut, e.0) || is_below(cut, e.1)
    } else {
        !is_below(cut, e.0) || !is_below(cut, e.1)
    }
}

/// A listed segment as one that the given segment, whose box has these bounds, meets, where it lives and does so. Most
/// of those listed lie beside the box.
fn live_meeting(
    live: &Tally,
    s: LatticeEdge,
    bounds: BoundingBox,
    e: LatticeEdge,
) -> Option<Meeting>
    requires { AreBounds bounds s }
    ensures { MatchOption result (pos 0 <ℤ exactly e live.now → AreClear s e) (λ m. MeetsLive s live.now m) }
{
    if is_beside(bounds, e) {
        return None;
    }
    let Some(at) = meeting(s, e) else {
        return None;
    };
    if live.has(e) {
        return Some((e, at));
    }
    None
}

/// A live segment among those listed that the given one meets.
fn in_part(live: &Tally, listed: &[LatticeEdge], s: LatticeEdge) -> Option<Meeting>
    ensures { MatchOption result (IsCellClear s listed.now live.now) (λ m. MeetsLive s live.now m) }
{
    let bounds = bounding_box(s);
    for e in listed {
        if let Some(m) = live_meeting(live, s, bounds, *e) {
            return Some(m);
        }
    }
    None
}

/// Takes a segment out of a list.
fn take_out(listed: &mut Vec<LatticeEdge>, e: LatticeEdge)
    ensures { KeepsThose (λ x. same_edge x e ≡ false) listed.old.items listed.new.items }
{
    listed.retain(
        |x: &LatticeEdge| -> bool
            ensures { result ≡ not (same_edge x.now e) }
        { !same_edge(*x, e) },
    );
}

/// Those that reach this side of a cut.
fn on_side(
    alloc: Global,
    listed: &[LatticeEdge],
    cut: Cut,
    below: bool,
) -> Result<Vec<LatticeEdge>, AllocError>
    ensures { IfOk result (λ v. KeepsThose (λ x. reaches cut x below ≡ true) listed.now v.items) }
{
    let mut left = Vec::with_capacity(alloc, listed.len())?;
    for e in listed {
        if reaches(cut, *e, below) {
            left.push(*e)?;
        }
    }
    Ok(left)
}

/// The cut across this vector in the middle of the ends of these edges.
fn middle(alloc: Global, edges: &[LatticeEdge], across: Across) -> Result<Option<Cut>, AllocError> {
    let mut ends = Vec::with_capacity(alloc, edges.len().saturating_mul(2))?;
    for e in edges {
        ends.push(height(across, e.0))?;
        ends.push(height(across, e.1))?;
    }
    let half = ends.len() / 2;
    if half == ends.len() {
        return Ok(None);
    }
    let (_, at, _) = ends.select_nth_unstable(half);
    Ok(Some(Cut { across, at: *at }))
}

/// How far apart the least and the greatest of these numbers are.
#[derive(Copy, Clone)]
struct Extent {
    least: i32,
    greatest: i32,
}

impl Extent {
    /// That of no number.
    fn none() -> Extent {
        Extent {
            least: i32::MAX,
            greatest: i32::MIN,
        }
    }

    /// That of one number more.
    fn with(self, number: i32) -> Extent {
        Extent {
            least: self.least.min(number),
            greatest: self.greatest.max(number),
        }
    }

    fn length(self) -> i64 {
        self.greatest as i64 - self.least as i64
    }
}

/// Vectors along the axes, the first one along that in which these edges reach farther.
fn axes(edges: &[LatticeEdge]) -> [Across; 2] {
    let mut width = Extent::none();
    let mut height = Extent::none();
    for e in edges {
        width = width.with(e.0.0).with(e.1.0);
        height = height.with(e.0.1).with(e.1.1);
    }
    if width.length() < height.length() {
        [(0, 1), (1, 0)]
    } else {
        [(1, 0), (0, 1)]
    }
}

/// The vector from the start of an edge to its end, turned to the left by a right angle.
fn left_of(e: LatticeEdge) -> (i64, i64) {
    (e.0.1 as i64 - e.1.1 as i64, e.1.0 as i64 - e.0.0 as i64)
}

/// How long an edge is: the sum of both components.
fn length_of(e: LatticeEdge) -> u64 {
    let (x, y) = left_of(e);
    x.unsigned_abs().saturating_add(y.unsigned_abs())
}

/// A vector, halved until it fits.
fn halved(v: (i64, i64)) -> Across {
    let (mut x, mut y) = v;
    for _bit in 0..i64::BITS {
        if let (Ok(a), Ok(b)) = (i16::try_from(x), i16::try_from(y)) {
            return (a, b);
        }
        x /= 2;
        y /= 2;
    }
    (0, 0)
}

/// The vector across the edge at a place among those that are at least so long, halved until it fits.
fn across_at(edges: &[LatticeEdge], least: u64, place: usize) -> Across {
    match edges.iter().filter(|e| length_of(**e) >= least).nth(place) {
        Some(e) => halved(left_of(*e)),
        None => (0, 0),
    }
}

/// Vectors across which a cut is tried: along the axes, across the longest edge, and across three others that are half
/// as long at least, since of edges that spread like a fan one in the middle serves, and a list often has them in their
/// order round.
fn candidates(edges: &[LatticeEdge]) -> [Across; 6] {
    let [first, second] = axes(edges);
    let longest = edges.iter().fold(0, |most: u64, e| most.max(length_of(*e)));
    let least = longest / 2;
    let long = edges.iter().filter(|e| length_of(**e) >= least).count();
    let half = long / 2;
    [
        first,
        second,
        across_at(edges, longest, 0),
        across_at(edges, least, half),
        across_at(edges, least, half / 2),
        across_at(edges, least, half + half / 2),
    ]
}

/// How much there is to search on both sides of a cut, if each edge is sought on each side that it reaches.
fn work(edges: &[LatticeEdge], cut: Cut) -> usize {
    let mut below: usize = 0;
    let mut beyond: usize = 0;
    for e in edges {
        if reaches(cut, *e, true) {
            below = below.saturating_add(1);
        }
        if reaches(cut, *e, false) {
            beyond = beyond.saturating_add(1);
        }
    }
    below
        .saturating_mul(below)
        .saturating_add(beyond.saturating_mul(beyond))
}

/// The cut in the middle, along an axis or along an edge, that leaves least to search, where that is at most four
/// fifths of what there was: so what reaches both sides is listed not much more often. Where one leaves three fifths,
/// no other is tried.
fn best_cut(alloc: Global, edges: &[LatticeEdge]) -> Result<Option<Cut>, AllocError> {
    let some = sample(alloc, edges, SAMPLED_FOR_A_CUT)?;
    let whole = some.len().saturating_mul(some.len());
    let mut best = None;
    let mut least = whole / 5 * 4;
    for across in candidates(&some) {
        if let Some(cut) = middle(alloc, &some, across)? {
            let left = work(&some, cut);
            if left <= least {
                least = left;
                best = Some(cut);
            }
        }
        if least <= whole / 5 * 3 {
            return Ok(best);
        }
    }
    Ok(best)
}

/// A part that lists these, parted once where that serves.
fn parted(alloc: Global, listed: Vec<LatticeEdge>, full: usize) -> Result<Tree, AllocError>
    ensures { IfOk result (λ n. (x : Edge) → StandsIn x listed.items → HasListed (listed_at n) x) }
{
    if listed.len() <= full / 2 {
        return Ok(Tree::Leaf(listed, full));
    }
    let Some(cut) = best_cut(alloc, &listed)? else {
        let more = listed.len().saturating_mul(2);
        return Ok(Tree::Leaf(listed, more));
    };
    let low = on_side(alloc, &listed, cut, true)?;
    let high = on_side(alloc, &listed, cut, false)?;
    let low = Box::new(alloc, Tree::Leaf(low, FEW_OF_A_PART))?;
    let high = Box::new(alloc, Tree::Leaf(high, FEW_OF_A_PART))?;
    Ok(Tree::Fork(low, cut, high))
}

/// A part that lists these, or none.
fn leaf_for(alloc: Global, edges: &[LatticeEdge], lists: bool) -> Result<Tree, AllocError>
    ensures { lists ≡ true → IfOk result (λ n. (x : Edge) → StandsIn x edges.now → HasListed (listed_at n) x) }
{
    if !lists {
        return Ok(Tree::Leaf(Vec::new(alloc), FEW_OF_A_PART));
    }
    let listed = Vec::from_slice(alloc, edges)?;
    let full = listed.len().saturating_mul(2).max(FEW_OF_A_PART);
    Ok(Tree::Leaf(listed, full))
}

/// A side of a cut: whether it is the one below.
type Side = (Cut, bool);

/// Whether no part that comes before the one on these sides is reached by both segments too.
fn is_first(sides: &[Side], s: LatticeEdge, e: LatticeEdge) -> bool {
    for (cut, below) in sides {
        if !*below && reaches(*cut, s, true) && reaches(*cut, e, true) {
            return false;
        }
    }
    true
}

impl Tree {
    /// The plane in parts that serve for these edges, which are listed or not.
    pub fn for_edges(
        alloc: Global,
        edges: &[LatticeEdge],
        lists: bool,
        depth: usize,
    ) -> Result<Tree, AllocError>
        ensures { lists ≡ true → IfOk result (λ n. (x : Edge) → StandsIn x edges.now → HasListed (listed_at n) x) }
    {
        if depth == 0 || edges.len() <= FEW_OF_A_PART {
            return leaf_for(alloc, edges, lists);
        }
        let Some(cut) = best_cut(alloc, edges)? else {
            return leaf_for(alloc, edges, lists);
        };
        let low = on_side(alloc, edges, cut, true)?;
        let low = Tree::for_edges(alloc, &low, lists, depth - 1)?;
        let high = on_side(alloc, edges, cut, false)?;
        let high = Tree::for_edges(alloc, &high, lists, depth - 1)?;
        Ok(Tree::Fork(Box::new(alloc, low)?, cut, Box::new(alloc, high)?))
    }

    /// Lists a segment in each part that it reaches, and parts those further that list too many. Answers whether one
    /// that lies under too many cuts for that was full and listed as many as a power of two, so that new cuts would
    /// serve better. Where memory is refused, some of them may list it.
    pub fn put(&mut self, alloc: Global, e: LatticeEdge, depth: usize) -> Result<bool, AllocError>
        ensures kept { KeepsListed (listed_at self.old) (listed_at self.new) }
        ensures listed { OnOk result (HasListed (listed_at self.new) e) }
    {
        match self {
            Tree::Leaf(listed, full) => {
                if listed.len() < *full || depth == 0 {
                    let crowded = listed.len() >= *full && listed.len().is_power_of_two();
                    listed.push(e)?;
                    return Ok(crowded);
                }
                let mut more = Vec::from_slice(alloc, listed)?;
                more.push(e)?;
                *self = parted(alloc, more, *full)?;
                Ok(false)
            }
            Tree::Fork(low, cut, high) => {
                let deeper = depth.saturating_sub(1);
                let below = reaches(*cut, e, true);
                let beyond = reaches(*cut, e, false);
                let mut crowded = false;
                if below {
                    crowded = low.put(alloc, e, deeper)?;
                }
                if beyond {
                    let other = high.put(alloc, e, deeper)?;
                    return Ok(crowded | other);
                }
                Ok(crowded)
            }
        }
    }

    /// Takes a segment out of each part that it reaches.
    pub fn take(&mut self, e: LatticeEdge)
        ensures { KeepsOthers e (listed_at self.old) (listed_at self.new) }
    {
        match self {
            Tree::Leaf(listed, _) => take_out(listed, e),
            Tree::Fork(low, cut, high) => {
                let below = reaches(*cut, e, true);
                let beyond = reaches(*cut, e, false);
                if below {
                    low.take(e);
                }
                if beyond {
                    high.take(e);
                }
            }
        }
    }

    /// A live segment that is listed where the given one reaches, and that it meets.
    pub fn find(&self, live: &Tally, s: LatticeEdge) -> Option<Meeting>
        ensures { MatchOption result ((c : Cell) → IsAt s c → IsCellClear s (listed_at self.now c) live.now)
            (λ m. MeetsLive s live.now m) }
    {
        match self {
            Tree::Leaf(listed, _) => in_part(live, listed, s),
            Tree::Fork(low, cut, high) => {
                let below = reaches(*cut, s, true);
                let beyond = reaches(*cut, s, false);
                if below {
                    if let Some(m) = low.find(live, s) {
                        return Some(m);
                    }
                }
                if beyond {
                    return high.find(live, s);
                }
                None
            }
        }
    }

    /// Adds the live segments that a segment meets to a list, each in the first part that both reach. This tree is the
    /// part of the plane on the given sides, which are the same afterwards, unless memory was refused.
    pub fn find_all(
        &self,
        live: &Tally,
        s: LatticeEdge,
        sides: &mut Vec<Side>,
        found: &mut Vec<Meeting>,
    ) -> Result<(), AllocError> {
        match self {
            Tree::Leaf(listed, _) => {
                let bounds = bounding_box(s);
                for e in listed {
                    if is_first(sides, s, *e) {
                        if let Some(m) = live_meeting(live, s, bounds, *e) {
                            found.push(m)?;
                        }
                    }
                }
                Ok(())
            }
            Tree::Fork(low, cut, high) => {
                if reaches(*cut, s, true) {
                    sides.push((*cut, true))?;
                    low.find_all(live, s, sides, found)?;
                    sides.pop();
                }
                if reaches(*cut, s, false) {
                    sides.push((*cut, false))?;
                    high.find_all(live, s, sides, found)?;
                    sides.pop();
                }
                Ok(())
            }
        }
    }
}
