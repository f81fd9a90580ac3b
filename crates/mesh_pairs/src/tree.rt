//! Runs of eight edges in the order in which they come, each with a block of their boxes, and blocks over eight blocks
//! until one is over all. Where edges follow each other along a contour, runs are short.

ghost use Rattle.std.specs.Prelude.{◌≡◌, ℕ, ◌+◌, ◌-◌, ◌*◌, ◌/◌, ◌%◌, ◌^◌, ◌<◌, ◌≤◌, ◌⊎◌, List, [], ◌∷◌, ◌++◌, length, pos, ◌≤ℤ◌};
ghost use Rattle.std.specs.Prelude.{IfOk, OnOk};
ghost use Rattle.std.specs.List.{All, Contains};
ghost use Rattle.mesh_pairs.specs.Boxes.{Covers, DoMeet, IsIn};
ghost use Rattle.mesh_pairs.specs.Pairs.{AreBoxesApart, AreSmall, ends_at};
ghost use Rattle.mesh_pairs.specs.Private.Trees.{AreBlocks, AreBoxesOf, AreLanes, AreRuns, IsPushed, IsTree, IsTreeOf, IsUnder, IsUnderSome};
ghost use Rattle.mesh_pairs.specs.Private.Trees.{AreCandidates, below_at, box_at, small_bounds};

use crate::boxes::{Bounds, EightBounds, LANES, NONE};
use crate::places::{after, take_first};
use mesh_points::edges::NumberedEdge;
use std::alloc::{AllocError, Global};

/// What lies below a block: the first edge of a run, or else the first block, and the last run.
#[derive(Copy, Clone)]
struct Below {
    first: usize,
    last: usize,
}

/// Eight boxes, and one that holds them all.
#[derive(Copy, Clone)]
struct Block {
    lanes: EightBounds,
    bounds: Bounds,
}

/// The boxes of edges, and blocks: first those of runs of eight edges, then those of eight blocks each.
#[derive(Drop)]
pub struct Tree {
    boxes: Vec<Bounds>,
    runs: usize,
    blocks: Vec<EightBounds>,
    /// For each block the box that holds all below it.
    bounds: Vec<Bounds>,
    below: Vec<Below>,
}

/// The block of the boxes from one place on and before another.
#[inline]
fn block_over(boxes: &[Bounds], from: usize, to: usize) -> Block
    requires rising { from ≤ to }
    requires within { to ≤ length boxes.now }
    requires few { to ≤ from + 8 }
    ensures lanes { AreLanes result.lanes boxes.now from to }
    ensures covers { (k : ℕ) → from ≤ k → k < to → Covers result.bounds (box_at boxes.now k) }
    ensures small { ((k : ℕ) → from ≤ k → k < to → Covers small_bounds (box_at boxes.now k)) → Covers small_bounds result.bounds }
{
    let mut lanes = EightBounds::none();
    let mut bounds = NONE;
    for k in from..to {
        let next = boxes[k];
        lanes.set(k - from, next);
        bounds = bounds.with(next);
    }
    Block { lanes, bounds }
}

/// The last run below the blocks from one place on and before another.
#[inline]
fn last_below(below: &[Below], from: usize, to: usize) -> usize
    requires rising { from ≤ to }
    requires within { to ≤ length below.now }
    ensures { (k : ℕ) → from ≤ k → k < to → (below_at below.now k).last ≤ result }
{
    let mut last = 0;
    for k in from..to {
        last = last.max(below[k].last);
    }
    last
}

impl Tree {
    /// Adds a block.
    #[inline]
    fn push(&mut self, block: Block, below: Below) -> Result<(), AllocError>
        ensures { OnOk result (IsPushed self.old self.new block below) }
    {
        self.blocks.push(block.lanes)?;
        self.bounds.push(block.bounds)?;
        self.below.push(below)?;
        Ok(())
    }

    /// Adds the boxes of edges.
    fn add_boxes(&mut self, edges: &[NumberedEdge]) -> Result<(), AllocError>
        requires small { AreSmall edges.now }
        requires none { self.old.boxes.items ≡ [] }
        ensures boxes { OnOk result (AreBoxesOf edges.now self.new.boxes.items) }
        ensures small { OnOk result (All (Covers small_bounds) self.new.boxes.items) }
        ensures blocks { OnOk result (self.new.blocks ≡ self.old.blocks) }
        ensures bounds { OnOk result (self.new.bounds ≡ self.old.bounds) }
        ensures below { OnOk result (self.new.below ≡ self.old.below) }
        ensures runs { OnOk result (self.new.runs ≡ self.old.runs) }
    {
        for e in edges {
            self.boxes.push(Bounds::of(e.start, e.end))?;
        }
        Ok(())
    }

    /// Adds the blocks of runs of edges.
    fn add_runs(&mut self) -> Result<(), AllocError>
        requires none { self.old.blocks.items ≡ [] }
        requires no_bounds { self.old.bounds.items ≡ [] }
        requires nothing_below { self.old.below.items ≡ [] }
        requires many { self.old.runs ≡ (length self.old.boxes.items + 7) / 8 }
        requires few { length self.old.boxes.items < 2 ^ 32 }
        requires small { All (Covers small_bounds) self.old.boxes.items }
        ensures boxes { OnOk result (self.new.boxes ≡ self.old.boxes) }
        ensures same { OnOk result (self.new.runs ≡ self.old.runs) }
        ensures many { OnOk result (length self.new.blocks.items ≡ self.old.runs) }
        ensures runs { OnOk result (AreRuns self.new self.old.runs) }
        ensures blocks { OnOk result (AreBlocks self.new) }
    {
        for run in 0..self.runs {
            let from = run * LANES;
            let to = (from + LANES).min(self.boxes.len());
            let block = block_over(&self.boxes, from, to);
            self.push(
                block,
                Below {
                    first: from,
                    last: run,
                },
            )?;
        }
        Ok(())
    }

    /// Adds blocks over those from one place on and before another.
    fn add_level(&mut self, start: usize, end: usize) -> Result<(), AllocError>
        requires blocks { AreBlocks self.old }
        requires runs { AreRuns self.old self.old.runs }
        requires above { self.old.runs ≤ end }
        requires rising { start ≤ end }
        requires all { end ≡ length self.old.blocks.items }
        requires few { end < 2 ^ 33 }
        requires under { (d : ℕ) → d < self.old.runs → IsUnderSome self.old start d }
        ensures boxes { OnOk result (self.new.boxes ≡ self.old.boxes) }
        ensures same { OnOk result (self.new.runs ≡ self.old.runs) }
        ensures runs { OnOk result (AreRuns self.new self.old.runs) }
        ensures blocks { OnOk result (AreBlocks self.new) }
        ensures many { OnOk result (length self.new.blocks.items ≡ end + (end - start + 7) / 8) }
        ensures under { OnOk result ((d : ℕ) → d < self.old.runs → IsUnderSome self.new end d) }
    {
        for place in 0..(end - start + (LANES - 1)) / LANES {
            let from = start + place * LANES;
            let to = (from + LANES).min(end);
            let block = block_over(&self.bounds, from, to);
            let last = last_below(&self.below, from, to);
            self.push(block, Below { first: from, last })?;
        }
        Ok(())
    }

    /// The tree of these edges.
    pub fn new(alloc: Global, edges: &[NumberedEdge]) -> Result<Tree, AllocError>
        requires small { AreSmall edges.now }
        requires few { length edges.now < 2 ^ 31 }
        ensures { IfOk result (λ t. IsTreeOf edges.now t) }
    {
        let room = edges.len() / 7 + 8;
        let mut tree = Tree {
            boxes: Vec::with_capacity(alloc, edges.len())?,
            runs: (edges.len() + (LANES - 1)) / LANES,
            blocks: Vec::with_capacity(alloc, room)?,
            bounds: Vec::with_capacity(alloc, room)?,
            below: Vec::with_capacity(alloc, room)?,
        };
        tree.add_boxes(edges)?;
        tree.add_runs()?;
        let mut start = 0;
        'levels: while tree.blocks.len() - start > 1 {
            let end = tree.blocks.len();
            tree.add_level(start, end)?;
            start = end;
        }
        Ok(tree)
    }

    /// How many runs there are.
    #[inline]
    pub fn runs(&self) -> usize
        ensures { result ≡ self.now.runs }
    {
        self.runs
    }

    /// Adds the runs from one on that stand under a block and whose box meets the given one.
    fn seek(
        &self,
        block: usize,
        from: usize,
        bounds: Bounds,
        found: &mut Vec<usize>,
    ) -> Result<(), AllocError>
        requires blocks { AreBlocks self.now }
        requires runs { AreRuns self.now self.now.runs }
        requires within { block < length self.now.blocks.items }
        requires last { from ≤ (below_at self.now.below.items block).last }
        requires small { Covers small_bounds bounds }
        requires found { All (λ r. (from ≤ r) × (r < self.now.runs)) found.old.items }
        ensures found { OnOk result (All (λ r. (from ≤ r) × (r < self.now.runs)) found.new.items) }
        ensures kept { OnOk result ((d : ℕ) → Contains found.old.items d → Contains found.new.items d) }
        ensures all { OnOk result ((d : ℕ) → d < self.now.runs → from ≤ d → IsUnder self.now block d
            → DoMeet (box_at self.now.bounds.items d) bounds → Contains found.new.items d) }
    {
        if block < self.runs {
            found.push(block)?;
            return Ok(());
        }
        let first = self.below[block].first;
        let mut places = self.blocks[block].meeting(bounds);
        while places != 0 {
            let child = first + take_first(&mut places);
            if self.below[child].last >= from {
                self.seek(child, from, bounds, found)?;
            }
        }
        Ok(())
    }

    /// The runs from one on that may have an edge whose box meets that of one of its edges.
    pub fn candidates(&self, run: usize, found: &mut Vec<usize>) -> Result<(), AllocError>
        requires tree { IsTree self.now }
        requires within { run < self.now.runs }
        ensures found { OnOk result (All (λ r. (run ≤ r) × (r < self.now.runs)) found.new.items) }
        ensures all { OnOk result (AreCandidates self.now run found.new.items) }
    {
        found.clear();
        let top = self.blocks.len() - 1;
        self.seek(top, run, self.bounds[run], found)?;
        Ok(())
    }

    /// The places in a run of edges after the given one whose boxes meet its box.
    #[inline]
    pub fn meeting_after(&self, i: usize, run: usize) -> u32
        requires tree { IsTree self.now }
        requires edge { i < length self.now.boxes.items }
        requires later { i / 8 ≤ run }
        requires within { run < self.now.runs }
        ensures later { (k : ℕ) → k < 8 → IsIn result k → (i < 8 * run + k) × (8 * run + k < length self.now.boxes.items) }
        ensures few { result < 2 ^ 8 }
        ensures all { (es : List NumberedEdge) (j : ℕ) → AreBoxesOf es self.now.boxes.items → j / 8 ≡ run → i < j
            → j < length es → IsIn result (j % 8) ⊎ AreBoxesApart (ends_at es i) (ends_at es j) }
    {
        let bounds = self.boxes[i];
        if self.bounds[run].are_apart(bounds) {
            return 0;
        }
        let places = self.blocks[run].meeting(bounds);
        if run == i / LANES {
            after(places, i % LANES)
        } else {
            places
        }
    }
}
