//! Runs of edges that follow each other in a list, each run in a box, so that a search can pass many edges at once.

ghost use Rattle.std.specs.Prelude.{◌<◌, List, length, IfOk, IsTrue, OnOk};
ghost use Rattle.std.specs.List.{All};
ghost use Rattle.mesh_plane.specs.Plane.{Edge};
ghost use Rattle.mesh_clearance.specs.Boxes.{AreBoxesApart, AreFar, IsBoxed, IsRun};

use crate::boxes::{LatticeBox, box_around, box_distance};
use mesh_lattice::lattice::LatticeEdge;
use std::alloc::{AllocError, Global};

/// How many edges the longest runs have. Shorter ones have an eighth of that, an eighth of an eighth and so on.
const LONGEST: usize = 16777216;

/// Edges that follow each other in a list, from a first place up to an end, and a box that holds them.
#[derive(Copy, Clone)]
pub struct Run {
    pub around: LatticeBox,
    pub first: usize,
    pub end: usize,
}

/// The runs of a list of edges, by their first places, the longer ones first.
#[derive(Drop)]
pub struct Runs {
    pub list: Vec<Run>,
    /// For each place of an edge, where the runs begin in `list` that have it as first place.
    pub starts: Vec<usize>,
}

fn run_of(edges: &[LatticeEdge], first: usize, size: usize) -> Run
    requires { first < length edges.now }
    ensures { IsRun edges.now result }
{
    let end = first + size.min(edges.len() - first);
    Run {
        around: box_around(&edges[first..end]),
        first,
        end,
    }
}

/// Adds the run of so many edges from a place on, where it is one of those that are kept.
fn push_run(
    list: &mut Vec<Run>,
    edges: &[LatticeEdge],
    first: usize,
    size: usize,
) -> Result<(), AllocError>
    requires some { 0 < size }
    requires within { first < length edges.now }
    requires runs { All (IsRun edges.now) list.old.items }
    ensures { OnOk result (All (IsRun edges.now) list.new.items) }
{
    if first % size != 0 {
        return Ok(());
    }
    list.push(run_of(edges, first, size))?;
    Ok(())
}

/// Adds the runs from a place on.
fn push_runs(list: &mut Vec<Run>, edges: &[LatticeEdge], first: usize) -> Result<(), AllocError>
    requires within { first < length edges.now }
    requires runs { All (IsRun edges.now) list.old.items }
    ensures { OnOk result (All (IsRun edges.now) list.new.items) }
{
    let mut size = LONGEST;
    while size > 0 {
        push_run(list, edges, first, size)?;
        size /= 8;
    }
    Ok(())
}

/// The runs of edges.
pub fn runs_of(alloc: Global, edges: &[LatticeEdge]) -> Result<Runs, AllocError>
    ensures { IfOk result (λ runs. All (IsRun edges.now) runs.list.items) }
{
    let mut list = Vec::new(alloc);
    let mut starts = Vec::new(alloc);
    for first in 0..edges.len() {
        starts.push(list.len())?;
        push_runs(&mut list, edges, first)?;
    }
    Ok(Runs { list, starts })
}

/// Whether the boxes are at least the root of `least` apart.
fn are_far(b: LatticeBox, c: LatticeBox, least: u128) -> bool
    ensures { IsTrue result → AreBoxesApart least b c }
{
    if box_distance(b, c) < least {
        return false;
    }
    true
}

/// The end of the longest run from a place on that is at least the root of `least` from a section, the place itself
/// where there is none.
pub fn passed(list: &[Run], starts: &[usize], at: usize, section: LatticeBox, least: u128) -> usize
    ensures { (es : List Edge) (f : Edge) → All (IsRun es) list.now → IsBoxed section f → AreFar least es at result f }
{
    let Some(start) = starts.get(at) else {
        return at;
    };
    for index in *start..list.len() {
        let run = list[index];
        if run.first != at {
            return at;
        }
        if are_far(run.around, section, least) {
            return run.end;
        }
    }
    at
}
