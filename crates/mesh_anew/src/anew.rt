//! All edges cut again.

ghost use Rattle.std.specs.Prelude.{◌≡◌, ◌<◌, List, IfOk, IfSome, IsTrue, OnOk};
ghost use Rattle.std.specs.List.{All};
ghost use Rattle.mesh_plane.specs.Plane.{Edge};
ghost use Rattle.mesh_attempt.specs.Attempts.{AreCut};
ghost use Rattle.mesh_pairs.specs.Pairs.{AreFound, IsMeeting};
ghost use Rattle.mesh_paths.specs.Paths.{ArePaths};
ghost use Rattle.mesh_points.specs.Edges.{AreNumbered, IsNumbered};

use crate::groups::Marks;
use crate::order::order;
use mesh_attempt::attempt::CutEdges;
use mesh_lattice::exact::is_before;
use mesh_pairs::pairs::Meeting;
use mesh_paths::paths::Paths;
use mesh_points::edges::{NumberedEdge, NumberedEdges};
use mesh_points::points::Points;
use std::alloc::{AllocError, Global};

/// Whether an edge has the numbers of its ends, the lesser one first.
fn is_numbered(points: &Points, e: NumberedEdge) -> bool
    ensures { IsTrue result → IsNumbered points.now e }
{
    if e.from as usize >= points.len() || e.to as usize >= points.len() {
        return false;
    }
    if points.point(e.from) != e.start || points.point(e.to) != e.end {
        return false;
    }
    is_before(e.start, e.end)
}

fn are_numbered(points: &Points, edges: &[NumberedEdge]) -> bool
    ensures { IsTrue result → AreNumbered points.now edges.now }
{
    for k in 0..edges.len() {
        if !is_numbered(points, edges[k]) {
            return false;
        }
    }
    true
}

/// Cuts pairs that meet in this order.
fn cut_in_order(paths: &mut Paths, meetings: &[Meeting], places: &[u32]) -> Result<(), AllocError>
    requires paths { ArePaths paths.old }
    requires meetings { All (IsMeeting paths.old.edges.items) meetings.now }
    ensures paths { OnOk result (ArePaths paths.new) }
    ensures edges { OnOk result (paths.new.edges ≡ paths.old.edges) }
{
    for k in places {
        if (*k as usize) < meetings.len() {
            let m = meetings[*k as usize];
            paths.cut_about(m.first, m.second, m.near)?;
        }
    }
    Ok(())
}

/// The same edges cut again, in the order that serves for these marks. `None` only where edges do not have the numbers of
/// their ends. It fails only where memory is refused, or more than 2^31 - 1 points or pieces are wanted.
pub fn cut_anew(alloc: Global, cut: CutEdges, marks: &Marks) -> Result<Option<CutEdges>, AllocError>
    requires paths { ArePaths cut.paths }
    requires found { AreFound cut.paths.edges.items cut.pairs }
    ensures { IfOk result (λ o. IfSome o (λ c. (given : List Edge) → AreCut given cut → AreCut given c)) }
{
    let CutEdges { paths, pairs } = cut;
    let Paths {
        edges,
        points,
        splits: _,
        stops: _,
        through: _,
    } = paths;
    if !are_numbered(&points, &edges) {
        return Ok(None);
    }
    let places = order(alloc, &pairs.meetings, marks)?;
    let numbered = NumberedEdges {
        list: edges,
        points,
    };
    let mut again = Paths::start(alloc, numbered, &pairs.room, pairs.meetings.len())?;
    cut_in_order(&mut again, &pairs.meetings, &places)?;
    Ok(Some(CutEdges {
        paths: again,
        pairs,
    }))
}
