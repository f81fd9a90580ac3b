//! Room for edges.

ghost use Rattle.std.specs.Prelude.{◌≡◌, ◌↔◌, IsTrue};
ghost use Rattle.mesh_arrays.specs.EdgeRooms.{DoEdgesFit, LeavesEdges, edge_counts, edge_lists, edge_room, lists_of};
ghost use Rattle.mesh_arrays.specs.Telling.{IsTold};

use crate::failure::Failure;
use crate::lists::FlatLists;
use crate::outcome::Outcome;
use crate::room::put;

/// How many items the lists of edges have.
#[repr(C)]
#[derive(Clone, Copy)]
pub struct EdgeCounts {
    /// The edges of all paths.
    pub edges: usize,
    /// The paths.
    pub paths: usize,
}

fn counts_of<E>(flat: &FlatLists<E>) -> EdgeCounts
    ensures { result ≡ edge_counts (lists_of flat.now) }
{
    EdgeCounts {
        edges: flat.all.len(),
        paths: flat.ends.len(),
    }
}

/// Whether each list fits its room.
fn fits<E>(flat: &FlatLists<E>, edges: &[E], path_ends: &[usize]) -> bool
    ensures { IsTrue result ↔ DoEdgesFit (lists_of flat.now) (edge_lists edges.now path_ends.now) }
{
    flat.all.len() <= edges.len() && flat.ends.len() <= path_ends.len()
}

/// Copies the edges to the beginnings of the caller's lists where all of them fit, and tells how many items each has.
/// `RoomTooSmall`: they do not fit, and the lists are as they were. Where there are no edges, all is as it was.
pub fn hand_over_edges<E: Copy>(
    answer: &Result<FlatLists<E>, Failure>,
    edges: &mut [E],
    path_ends: &mut [usize],
    counts: &mut EdgeCounts,
) -> Outcome
    ensures { IsTold LeavesEdges answer.now (edge_room edges.old path_ends.old counts.old)
        (edge_room edges.new path_ends.new counts.new) result }
{
    let flat = match answer {
        Ok(flat) => flat,
        Err(failure) => return Outcome::of(*failure),
    };
    *counts = counts_of(flat);
    if !fits(flat, edges, path_ends) {
        return Outcome::RoomTooSmall;
    }
    put(&flat.all, edges);
    put(&flat.ends, path_ends);
    Outcome::Answered
}
