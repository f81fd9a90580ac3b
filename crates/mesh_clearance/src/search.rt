//! The search for the least distance between edges and sections.

ghost use Rattle.std.specs.Prelude.{◌≡◌, ◌⊎◌, ◌<◌, ◌≤◌, [], length, suc, MatchOption};
ghost use Rattle.std.specs.List.{All};
ghost use Rattle.mesh_plane.specs.Plane.{Edge};
ghost use Rattle.mesh_clearance.specs.Boxes.{AreFar, IsRun};
ghost use Rattle.mesh_clearance.specs.Clearance.{AreApart, IsClearance};

use crate::boxes::box_of;
use crate::distance::separation;
use crate::runs::{Run, passed};
use mesh_lattice::lattice::LatticeEdge;

/// Goes on from a place of the edges: past a run that is far enough, or past the edge there. It gives the place behind
/// and the least of `least` and the squared distances that were measured.
fn step(
    edges: &[LatticeEdge],
    runs: &[Run],
    starts: &[usize],
    at: usize,
    section: LatticeEdge,
    least: u128,
) -> (usize, u128)
    requires runs { All (IsRun edges.now) runs.now }
    requires within { at < length edges.now }
    ensures ahead { at < result.0 }
    ensures less { result.1 ≤ least }
    ensures apart { AreFar result.1 edges.now at result.0 section }
    ensures reached { (result.1 ≡ least) ⊎ (All (λ (e : Edge). AreApart (suc result.1) e section) edges.now → ⊥) }
{
    let end = passed(runs, starts, at, box_of(section), least);
    if at < end {
        return (end, least);
    }
    (at + 1, least.min(separation(edges[at], section)))
}

/// The least of `most` and the squared distances of edges from a section.
fn nearest(
    edges: &[LatticeEdge],
    runs: &[Run],
    starts: &[usize],
    section: LatticeEdge,
    most: u128,
) -> u128
    requires { All (IsRun edges.now) runs.now }
    ensures less { result ≤ most }
    ensures apart { All (λ (e : Edge). AreApart result e section) edges.now }
    ensures reached { (result ≡ most) ⊎ (All (λ (e : Edge). AreApart (suc result) e section) edges.now → ⊥) }
{
    let mut least = most;
    let mut at = 0;
    while at < edges.len() {
        let next = step(edges, runs, starts, at, section, least);
        at = next.0;
        least = next.1;
    }
    least
}

/// The clearance between edges, whose runs are given, and sections, if there are any of both.
pub fn clearance(
    edges: &[LatticeEdge],
    runs: &[Run],
    starts: &[usize],
    sections: &[LatticeEdge],
) -> Option<u128>
    requires { All (IsRun edges.now) runs.now }
    ensures { MatchOption result ((edges.now ≡ []) ⊎ (sections.now ≡ [])) (IsClearance edges.now sections.now) }
{
    let Some((first, _)) = edges.split_first() else {
        return None;
    };
    let Some((start, _)) = sections.split_first() else {
        return None;
    };
    let mut least = separation(*first, *start);
    for section in sections {
        least = nearest(edges, runs, starts, *section, least);
    }
    Some(least)
}
