//! All stages in their order.

ghost use Rattle.std.specs.Prelude.{◌≡◌, ◌<◌, length, IfOk, IfSome, OnOk};
ghost use Rattle.std.specs.List.{All};
ghost use Rattle.mesh_lattice.specs.Clean.{IsProper};
ghost use Rattle.mesh_attempt.specs.Attempts.{AreCut};
ghost use Rattle.mesh_pairs.specs.Pairs.{IsMeeting};
ghost use Rattle.mesh_paths.specs.Paths.{ArePaths};

use crate::small::are_small;
use mesh_lattice::lattice::LatticeEdge;
use mesh_pairs::pairs::{Meeting, Pairs};
use mesh_pairs::tree::Tree;
use mesh_paths::paths::Paths;
use mesh_points::edges::{NumberedEdges, number_edges};
use std::alloc::{AllocError, Global};

/// With so many edges or more the attempt is given up: places of edges take 31 bits.
const TOO_MANY_EDGES: usize = 1 << 31;

/// The paths that edges have become, and what was known of pairs of these before any was cut.
#[derive(Drop)]
pub struct CutEdges {
    pub paths: Paths,
    pub pairs: Pairs,
}

/// Cuts two edges where they met, as their paths lie now, unless the end at which they met is a stop of both.
#[inline]
fn cut_meeting(paths: &mut Paths, m: Meeting) -> Result<(), AllocError>
    requires paths { ArePaths paths.old }
    requires first { m.first < length paths.old.edges.items }
    requires second { m.second < length paths.old.edges.items }
    ensures paths { OnOk result (ArePaths paths.new) }
    ensures edges { OnOk result (paths.new.edges ≡ paths.old.edges) }
{
    if (m.end as usize) < paths.points.len() && paths.through.leads(m.first, m.end) {
        return Ok(());
    }
    paths.cut_about(m.first, m.second, m.near)?;
    Ok(())
}

/// Cuts each pair that meets once, until more splits were made than may be.
fn cut_meetings(
    paths: &mut Paths,
    meetings: &[Meeting],
    most_splits: usize,
) -> Result<(), AllocError>
    requires paths { ArePaths paths.old }
    requires meetings { All (IsMeeting paths.old.edges.items) meetings.now }
    ensures paths { OnOk result (ArePaths paths.new) }
    ensures edges { OnOk result (paths.new.edges ≡ paths.old.edges) }
{
    for m in meetings {
        if paths.splits.made().len() > most_splits {
            return Ok(());
        }
        cut_meeting(paths, *m)?;
    }
    Ok(())
}

/// Cuts edges, none of which ends where it starts, where they meet, each pair once, and stops once it has made more than
/// `most_splits` splits. `None` where a coordinate is not below 2^30 in size, where there are 2^31 edges or more, and
/// where more than `most` pairs meet or come close: the edges have to be split another way then. It fails only where
/// memory is refused, or more than 2^31 - 1 points or pieces are wanted.
#[tactic(auto, using(crate::proofs::Known::small_at))]
pub fn cut_edges(
    alloc: Global,
    given: &[LatticeEdge],
    most: usize,
    most_splits: usize,
) -> Result<Option<CutEdges>, AllocError>
    requires { IsProper given.now }
    ensures { IfOk result (λ o. IfSome o (λ c. AreCut given.now c)) }
{
    if given.len() >= TOO_MANY_EDGES {
        return Ok(None);
    }
    let NumberedEdges { list, mut points } = number_edges(alloc, given)?;
    if list.len() >= TOO_MANY_EDGES || !are_small(&list) {
        return Ok(None);
    }
    let tree = Tree::new(alloc, &list)?;
    let Some(pairs) = Pairs::find(alloc, &list, &tree, most)? else {
        return Ok(None);
    };
    points.reserve(alloc, pairs.meetings.len())?;
    let numbered = NumberedEdges { list, points };
    let mut paths = Paths::start(alloc, numbered, &pairs.room, pairs.meetings.len())?;
    cut_meetings(&mut paths, &pairs.meetings, most_splits)?;
    Ok(Some(CutEdges { paths, pairs }))
}
