//! How near paths lie to the edges that they began as.

ghost use Rattle.std.specs.Prelude.{◌≡◌, ℕ, ◌*◌, ◌<◌, ◌≤◌, ◌^◌};
ghost use Rattle.mesh_lattice.specs.Nearness.{IsNearness};
ghost use Rattle.mesh_meeting.specs.Small.{HasSmallEnds};
ghost use Rattle.mesh_pairs.specs.Laws.{spread};
ghost use Rattle.mesh_paths.specs.Paths.{given_to, ArePaths};
ghost use Rattle.mesh_paths.specs.Stops.{count_of};
ghost use Rattle.mesh_check.specs.Bent.{line_of};
ghost use Rattle.mesh_ahead.specs.Farthest.{AreLinesSmall, IsFarthest};

use mesh_check::heights::{beside, spread_of};
use mesh_lattice::lattice::LatticeEdge;
use mesh_paths::paths::Paths;

/// The edge that a path began as.
#[inline]
fn line_of(paths: &Paths, path: usize) -> LatticeEdge
    requires paths { ArePaths paths.now }
    requires within { path < count_of paths.now.stops }
    ensures { result ≡ line_of paths.now path }
{
    let e = paths.edges[path];
    (e.start, e.end)
}

/// How far beside the line of its edge a path's stops lie at most, as a turn without its sign.
fn farthest(paths: &Paths, path: usize) -> u64
    requires paths { ArePaths paths.now }
    requires within { path < count_of paths.now.stops }
    requires line { HasSmallEnds (line_of paths.now path) }
    ensures farthest { IsFarthest paths.now path result }
    ensures bound { result ≤ 2 ^ 32 * spread (line_of paths.now path) }
{
    let line = line_of(paths, path);
    let mut most: u64 = 0;
    for place in 0..paths.stops.pieces(path) + 1 {
        most = most.max(beside(line, paths.stops.stop(path, place).at));
    }
    most
}

/// What lies so far beside the line of an edge of this spread, as a turn, as 64ths of a grid unit, rounded up.
#[inline]
fn distance(beside: u64, spread: u64) -> u64
    requires some { 0 < spread }
    requires bound { beside ≤ 2 ^ 32 * spread }
    ensures small { result ≤ 2 ^ 38 }
    ensures enough { 64 * beside ≤ result * spread }
    ensures least { (l : ℕ) → l < result → l * spread < 64 * beside }
{
    (u128::from(beside) * 64).div_ceil(u128::from(spread)) as u64
}

/// The greatest distance of a stop from the edge of its path, in 64ths of a grid unit, rounded up: the nearness of the
/// splits.
pub fn nearness(paths: &Paths) -> u64
    requires paths { ArePaths paths.now }
    requires lines { AreLinesSmall paths.now }
    ensures near { IsNearness (given_to paths.now) paths.now.splits result }
    ensures small { result ≤ 2 ^ 38 }
{
    let mut most: u64 = 0;
    for path in 0..paths.edges.len() {
        let line = line_of(paths, path);
        most = most.max(distance(farthest(paths, path), spread_of(line)));
    }
    most
}
