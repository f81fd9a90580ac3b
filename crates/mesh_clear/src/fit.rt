//! Whether paths can be looked at.

ghost use Rattle.std.specs.Prelude.{◌↔◌, ◌<◌, ◌^◌, IsTrue};
ghost use Rattle.mesh_paths.specs.Paths.{ArePaths};
ghost use Rattle.mesh_paths.specs.Stops.{count_of};
ghost use Rattle.mesh_check.specs.Bent.{ArePointsSmall};
ghost use Rattle.mesh_clear.specs.Private.Looking.{AreFit, IsPathFit};

use mesh_meeting::small::has_small_ends;
use mesh_paths::paths::Paths;
use mesh_points::points::Points;

/// Of so many paths none is looked at.
const TOO_MANY_PATHS: usize = 1 << 32;

/// Whether all points have coordinates below 2^30 in size.
fn are_points_small(points: &Points) -> bool
    ensures { IsTrue result ↔ ArePointsSmall points.now }
{
    for k in 0..points.len() {
        let at = points.point(k as u32);
        if !has_small_ends((at, at)) {
            return false;
        }
    }
    true
}

/// Whether an edge has small coordinates, and its path begins and ends at the edge's ends, by their numbers.
fn is_path_fit(paths: &Paths, path: u32) -> bool
    requires paths { ArePaths paths.now }
    requires within { path < count_of paths.now.stops }
    ensures { IsTrue result ↔ IsPathFit paths.now path }
{
    let e = paths.edges[path as usize];
    if !has_small_ends((e.start, e.end)) {
        return false;
    }
    if paths.stops.stop(path as usize, 0).id != e.from {
        return false;
    }
    let pieces = paths.stops.pieces(path as usize);
    paths.stops.stop(path as usize, pieces).id == e.to
}

/// Whether there are fewer than 2^32 paths, all coordinates are below 2^30 in size, and each path begins and ends where
/// its edge does.
pub fn are_fit(paths: &Paths) -> bool
    requires { ArePaths paths.now }
    ensures { IsTrue result ↔ AreFit paths.now }
{
    if paths.edges.len() >= TOO_MANY_PATHS {
        return false;
    }
    if !are_points_small(&paths.points) {
        return false;
    }
    for path in 0..paths.edges.len() {
        if !is_path_fit(paths, path as u32) {
            return false;
        }
    }
    true
}
