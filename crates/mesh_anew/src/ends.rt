//! Pairs of paths that share an end.

ghost use Rattle.std.specs.Prelude.{◌<◌, ◌≤◌};
ghost use Rattle.mesh_paths.specs.Paths.{ArePaths};
ghost use Rattle.mesh_paths.specs.Stops.{count_of, pieces_of};

use mesh_paths::paths::{Paths, Piece};
use std::alloc::{AllocError, Global};

/// Adds the pairs of a path that has a stop at this place and of each other one that has the same point as a stop.
fn push_at(paths: &Paths, end: Piece, pairs: &mut Vec<(u32, u32)>) -> Result<(), AllocError>
    requires paths { ArePaths paths.now }
    requires path { end.path < count_of paths.now.stops }
    requires place { end.place ≤ pieces_of paths.now.stops end.path }
{
    let id = paths.stops.stop(end.path as usize, end.place).id;
    let mut rest = paths.through.last(id);
    while rest > 0 {
        let pass = paths.through.pass(rest - 1);
        if pass.path != end.path {
            pairs.push((end.path, pass.path))?;
        }
        rest = pass.before;
    }
    Ok(())
}

/// Adds the pairs of a path and of each other one that leads through an end of it.
pub fn push_at_ends(paths: &Paths, path: u32, pairs: &mut Vec<(u32, u32)>) -> Result<(), AllocError>
    requires { ArePaths paths.now }
{
    if path as usize >= paths.edges.len() {
        return Ok(());
    }
    push_at(paths, Piece { path, place: 0 }, pairs)?;
    let place = paths.stops.pieces(path as usize);
    push_at(paths, Piece { path, place }, pairs)
}
