//! Paths that are bent too far, and all that hang together with them.

ghost use Rattle.std.specs.Prelude.{◌<◌, ◌≤◌};
ghost use Rattle.mesh_paths.specs.Paths.{ArePaths};
ghost use Rattle.mesh_paths.specs.Stops.{count_of, pieces_of};

use mesh_lattice::exact::{cross, minus};
use mesh_pairs::pairs::LEASH;
use mesh_paths::paths::{Paths, Piece};
use std::alloc::{AllocError, Global};

/// What hangs together is cut anew so often, and then given up: it seldom takes more than two or three times, and twice as
/// many would take twice the time in vain.
const TRIES: u32 = 16;

/// Which paths are to be cut anew, and how often that was done.
#[derive(Drop)]
pub struct Marks {
    pub marked: Vec<bool>,
    pub times: Vec<u32>,
}

impl Marks {
    /// No path of so many is marked.
    pub fn new(alloc: Global, paths: usize) -> Result<Marks, AllocError> {
        Ok(Marks {
            marked: vec![in alloc; false; paths]?,
            times: vec![in alloc; 0; paths]?,
        })
    }

    /// Whether a path is marked.
    pub fn is_marked(&self, path: u32) -> bool {
        (path as usize) < self.marked.len() && self.marked[path as usize]
    }

    /// How often a path was cut anew.
    pub fn tries(&self, path: u32) -> u32 {
        if (path as usize) < self.times.len() {
            return self.times[path as usize];
        }
        0
    }

    /// Marks a path, and adds it to a list, if it was not marked.
    fn mark(&mut self, list: &mut Vec<u32>, path: u32) -> Result<(), AllocError> {
        if (path as usize) < self.marked.len() && !self.marked[path as usize] {
            self.marked[path as usize] = true;
            list.push(path)?;
        }
        Ok(())
    }

    /// Takes all marks.
    fn clear(&mut self) {
        for k in 0..self.marked.len() {
            self.marked[k] = false;
        }
    }

    /// Marks the paths that have a stop of a path inside, as this path has.
    fn mark_through(
        &mut self,
        paths: &Paths,
        at: Piece,
        list: &mut Vec<u32>,
    ) -> Result<(), AllocError>
        requires paths { ArePaths paths.now }
        requires path { at.path < count_of paths.now.stops }
        requires place { at.place ≤ pieces_of paths.now.stops at.path }
    {
        let id = paths.stops.stop(at.path as usize, at.place).id;
        let mut rest = paths.through.last(id);
        while rest > 0 {
            let pass = paths.through.pass(rest - 1);
            let e = paths.edges[pass.path as usize];
            if e.from != id && e.to != id {
                self.mark(list, pass.path)?;
            }
            rest = pass.before;
        }
        Ok(())
    }

    /// Marks a path and all that hang together with it, and adds them to a list: those that share a stop inside both with
    /// one that does.
    fn mark_all(&mut self, paths: &Paths, path: u32, list: &mut Vec<u32>) -> Result<(), AllocError>
        requires { ArePaths paths.now }
    {
        let mut next = list.len();
        self.mark(list, path)?;
        for _step in 0..paths.edges.len() {
            if next >= list.len() {
                return Ok(());
            }
            let path = list[next];
            if path as usize >= paths.edges.len() {
                return Ok(());
            }
            for place in 1..paths.stops.pieces(path as usize) {
                self.mark_through(paths, Piece { path, place }, list)?;
            }
            next += 1;
        }
        Ok(())
    }

    /// Marks what hangs together with a path, and counts that it is cut anew. Answers whether that was done too often.
    fn mark_group(
        &mut self,
        paths: &Paths,
        path: u32,
        list: &mut Vec<u32>,
    ) -> Result<bool, AllocError>
        requires { ArePaths paths.now }
    {
        let from = list.len();
        self.mark_all(paths, path, list)?;
        let mut tries: u32 = 0;
        for k in from..list.len() {
            tries = tries.max(self.tries(list[k]));
        }
        for k in from..list.len() {
            let path = list[k] as usize;
            if path < self.times.len() {
                self.times[path] = tries.saturating_add(1);
            }
        }
        Ok(tries >= TRIES)
    }

    /// Marks the paths that are to be cut anew: what hangs together with those of doubtful pairs, and with those that are
    /// bent too far. Answers whether there are any, and none was cut anew too often.
    pub fn find(
        &mut self,
        alloc: Global,
        paths: &Paths,
        doubts: &[(u32, u32)],
    ) -> Result<bool, AllocError>
        requires { ArePaths paths.now }
    {
        self.clear();
        let mut list = Vec::new(alloc);
        for pair in doubts {
            if self.mark_group(paths, pair.0, &mut list)?
                || self.mark_group(paths, pair.1, &mut list)?
            {
                return Ok(false);
            }
        }
        for path in 0..u32::MAX {
            if path as usize >= paths.edges.len() {
                break;
            }
            if bend(paths, path) > LEASH && self.mark_group(paths, path, &mut list)? {
                return Ok(false);
            }
        }
        Ok(list.len() > 0)
    }
}

/// How many units the stops of a path lie beside the line of its edge at most, rounded up.
fn bend(paths: &Paths, path: u32) -> u64
    requires paths { ArePaths paths.now }
    requires within { path < count_of paths.now.stops }
{
    let pieces = paths.stops.pieces(path as usize);
    if pieces < 2 {
        return 0;
    }
    let start = paths.stops.stop(path as usize, 0).at;
    let along = minus(paths.stops.stop(path as usize, pieces).at, start);
    let spread = along.0.unsigned_abs() + along.1.unsigned_abs();
    let mut most: u128 = 0;
    for place in 1..pieces {
        let at = paths.stops.stop(path as usize, place).at;
        most = most.max(cross(along, minus(at, start)).unsigned_abs());
    }
    let spread = u128::from(spread).max(1);
    u64::try_from(most.saturating_add(spread - 1) / spread).unwrap_or(u64::MAX)
}
