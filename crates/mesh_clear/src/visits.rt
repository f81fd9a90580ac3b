//! Where paths stop: a guess at which places two paths that met have a common stop.
//!
//! Most points at which edges were cut are of two paths, and got their numbers in the order of the pairs. So the stop that
//! a pair has in common is mostly that of the next number, and need not be sought along both paths. Nothing rests on that.

ghost use Rattle.std.specs.Prelude.{◌≡◌, IfSome};
ghost use Rattle.mesh_clear.specs.Private.Looking.{AreFit};

use mesh_paths::paths::{Paths, Piece};
use std::alloc::{AllocError, Global};

/// So many numbers are looked at for a pair. Some pairs were cut at no new point, so that one number would not do.
const AHEAD: usize = 4;

/// After pairs for which none was found, so many more at most. With twice as many, drawings in which many paths go through
/// one point would cost more than the guess saves.
const MOST_MORE: usize = 32;

/// A place where a path stops.
#[derive(Copy, Clone)]
struct Visit {
    path: u32,
    place: u32,
}

/// What stands where no path stops: no path has this number.
const NO_VISIT: Visit = Visit {
    path: u32::MAX,
    place: 0,
};

/// For each point the last visit and the one before it, which number is looked at next, and for how many pairs none was
/// found since one was.
#[derive(Drop)]
pub struct Visits {
    last: Vec<(Visit, Visit)>,
    pub next: usize,
    missed: usize,
}

/// One more than the greatest number of an end of an edge: the points from there on are of cuts.
fn first_cut(paths: &Paths) -> usize {
    let mut most: u32 = 0;
    for e in &paths.edges {
        most = most.max(e.from).max(e.to);
    }
    most as usize + 1
}

/// Where each path stops between its ends.
pub fn visits_of(alloc: Global, paths: &Paths) -> Result<Visits, AllocError>
    requires { AreFit paths.now }
{
    let first = first_cut(paths);
    let mut last = vec![in alloc; (NO_VISIT, NO_VISIT); paths.points.len()]?;
    for path in 0..paths.edges.len() {
        for place in 1..paths.stops.pieces(path) {
            let id = paths.stops.stop(path, place).id as usize;
            if id < last.len() {
                let visit = Visit {
                    path: path as u32,
                    place: place.min(u32::MAX as usize) as u32,
                };
                last[id] = (visit, last[id].0);
            }
        }
    }
    Ok(Visits {
        last,
        next: first,
        missed: 0,
    })
}

/// The places of two paths, if these are their visits.
fn places(visits: (Visit, Visit), first: u32, second: u32) -> Option<(Piece, Piece)>
    ensures first { IfSome result (λ c. c.0.path ≡ first) }
    ensures second { IfSome result (λ c. c.1.path ≡ second) }
{
    let (last, before) = visits;
    let (p, q) = if last.path == second {
        (before, last)
    } else {
        (last, before)
    };
    if p.path != first || q.path != second {
        return None;
    }
    Some((
        Piece {
            path: first,
            place: p.place as usize,
        },
        Piece {
            path: second,
            place: q.place as usize,
        },
    ))
}

impl Visits {
    /// The places of a common stop of two paths, if it is among the next ones.
    pub fn common(&mut self, first: u32, second: u32) -> Option<(Piece, Piece)>
        ensures first { IfSome result (λ c. c.0.path ≡ first) }
        ensures second { IfSome result (λ c. c.1.path ≡ second) }
    {
        let end = self.next.saturating_add(AHEAD + self.missed.min(MOST_MORE));
        for id in self.next..end.min(self.last.len()) {
            if let Some(common) = places(self.last[id], first, second) {
                self.next = id + 1;
                self.missed = 0;
                return Some(common);
            }
        }
        self.missed = self.missed.saturating_add(1);
        None
    }
}
