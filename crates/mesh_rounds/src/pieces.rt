//! Which pieces the segments of a round have become. Of two segments that meet, those pieces are sought that do so now.
//! All that is promised is that the pieces which are found wait, and meet.

ghost use Rattle.std.specs.Prelude.{IfSome};
ghost use Rattle.mesh_lattice.specs.Split.{Meets};
ghost use Rattle.mesh_split.specs.Growth.{Waits};

use crate::groups::Pair;
use crate::tuning::PIECE_REACH;
use mesh_lattice::exact::{is_end, meeting, minus};
use mesh_lattice::lattice::{LatticeEdge, LatticePoint};
use mesh_split::nearness::is_farther;
use mesh_split::witnesses::forward;
use mesh_store::ends_hasher::EndsHasher;
use mesh_store::tree::Meeting;
use mesh_store::worklist::Worklist;
use std::alloc::{AllocError, Global};
use std::collections::HashMap;

/// Two pieces that meet, each at its place in a path, and where.
#[derive(Copy, Clone)]
pub struct Found {
    pub first: LatticeEdge,
    pub meeting: Meeting,
    places: (usize, usize),
}

/// The points of the segments of a round that were split, from the start of each to its end.
#[derive(Drop)]
pub struct Paths {
    alloc: Global,
    points: HashMap<LatticeEdge, Vec<LatticePoint>, EndsHasher>,
    /// Whether a split led too far away.
    pub has_strayed: bool,
}

/// A coordinate, or its opposite.
fn directed(goes_up: bool, coordinate: i32) -> i64 {
    let coordinate = coordinate as i64;
    if goes_up { coordinate } else { -coordinate }
}

/// How far a point lies along an edge, by that coordinate in which its ends differ more.
fn along(e: LatticeEdge, p: LatticePoint) -> i64 {
    let (x, y) = minus(e.1, e.0);
    if y.unsigned_abs() <= x.unsigned_abs() {
        directed(x > 0, p.0)
    } else {
        directed(y > 0, p.1)
    }
}

/// A piece between two points that follow each other, and its place.
fn piece(points: &[LatticePoint], place: usize) -> Option<(LatticeEdge, usize)> {
    let start = points.get(place)?;
    let end = points.get(place.saturating_add(1))?;
    Some((forward((*start, *end)), place))
}

/// Two pieces where they wait and meet.
fn where_they_meet(
    todo: &Worklist,
    e: (LatticeEdge, usize),
    f: (LatticeEdge, usize),
) -> Option<Found>
    ensures first { IfSome result (λ p. Waits p.first todo.now) }
    ensures second { IfSome result (λ p. Waits p.meeting.0 todo.now) }
    ensures meets { IfSome result (λ p. Meets p.first p.meeting.0 p.meeting.1) }
{
    let at = meeting(e.0, f.0)?;
    if todo.has(e.0) && todo.has(f.0) {
        return Some(Found {
            first: e.0,
            meeting: (f.0, at),
            places: (e.1, f.1),
        });
    }
    None
}

impl Paths {
    /// No segment was split.
    pub fn new(alloc: Global) -> Self {
        Paths {
            alloc,
            points: HashMap::with_hasher(alloc, EndsHasher::new()),
            has_strayed: false,
        }
    }

    /// The pieces of a segment about a point, the likeliest first.
    fn about(&self, e: LatticeEdge, c: LatticePoint) -> [Option<(LatticeEdge, usize)>; 3] {
        let Some(points) = self.points.get(&e) else {
            return [Some((e, 0)), None, None];
        };
        let at = along(e, c);
        let after = points.partition_point(|p: &LatticePoint| -> bool { along(e, *p) <= at });
        let place = after.saturating_sub(1);
        [
            piece(points, place),
            piece(points, place.saturating_sub(1)),
            piece(points, after),
        ]
    }

    /// Two pieces of a pair that wait and meet, if some are found.
    pub fn find(&self, todo: &Worklist, pair: Pair) -> Option<Found>
        ensures first { IfSome result (λ p. Waits p.first todo.now) }
        ensures second { IfSome result (λ p. Waits p.meeting.0 todo.now) }
        ensures meets { IfSome result (λ p. Meets p.first p.meeting.0 p.meeting.1) }
    {
        let (first, (second, c)) = pair;
        let others = self.about(second, c);
        for e in self.about(first, c) {
            for f in others {
                if let (Some(e), Some(f)) = (e, f) {
                    if let Some(found) = where_they_meet(todo, e, f) {
                        return Some(found);
                    }
                }
            }
        }
        None
    }

    /// Notes that a piece of a segment is split.
    fn cut(&mut self, e: LatticeEdge, place: usize, c: LatticePoint) -> Result<(), AllocError> {
        if is_farther(e, c, PIECE_REACH) {
            self.has_strayed = true;
        }
        if let Some(points) = self.points.get_mut(&e) {
            if place < points.len() {
                points.insert(place + 1, c)?;
            }
            return Ok(());
        }
        let mut points = Vec::with_capacity(self.alloc, 4)?;
        points.push(e.0)?;
        points.push(c)?;
        points.push(e.1)?;
        self.points.insert(e, points)?;
        Ok(())
    }

    /// Notes that the pieces of a pair are split.
    pub fn note(&mut self, pair: Pair, found: Found) -> Result<(), AllocError> {
        let (first, (second, _)) = pair;
        let (other, c) = found.meeting;
        if !is_end(c, found.first) {
            self.cut(first, found.places.0, c)?;
        }
        if !is_end(c, other) {
            self.cut(second, found.places.1, c)?;
        }
        Ok(())
    }
}
