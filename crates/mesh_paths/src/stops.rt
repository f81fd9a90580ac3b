//! Paths of stops, all in one array. Each has room of its own there, and moves to the end where that does not suffice.

ghost use Rattle.std.specs.Prelude.{◌≡◌, ℕ, ◌+◌, ◌<◌, ◌≤◌, true, IfOk, MatchOption, OnOk};
ghost use Rattle.mesh_paths.specs.Stops.{
  count_of,
  pieces_of,
  span_of,
  stop_of,
  AreApart,
  AreBelow,
  IsAdded,
  IsBetweenIds,
  IsInserted,
  IsKept,
};

use mesh_lattice::lattice::LatticePoint;
use std::alloc::{AllocError, Global};

/// All stops have places below this.
const MOST_STOPS: usize = u32::MAX as usize;

/// A point on a path, and its number.
#[derive(Copy, Clone)]
pub struct Stop {
    pub at: LatticePoint,
    pub id: u32,
}

/// What stands where no path has come yet.
const NO_STOP: Stop = Stop { at: (0, 0), id: 0 };

/// Where a path stands: its stops, one more than its pieces, from `first` on, with room for `room`.
#[derive(Copy, Clone)]
pub struct Span {
    pub first: u32,
    pub pieces: u32,
    pub room: u32,
}

/// The stops of all paths.
#[derive(Drop)]
pub struct Stops {
    spans: Vec<Span>,
    all: Vec<Stop>,
}

impl Stops {
    /// No path, and room for so many paths and stops.
    pub fn with_capacity(alloc: Global, paths: usize, stops: usize) -> Result<Stops, AllocError>
        ensures apart { IfOk result (λ s. AreApart s) }
        ensures none { IfOk result (λ s. count_of s ≡ 0) }
        ensures below { IfOk result (λ s. AreBelow s 0) }
    {
        Ok(Stops {
            spans: Vec::with_capacity(alloc, paths)?,
            all: vec![in alloc; NO_STOP; stops]?,
        })
    }

    /// Adds a path of two stops at a place behind all others, with room for so many. Answers where the next one may be
    /// added. Where the room does not suffice, the path is refused as memory is.
    #[inline]
    pub fn add(
        &mut self,
        first: usize,
        start: Stop,
        end: Stop,
        room: u32,
    ) -> Result<usize, AllocError>
        requires apart { AreApart self.old }
        requires below { AreBelow self.old first }
        ensures apart { OnOk result (AreApart self.new) }
        ensures below { IfOk result (λ next. AreBelow self.new next) }
        ensures added { OnOk result (IsAdded self.old self.new start end) }
    {
        let room = room.max(2);
        let next = first.saturating_add(room as usize);
        if next > MOST_STOPS || next > self.all.len() {
            return Err(AllocError);
        }
        self.all[first] = start;
        self.all[first + 1] = end;
        self.spans.push(Span {
            first: first as u32,
            pieces: 1,
            room,
        })?;
        Ok(next)
    }

    /// How many pieces a path has.
    #[inline]
    pub fn pieces(&self, path: usize) -> usize
        requires { path < count_of self.now }
        ensures { result ≡ pieces_of self.now path }
    {
        self.spans[path].pieces as usize
    }

    /// The stop at a place of a path.
    #[inline]
    pub fn stop(&self, path: usize, place: usize) -> Stop
        requires apart { AreApart self.now }
        requires within { path < count_of self.now }
        requires place { place ≤ pieces_of self.now path }
        ensures { result ≡ stop_of self.now path place }
    {
        self.all[self.spans[path].first as usize + place]
    }

    /// The last stop of a path that does not lie east of a point, or the first one, where the path leads east.
    #[inline]
    pub fn last_west(&self, path: usize, x: i32) -> usize
        requires apart { AreApart self.now }
        requires within { path < count_of self.now }
        ensures { result ≤ pieces_of self.now path }
    {
        let mut first = 0;
        let mut left = self.spans[path].pieces as usize + 1;
        while left > 1 {
            let half = left / 2;
            let middle = first + half;
            first = if self.stop(path, middle).at.0 <= x {
                middle
            } else {
                first
            };
            left -= half;
        }
        first
    }

    /// The same of one that does not lie north of a point, where the path leads north.
    #[inline]
    pub fn last_south(&self, path: usize, y: i32) -> usize
        requires apart { AreApart self.now }
        requires within { path < count_of self.now }
        ensures { result ≤ pieces_of self.now path }
    {
        let mut first = 0;
        let mut left = self.spans[path].pieces as usize + 1;
        while left > 1 {
            let half = left / 2;
            let middle = first + half;
            first = if self.stop(path, middle).at.1 <= y {
                middle
            } else {
                first
            };
            left -= half;
        }
        first
    }

    /// The same of one that does not lie south of a point, where the path leads south.
    #[inline]
    pub fn last_north(&self, path: usize, y: i32) -> usize
        requires apart { AreApart self.now }
        requires within { path < count_of self.now }
        ensures { result ≤ pieces_of self.now path }
    {
        let mut first = 0;
        let mut left = self.spans[path].pieces as usize + 1;
        while left > 1 {
            let half = left / 2;
            let middle = first + half;
            first = if self.stop(path, middle).at.1 >= y {
                middle
            } else {
                first
            };
            left -= half;
        }
        first
    }

    /// Whether a path has a piece between the points of two numbers at a place.
    #[inline]
    pub fn is_between(&self, path: usize, place: usize, u: u32, v: u32) -> bool
        requires apart { AreApart self.now }
        requires within { path < count_of self.now }
        ensures { result ≡ true → IsBetweenIds self.now path u v place }
    {
        let span = self.spans[path];
        if place >= span.pieces as usize {
            return false;
        }
        let first = span.first as usize + place;
        self.all[first].id == u && self.all[first + 1].id == v
    }

    /// The place of the piece of a path between the points of two numbers, in either direction.
    #[inline]
    pub fn find(&self, path: usize, u: u32, v: u32) -> Option<usize>
        requires apart { AreApart self.now }
        requires within { path < count_of self.now }
        ensures { MatchOption result ((k : ℕ) → IsBetweenIds self.now path u v k → ⊥)
            (λ k. IsBetweenIds self.now path u v k) }
    {
        let first = self.spans[path].first as usize;
        for place in 0..self.spans[path].pieces as usize {
            let i = self.all[first + place].id;
            let j = self.all[first + place + 1].id;
            if i == u && j == v || i == v && j == u {
                return Some(place);
            }
        }
        None
    }

    /// Inserts a stop after the one at a place of a path.
    #[inline]
    pub fn insert(&mut self, path: usize, place: usize, stop: Stop) -> Result<(), AllocError>
        requires apart { AreApart self.old }
        requires within { path < count_of self.old }
        requires place { place < pieces_of self.old path }
        ensures apart { OnOk result (AreApart self.new) }
        ensures inserted { OnOk result (IsInserted self.old self.new path place stop) }
    {
        let span = self.spans[path];
        if span.room <= span.pieces + 1 {
            self.move_to_end(path)?;
        }
        self.put(path, place, stop);
        Ok(())
    }

    /// The same where there is room.
    #[inline]
    fn put(&mut self, path: usize, place: usize, stop: Stop)
        requires apart { AreApart self.old }
        requires within { path < count_of self.old }
        requires place { place < pieces_of self.old path }
        requires room { pieces_of self.old path + 1 < (span_of self.old path).room }
        ensures apart { AreApart self.new }
        ensures inserted { IsInserted self.old self.new path place stop }
    {
        let span = self.spans[path];
        let first = span.first as usize;
        let after = first + place + 1;
        self.spans[path].pieces = span.pieces + 1;
        self.all
            .copy_within(after..first + span.pieces as usize + 1, after + 1);
        self.all[after] = stop;
    }

    /// Gives a path twice the room, behind all others.
    #[cold]
    fn move_to_end(&mut self, path: usize) -> Result<(), AllocError>
        requires apart { AreApart self.old }
        requires within { path < count_of self.old }
        ensures apart { OnOk result (AreApart self.new) }
        ensures count { OnOk result (count_of self.new ≡ count_of self.old) }
        ensures room { OnOk result (pieces_of self.new path + 1 < (span_of self.new path).room) }
        ensures kept { OnOk result ((k : ℕ) → k < count_of self.old → IsKept self.old self.new k) }
    {
        let span = self.spans[path];
        let first = self.all.len();
        let start = span.first as usize;
        let stops = span.pieces as usize + 1;
        let room = 2 * stops + 2;
        if first >= MOST_STOPS || room > MOST_STOPS {
            return Err(AllocError);
        }
        let last = self.all[start];
        self.all.extend_from_within(start..start + stops)?;
        self.all.resize(first + room, last)?;
        self.spans[path].first = first as u32;
        self.spans[path].room = room as u32;
        Ok(())
    }
}
