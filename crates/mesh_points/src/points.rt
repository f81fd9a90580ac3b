//! Points with numbers, from 0 on in the order in which they came. A table of lists by hash finds the number of a point.

ghost use Rattle.std.specs.Prelude.{◌≡◌, ℕ, ◌<◌, ◌≤◌, ◌^◌, false, true, [], length, slice_index_or};
ghost use Rattle.std.specs.Prelude.{IfOk, OnErr};
ghost use Rattle.mesh_points.specs.Points.{point_at, AreDistinct, IsNewPoint, IsNumberOf};
ghost use Rattle.mesh_points.specs.Chains.{AreChained};
ghost use Rattle.mesh_points.specs.Private.Filed.{before_in, list_in, list_of, points_in, shifted};

use mesh_lattice::exact::same_point;
use mesh_lattice::lattice::LatticePoint;
use std::alloc::{AllocError, Global};
use std::marker::Model;

/// 2^64 over the golden ratio, whose multiples are spread evenly.
const SPREAD_X: u64 = 0x9E37_79B9_7F4A_7C15;

/// Another odd number of 64 bits.
const SPREAD_Y: u64 = 0xBF58_476D_1CE4_E5B9;

/// The fewest lists of a table, and the most.
const FEWEST_LISTS: usize = 16;

const MOST_LISTS: usize = 1 << 31;

/// A point, and how many points are to be looked through where another one is sought: the last of them is the one that
/// came before it in its list.
#[derive(Copy, Clone)]
pub struct Entry {
    pub at: LatticePoint,
    pub before: u32,
}

/// Points with numbers, none of them twice. At most 2^32 - 1: more are refused as memory is.
#[derive(Drop)]
pub struct Points {
    /// For each list one more than the number of its last point, or 0.
    last: Vec<u32>,
    entries: Vec<Entry>,
}

impl Model for Points {
    ghost use Rattle.std.specs.Prelude.{List, ℤ};
    ghost use Rattle.mesh_points.specs.Private.Filed.{AreFiled, points_in};

    ghost Value = { List (ℤ × ℤ) };

    ghost view = { λ p. points_in p.entries.items };

    ghost invariant = { λ p. AreFiled p.last.items p.entries.items };
}

/// The number of a point, and whether the point is new.
#[derive(Copy, Clone)]
pub struct Numbered {
    pub number: u32,
    pub is_new: bool,
}

/// A coordinate, counted from the least on.
fn shifted(coordinate: i32) -> u64
    ensures { result ≡ shifted coordinate }
{
    coordinate.abs_diff(i32::MIN) as u64
}

/// The list of a point among so many.
fn list_of(p: LatticePoint, lists: usize) -> usize
    requires some { 0 < lists }
    requires few { lists ≤ 2 ^ 31 }
    ensures value { result ≡ list_of p lists }
    ensures within { result < lists }
{
    let x = shifted(p.0).wrapping_mul(SPREAD_X);
    let y = shifted(p.1).wrapping_mul(SPREAD_Y);
    let hash = x.wrapping_add(y) >> 32;
    ((hash * lists as u64) >> 32) as usize
}

/// How many lists serve for so many points.
fn lists_for(points: usize) -> usize
    ensures some { 0 < result }
    ensures few { result ≤ 2 ^ 31 }
{
    points.saturating_mul(2).clamp(FEWEST_LISTS, MOST_LISTS)
}

/// Files all points anew, in lists that are empty.
fn file_all(entries: &mut [Entry], last: &mut [u32])
    requires fit { length entries.old < 2 ^ 32 }
    requires some { 0 < length last.old }
    requires few { length last.old ≤ 2 ^ 31 }
    requires empty { (i : ℕ) → i < length last.old → slice_index_or last.old i 0 ≡ 0 }
    ensures same { points_in entries.new ≡ points_in entries.old }
    ensures chained { AreChained last.new (length entries.new) (before_in entries.new)
        (list_in entries.new (length last.new)) }
{
    let lists = last.len();
    for k in 0..entries.len() {
        let list = list_of(entries[k].at, lists);
        entries[k].before = last[list];
        last[list] = k as u32 + 1;
    }
}

impl Points {
    /// No point, and room for about so many.
    pub fn with_capacity(alloc: Global, room: usize) -> Result<Points, AllocError>
        ensures { IfOk result (λ p. p ≡ []) }
    {
        Ok(Points {
            last: vec![in alloc; 0; lists_for(room)]?,
            entries: Vec::with_capacity(alloc, room)?,
        })
    }

    /// How many points there are.
    #[inline]
    pub fn len(&self) -> usize
        ensures value { result ≡ length self.now }
        ensures few { result < 2 ^ 32 }
    {
        self.entries.len()
    }

    /// The point of a number.
    #[inline]
    pub fn point(&self, number: u32) -> LatticePoint
        requires { number < length self.now }
        ensures { result ≡ point_at self.now number }
    {
        self.entries[number as usize].at
    }

    /// The number of a point, which it gets if it has none.
    #[inline]
    pub fn number(&mut self, p: LatticePoint) -> Result<Numbered, AllocError>
        ensures number { IfOk result (λ n. IsNumberOf self.new p n.number) }
        ensures old { IfOk result (λ n. n.is_new ≡ false → self.new ≡ self.old) }
        ensures new { IfOk result (λ n. n.is_new ≡ true → IsNewPoint self.old self.new p) }
        ensures distinct { AreDistinct self.new }
        ensures err { OnErr result (self.new ≡ self.old) }
    {
        let list = list_of(p, self.last.len());
        let before = self.last[list];
        let mut left = before;
        while left > 0 {
            let number = left - 1;
            let entry = self.entries[number as usize];
            if same_point(entry.at, p) {
                return Ok(Numbered {
                    number,
                    is_new: false,
                });
            }
            left = entry.before;
        }
        let count = self.entries.len();
        if count >= u32::MAX as usize {
            return Err(AllocError);
        }
        self.entries.push(Entry { at: p, before })?;
        self.last[list] = count as u32 + 1;
        Ok(Numbered {
            number: count as u32,
            is_new: true,
        })
    }

    /// Makes room for about so many points more.
    pub fn reserve(&mut self, alloc: Global, more: usize) -> Result<(), AllocError>
        ensures { self.new ≡ self.old }
    {
        let lists = lists_for(self.entries.len().saturating_add(more));
        if lists <= self.last.len() {
            return Ok(());
        }
        self.entries.reserve(more)?;
        let mut last = vec![in alloc; 0; lists]?;
        file_all(&mut self.entries, &mut last);
        self.last = last;
        Ok(())
    }
}
