//! Rectangles, and eight of them side by side, which are compared at once.

ghost use Rattle.std.specs.Prelude.{◌≡◌, ◌↔◌, ℕ, ◌<◌, ◌^◌, ◌≤ℤ◌, IsTrue, false};
ghost use Rattle.mesh_plane.specs.Plane.{Point};
ghost use Rattle.mesh_lattice.specs.Split.{IsInBox};
ghost use Rattle.mesh_pairs.specs.Boxes.{lane, Covers, DoMeet, Holds, IsIn};

use mesh_lattice::lattice::LatticePoint;

/// How many rectangles stand side by side.
pub const LANES: usize = 8;

/// A rectangle along the axes, with its borders.
#[derive(Copy, Clone)]
pub struct Bounds {
    pub west: i32,
    pub east: i32,
    pub south: i32,
    pub north: i32,
}

/// The rectangle that holds nothing.
pub const NONE: Bounds = Bounds {
    west: i32::MAX,
    east: i32::MIN,
    south: i32::MAX,
    north: i32::MIN,
};

/// Eight rectangles, side by side so that one loop without branches compares them all.
#[derive(Copy, Clone)]
pub struct EightBounds {
    west: [i32; LANES],
    east: [i32; LANES],
    south: [i32; LANES],
    north: [i32; LANES],
}

fn is_in_range(low: i32, z: i32, high: i32) -> bool
    ensures { IsTrue result ↔ (low ≤ℤ z) × (z ≤ℤ high) }
{
    if z < low {
        return false;
    }
    z <= high
}

impl Bounds {
    /// The least rectangle that holds two points: the box of an edge between them.
    #[inline]
    pub fn of(a: LatticePoint, b: LatticePoint) -> Bounds
        ensures { (p : Point) → Holds result p ↔ IsInBox (a, b) p }
    {
        Bounds {
            west: a.0.min(b.0),
            east: a.0.max(b.0),
            south: a.1.min(b.1),
            north: a.1.max(b.1),
        }
    }

    /// Whether a point lies in it.
    #[inline]
    pub fn holds(self, p: LatticePoint) -> bool
        ensures { IsTrue result ↔ Holds self p }
    {
        if !is_in_range(self.west, p.0, self.east) {
            return false;
        }
        is_in_range(self.south, p.1, self.north)
    }

    /// Whether no point lies in both.
    #[inline]
    pub fn are_apart(self, other: Bounds) -> bool
        ensures { result ≡ false ↔ DoMeet self other }
    {
        (self.west > other.east)
            | (other.west > self.east)
            | (self.south > other.north)
            | (other.south > self.north)
    }

    /// The least rectangle that holds all of both.
    #[inline]
    pub fn with(self, other: Bounds) -> Bounds
        ensures first { Covers result self }
        ensures second { Covers result other }
        ensures least { (c : Bounds) → Covers c self → Covers c other → Covers c result }
    {
        Bounds {
            west: self.west.min(other.west),
            east: self.east.max(other.east),
            south: self.south.min(other.south),
            north: self.north.max(other.north),
        }
    }
}

impl EightBounds {
    /// Eight that hold nothing.
    pub fn none() -> EightBounds
        ensures { (k : ℕ) → k < 8 → lane result k ≡ NONE }
    {
        EightBounds {
            west: [i32::MAX; LANES],
            east: [i32::MIN; LANES],
            south: [i32::MAX; LANES],
            north: [i32::MIN; LANES],
        }
    }

    /// Puts a rectangle in a place.
    #[inline]
    pub fn set(&mut self, place: usize, bounds: Bounds)
        requires { place < 8 }
        ensures put { lane self.new place ≡ bounds }
        ensures others { (k : ℕ) → (k ≡ place → ⊥) → lane self.new k ≡ lane self.old k }
    {
        self.west[place] = bounds.west;
        self.east[place] = bounds.east;
        self.south[place] = bounds.south;
        self.north[place] = bounds.north;
    }

    /// The rectangle in a place.
    #[inline]
    fn lane(&self, place: usize) -> Bounds
        requires { place < 8 }
        ensures { result ≡ lane self.now place }
    {
        Bounds {
            west: self.west[place],
            east: self.east[place],
            south: self.south[place],
            north: self.north[place],
        }
    }

    /// The places of those that have a point in common with a rectangle.
    #[inline]
    pub fn meeting(&self, bounds: Bounds) -> u32
        ensures places { (k : ℕ) → k < 8 → IsIn result k ↔ DoMeet (lane self.now k) bounds }
        ensures few { result < 2 ^ 8 }
    {
        let mut places = 0u32;
        for k in 0..LANES {
            places |= if self.lane(k).are_apart(bounds) {
                0
            } else {
                1u32 << k
            };
        }
        places
    }
}
