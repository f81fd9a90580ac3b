//! Orders of segments in which near ones follow each other, mostly: that in which they stand, as those of contours often
//! do, and that along a curve that fills the plane, Hilbert's. Nothing is promised of them.

ghost use Rattle.std.specs.Prelude.{◌<◌};

use crate::tuning::{FAR, SEGMENTS_A_JUMP};
use mesh_lattice::lattice::{LatticeEdge, LatticePoint};

/// For each bit of two coordinates, how the curve runs in the square that it stands for: two bits that follow from those
/// above it, of what is turned and of what is mirrored, and how these go on.
#[derive(Copy, Clone)]
struct Turns {
    a: u32,
    b: u32,
    c: u32,
    d: u32,
}

impl Turns {
    /// Those of each bit by itself.
    fn of(x: u32, y: u32) -> Self {
        let a = x ^ y;
        let b = !a;
        let c = !(x | y);
        let d = x & !y;
        Turns {
            a: a | (b >> 1),
            b: (a >> 1) ^ a,
            c: ((c >> 1) ^ (b & (d >> 1))) ^ c,
            d: ((a & (c >> 1)) ^ (d >> 1)) ^ d,
        }
    }

    /// Those of twice as many bits at once: each with those so far above it.
    fn doubled(self, bits: u32) -> Self
        requires { bits < 32 }
    {
        let Turns { a, b, c, d } = self;
        Turns {
            a: (a & (a >> bits)) ^ (b & (b >> bits)),
            b: (a & (b >> bits)) ^ (b & ((a ^ b) >> bits)),
            c: c ^ (a & (c >> bits)) ^ (b & (d >> bits)),
            d: d ^ (b & (c >> bits)) ^ ((a ^ b) & (d >> bits)),
        }
    }
}

/// The bits of a number, with a 0 before each.
fn spread(n: u32) -> u64 {
    let n = n as u64;
    let n = (n | (n << 16)) & 0x0000_FFFF_0000_FFFF;
    let n = (n | (n << 8)) & 0x00FF_00FF_00FF_00FF;
    let n = (n | (n << 4)) & 0x0F0F_0F0F_0F0F_0F0F;
    let n = (n | (n << 2)) & 0x3333_3333_3333_3333;
    (n | (n << 1)) & 0x5555_5555_5555_5555
}

/// The place of a point on the curve. All bits are found in five steps, by prefix sums of the turns.
fn place_of(x: u32, y: u32) -> u64 {
    let turns = Turns::of(x, y).doubled(2).doubled(4).doubled(8).doubled(16);
    let turned = turns.c ^ (turns.c >> 1);
    let mirrored = turns.d ^ (turns.d >> 1);
    let low = x ^ y;
    let high = mirrored | !(low | turned);
    (spread(high) << 1) | spread(low)
}

/// The middle of two coordinates, from 0 on.
fn middle(a: i32, b: i32) -> u32 {
    let sum = a as i64 + b as i64;
    (sum / 2 + 0x8000_0000) as u32
}

/// The place of a segment's middle on the curve.
pub fn place(e: LatticeEdge) -> u64 {
    place_of(middle(e.0.0, e.1.0), middle(e.0.1, e.1.1))
}

/// The sum of the differences of two points in `x` and in `y`.
fn steps(p: LatticePoint, q: LatticePoint) -> u64 {
    let x = (p.0 as i64 - q.0 as i64).unsigned_abs();
    x.saturating_add((p.1 as i64 - q.1 as i64).unsigned_abs())
}

/// Whether a segment is far from another one.
fn is_far(e: LatticeEdge, f: LatticeEdge) -> bool {
    let length = steps(e.0, e.1).saturating_add(steps(f.0, f.1));
    length.saturating_mul(FAR) < steps(e.0, f.0)
}

/// Whether few segments are far from the one before, as where contours go on and on. Any two contours may be held against
/// each other where they stand in no order, so where there are many, segments don't follow each other.
pub fn follow_each_other(edges: &[LatticeEdge]) -> bool {
    let Some((first, others)) = edges.split_first() else {
        return true;
    };
    let mut jumps: usize = 0;
    let mut before = *first;
    for e in others {
        if is_far(before, *e) {
            jumps = jumps.saturating_add(1);
        }
        before = *e;
    }
    jumps.saturating_mul(jumps.max(SEGMENTS_A_JUMP)) < edges.len()
}
