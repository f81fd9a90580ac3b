//! How far points lie beside the lines of edges.

ghost use Rattle.std.specs.Prelude.{◌≡◌, ◌*◌, ◌<◌, ◌≤◌, ◌^◌, IsTrue, unsigned_abs};
ghost use Rattle.mesh_plane.specs.Bounds.{IsSmall, IsSafe};
ghost use Rattle.mesh_plane.specs.Plane.{turn};
ghost use Rattle.mesh_meeting.specs.Small.{HasSmallEnds};
ghost use Rattle.mesh_pairs.specs.Laws.{spread};
ghost use Rattle.mesh_check.specs.Heights.{IsFarFromLine};

use mesh_lattice::lattice::{LatticeEdge, LatticePoint};
use mesh_meeting::vectors::{cross, minus};

/// How far a point lies beside the line of an edge, as a turn: above 0 to the left.
#[inline]
pub fn height(e: LatticeEdge, at: LatticePoint) -> i64
    requires small { HasSmallEnds e }
    requires safe { IsSafe (2 ^ 30) at }
    ensures value { result ≡ turn e.0 e.1 at }
    ensures size { IsSmall (2 ^ 63) result }
{
    cross(minus(e.1, e.0), minus(at, e.0))
}

/// The same without its sign.
#[inline]
pub fn beside(e: LatticeEdge, at: LatticePoint) -> u64
    requires small { HasSmallEnds e }
    requires safe { IsSafe (2 ^ 30) at }
    ensures value { result ≡ unsigned_abs (turn e.0 e.1 at) }
    ensures few { result < 2 ^ 63 }
{
    height(e, at).unsigned_abs()
}

/// How much a turn beside an edge grows with each unit: the sum of both coordinates' differences.
#[inline]
pub fn spread_of(e: LatticeEdge) -> u64
    requires small { HasSmallEnds e }
    ensures value { result ≡ spread e }
    ensures few { result < 2 ^ 32 }
{
    let along = minus(e.1, e.0);
    along.0.unsigned_abs() + along.1.unsigned_abs()
}

/// Whether a point lies more than so many units beside the line of an edge, on either side.
#[inline]
#[tactic(auto, using(crate::proofs::Sizes::far_of_size))]
pub fn is_far(e: LatticeEdge, units: u64, at: LatticePoint) -> bool
    requires small { HasSmallEnds e }
    requires safe { IsSafe (2 ^ 30) at }
    requires few { units < 2 ^ 31 }
    ensures { IsTrue result → IsFarFromLine units e at }
{
    if beside(e, at) <= units * spread_of(e) {
        return false;
    }
    true
}

/// At most how many units beside the line of an edge of this spread lies what is so far beside it, as a turn.
#[inline]
pub fn units_for(most: u64, spread: u64) -> u64
    requires some { 0 < spread }
    requires few { most < 2 ^ 63 }
    ensures { most ≤ result * spread }
{
    if most == 0 {
        return 0;
    }
    most / spread + 1
}
