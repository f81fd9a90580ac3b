//! How near splits lie to the edges that they were made of.

ghost use Rattle.std.specs.Prelude.{◌≡◌, ℕ, ◌<◌, ◌≤◌, ◌^◌, List, IfOk};
ghost use Rattle.mesh_plane.specs.Plane.{Edge};
ghost use Rattle.mesh_lattice.specs.Nearness.{IsNearTo, IsNearness};
ghost use Rattle.mesh_lattice.specs.Split.{IsInBox, IsLegal};
ghost use Rattle.mesh_store.specs.Steps.{extent};

use crate::split_log::SplitLog;
use crate::witnesses::Witnesses;
use mesh_lattice::exact::{minus, turn};
use mesh_lattice::lattice::{LatticeEdge, LatticePoint};
use std::alloc::{AllocError, Global};

/// The sum of an edge's differences in `x` and in `y`.
fn extent(e: LatticeEdge) -> u128
    ensures value { result ≡ extent e }
    ensures size { result < 2 ^ 34 }
{
    let way = minus(e.1, e.0);
    way.0.unsigned_abs() + way.1.unsigned_abs()
}

/// How far a point in the box of an edge lies from it, in 64ths of a grid unit, rounded up. Distance is the greater of
/// both coordinates' differences.
pub fn distance(e: LatticeEdge, c: LatticePoint) -> u64
    ensures near { IsInBox e c → IsNearTo result 1 e c }
    ensures least { (l : ℕ) → l < result → IsNearTo l 1 e c → ⊥ }
    ensures small { result ≤ 2 ^ 38 }
{
    let beside = turn(e.0, e.1, c).unsigned_abs();
    (beside * 64).div_ceil(extent(e).max(1)) as u64
}

/// Whether a point in the box of an edge lies farther from it than so many grid units.
pub fn is_farther(e: LatticeEdge, c: LatticePoint, most: u64) -> bool {
    let area = (extent(e) as u64).saturating_mul(most);
    (area as u128) < turn(e.0, e.1, c).unsigned_abs()
}

/// The greatest distance of a split point from the given edge that its segment comes from, in 64ths of a grid unit,
/// rounded up: at most 2^38, since coordinates differ by less than 2^32.
pub fn nearness(alloc: Global, log: &SplitLog) -> Result<u64, AllocError>
    ensures near { IfOk result (λ k. (given : List Edge) → IsLegal given log.now → IsNearness given log.now k) }
    ensures small { IfOk result (λ k. k ≤ 2 ^ 38) }
{
    let mut witnesses = Witnesses::new(alloc);
    let mut most: u64 = 0;
    for (ends, at) in log.splits() {
        let witness = witnesses.of(*ends);
        most = most.max(distance(witness, *at));
        witnesses.note((ends.0, *at), witness)?;
        witnesses.note((*at, ends.1), witness)?;
    }
    Ok(most)
}
