//! The given edges that the pieces of edges come from.

ghost use Rattle.std.specs.Prelude.{◌≡◌, cond, [], OnOk};
ghost use Rattle.mesh_plane.specs.Plane.{Edge};
ghost use Rattle.mesh_lattice.specs.Split.{same_ends};
ghost use Rattle.mesh_store.specs.Witnesses.{forward, witness_in};

use mesh_lattice::exact::is_before;
use mesh_lattice::lattice::LatticeEdge;
use mesh_store::ends_hasher::EndsHasher;
use std::alloc::{AllocError, Global};
use std::collections::HashMap;
use std::marker::Model;

/// Pieces of edges by their ends, the lesser end first, each with its witness: the given edge that it comes from. A
/// segment that is none of them is a given edge, its own witness.
#[derive(Drop)]
pub struct Witnesses {
    by_ends: HashMap<LatticeEdge, LatticeEdge, EndsHasher>,
}

impl Model for Witnesses {
    ghost use Rattle.std.specs.Prelude.{List, ℤ};

    ghost Value = { List (((ℤ × ℤ) × (ℤ × ℤ)) × ((ℤ × ℤ) × (ℤ × ℤ))) };

    ghost view = { λ w. w.by_ends.entries };
}

/// The edge with the lesser end first.
pub fn forward(e: LatticeEdge) -> LatticeEdge
    ensures { result ≡ forward e }
{
    if is_before(e.0, e.1) { e } else { (e.1, e.0) }
}

impl Witnesses {
    /// No piece.
    pub fn new(alloc: Global) -> Self
        ensures { result ≡ [] }
    {
        Witnesses {
            by_ends: HashMap::with_hasher(alloc, EndsHasher::new()),
        }
    }

    /// The witness of a segment.
    pub fn of(&self, e: LatticeEdge) -> LatticeEdge
        ensures { result ≡ witness_in self.now e }
    {
        match self.by_ends.get(&forward(e)) {
            Some(witness) => *witness,
            None => e,
        }
    }

    /// Notes the witness of a piece, in place of what had its ends.
    pub fn note(&mut self, e: LatticeEdge, witness: LatticeEdge) -> Result<(), AllocError>
        ensures { OnOk result ((q : Edge) → witness_in self.new q ≡ cond (same_ends q e) witness (witness_in self.old q)) }
    {
        self.by_ends.insert(forward(e), witness)?;
        Ok(())
    }
}
