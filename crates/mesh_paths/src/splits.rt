//! The splits that were made, in their order.

ghost use Rattle.std.specs.Prelude.{◌≡◌, [], ◌∷◌, OnOk};
ghost use Rattle.mesh_paths.specs.Made.{latest_first, split_at};

use mesh_lattice::lattice::{LatticeEdge, LatticePoint};
use std::alloc::{AllocError, Global};
use std::marker::Model;

/// The splits that were made. Contracts see the list of them, the latest first.
#[derive(Drop)]
pub struct Splits {
    made: Vec<(LatticeEdge, LatticePoint)>,
}

impl Model for Splits {
    ghost use Rattle.std.specs.Prelude.{List};
    ghost use Rattle.mesh_lattice.specs.Split.{EdgeSplit};
    ghost use Rattle.mesh_paths.specs.Made.{latest_first};

    ghost Value = { List EdgeSplit };

    ghost view = { λ l. latest_first l.made.items };
}

impl Splits {
    /// No split.
    pub fn new(alloc: Global) -> Self
        ensures { result ≡ [] }
    {
        Splits {
            made: Vec::new(alloc),
        }
    }

    /// The ends of each segment that was split, and where, in the order in which they were split.
    pub fn made(&self) -> &[(LatticeEdge, LatticePoint)]
        ensures { latest_first result.now ≡ self.now }
    {
        &self.made
    }

    /// Notes that the segment with these ends is split.
    pub fn push(&mut self, ends: LatticeEdge, at: LatticePoint) -> Result<(), AllocError>
        ensures { OnOk result (self.new ≡ split_at ends at ∷ self.old) }
    {
        self.made.push((ends, at))?;
        Ok(())
    }
}
