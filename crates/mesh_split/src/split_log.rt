//! The splits that were made, in their order.

ghost use Rattle.std.specs.Prelude.{◌≡◌, [], ◌∷◌, OnOk, length};
ghost use Rattle.mesh_store.specs.Steps.{latest_first, split_at};

use mesh_lattice::lattice::{LatticeEdge, LatticePoint};
use std::alloc::{AllocError, Global};
use std::marker::Model;

/// The splits of an attempt. Contracts see the list of them, the latest first.
#[derive(Drop)]
pub struct SplitLog {
    splits: Vec<(LatticeEdge, LatticePoint)>,
}

impl Model for SplitLog {
    ghost use Rattle.std.specs.Prelude.{List};
    ghost use Rattle.mesh_lattice.specs.Split.{EdgeSplit};
    ghost use Rattle.mesh_store.specs.Steps.{latest_first};

    ghost Value = { List EdgeSplit };

    ghost view = { λ l. latest_first l.splits.items };
}

impl SplitLog {
    /// No split.
    pub fn new(alloc: Global) -> Self
        ensures { result ≡ [] }
    {
        SplitLog {
            splits: Vec::new(alloc),
        }
    }

    /// The ends of each segment that was split, and where, in the order in which they were split.
    pub fn splits(&self) -> &[(LatticeEdge, LatticePoint)]
        ensures { latest_first result.now ≡ self.now }
    {
        &self.splits
    }

    /// How many splits were made.
    pub fn len(&self) -> usize
        ensures { result ≡ length self.now }
    {
        self.splits.len()
    }

    /// Notes that the segment with these ends is split.
    pub fn push(&mut self, ends: LatticeEdge, at: LatticePoint) -> Result<(), AllocError>
        ensures { OnOk result (self.new ≡ split_at ends at ∷ self.old) }
    {
        self.splits.push((ends, at))?;
        Ok(())
    }
}
