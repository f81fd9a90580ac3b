//! Which segments of noted edges are split first: the meetings that were noted, the best one at the next. Nothing is
//! promised of them. A hint is tested again when it is taken, so neither what it says nor the order decides whether a
//! split is legal.

use crate::leash::Leash;
use mesh_lattice::lattice::LatticeEdge;
use mesh_store::tree::Meeting;
use std::alloc::{AllocError, Global};
use std::collections::BinaryHeap;

/// Two segments that met when the latter was noted. The greatest hint is taken first.
#[derive(Copy, Clone, PartialEq, Eq, PartialOrd, Ord)]
struct Hint {
    priority: u64,
    serial: usize,
    first: LatticeEdge,
    second: LatticeEdge,
}

/// The hints that were noted and not yet taken.
#[derive(Drop)]
pub struct Hints {
    heap: BinaryHeap<Hint>,
    noted: usize,
}

impl Hints {
    /// No hint.
    pub fn new(alloc: Global) -> Self {
        Hints {
            heap: BinaryHeap::new(alloc),
            noted: 0,
        }
    }

    /// Notes what a segment meets.
    pub fn note(
        &mut self,
        first: LatticeEdge,
        met: &[Meeting],
        leash: &Leash,
    ) -> Result<(), AllocError> {
        for m in met {
            self.noted = self.noted.saturating_add(1);
            self.heap.push(Hint {
                priority: leash.priority(first, *m),
                serial: self.noted,
                first,
                second: m.0,
            })?;
        }
        Ok(())
    }

    /// Takes the best hint: two segments that met when it was noted.
    pub fn pop(&mut self) -> Option<(LatticeEdge, LatticeEdge)> {
        let hint = self.heap.pop()?;
        Some((hint.first, hint.second))
    }
}
