//! The windings at a few points as sums of crossings.

ghost use Rattle.std.specs.Prelude.{◌≡◌, List, IfOk};
ghost use Rattle.mesh_plane.specs.Winding.{sum_of, refined};
ghost use Rattle.mesh_lattice.specs.Counted.{Counted, size, IsRoomy};
ghost use Rattle.mesh_boundary.specs.Private.CountedSides.{counted_winding};
ghost use Rattle.mesh_boundary.specs.Private.Sums.{MayHaveRows};

use crate::winding::winding;
use mesh_lattice::fine::doubled;
use mesh_lattice::lattice::{CountedSegment, LatticePoint};
use mesh_lattice::rows::Rows;
use std::alloc::{AllocError, Global};

/// For so many points all segments are gone through, which is quicker than to list them.
const FEW: usize = 16;

/// How many sums were asked for, and the rows of the segments, once there are many.
#[derive(Drop)]
pub struct Sums {
    asked: usize,
    rows: Option<Rows<i128>>,
}

impl Sums {
    /// None was asked for.
    pub fn new() -> Sums
        ensures { (ks : List Counted) → MayHaveRows result.rows ks }
    {
        Sums {
            asked: 0,
            rows: None,
        }
    }

    /// How often segments wind round a point. They are to be the same each time.
    pub fn winding(
        &mut self,
        alloc: Global,
        segments: &[CountedSegment],
        p: LatticePoint,
    ) -> Result<i128, AllocError>
        requires room { IsRoomy (sum_of size segments.now) }
        requires rows { MayHaveRows self.old.rows segments.now }
        ensures value { IfOk result (λ w. w ≡ counted_winding (refined 2 p) segments.now) }
        ensures rows { MayHaveRows self.new.rows segments.now }
    {
        let q = doubled(p);
        if self.asked < FEW {
            self.asked = self.asked.saturating_add(1);
            return Ok(winding(segments, q));
        }
        if let Some(rows) = &self.rows {
            return Ok(winding(rows.row(q), q));
        }
        let rows = Rows::new(alloc, segments)?;
        let sum = winding(rows.row(q), q);
        self.rows = Some(rows);
        Ok(sum)
    }
}
