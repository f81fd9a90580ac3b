//! The ends of open paths.

use mesh_num::num::{IntNumber, IntPoint, UnitIntVector};
use std::marker::Model;

/// The end of an open path, the points to its right and to its left, the direction in which the path ends there, the
/// opposite one, and how far both points are away. Contracts see the half turn round it.
#[derive(Drop)]
pub struct PathEnd<I: IntNumber> {
    /// Where the path ends, in grid units.
    pub center: IntPoint<I>,
    /// Where the cap begins: to the right of the end, seen along the path, in grid units.
    pub right: IntPoint<I>,
    /// Where the cap ends: to the left of the end, in grid units.
    pub left: IntPoint<I>,
    /// The direction out of the path, in which it ends.
    pub outward: UnitIntVector<I>,
    /// The direction back into the path.
    pub inward: UnitIntVector<I>,
    /// Half the width of the stroke, in grid units: how far both points are away from the end.
    pub radius: I,
}

impl<I: IntNumber> Model for PathEnd<I> {
    ghost use Rattle.mesh_join.specs.Joints.{Joint, joint};
    ghost use Rattle.mesh_join.specs.Joints.{HaveLength};
    ghost use Rattle.mesh_arc.specs.declared.arc.ArcDirection.TheVariants.{Counterclockwise};

    ghost Value = { Joint };

    ghost view = { λ e. joint e.center e.right e.left e.outward e.inward (I.value e.radius) Counterclockwise };

    ghost invariant = { λ e. HaveLength I.unit e.outward e.inward };
}
