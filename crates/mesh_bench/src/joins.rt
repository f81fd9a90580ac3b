//! Round joins of half a turn, to measure them.

ghost use Rattle.std.specs.Prelude.{◌≡◌, ◌^◌, pos, IfSome};
ghost use Rattle.mesh_arc.specs.declared.arc.ArcDirection.TheVariants.{Counterclockwise};
ghost use Rattle.mesh_join.specs.Joints.{joint, contact as contact_of, IsTurn};
ghost use Rattle.mesh_join.specs.Joins.{IsJoint};

use crate::BenchError;
use mesh_join::arc::{ArcDirection, ArcOptions};
use mesh_join::join::Join;
use mesh_join::style::IntLineJoin;
use mesh_num::num::{Angle, IntPoint, IntVector, UnitIntVector};
use std::alloc::{AllocError, Global};

/// How far the joins are from the corner at 0, in grid units.
const RADIUS: i32 = 100_000_000;

/// A corner at 0: the directions before and after it, and the points beside it that a join connects.
#[derive(Drop)]
struct Corner {
    incoming: UnitIntVector<i32>,
    outgoing: UnitIntVector<i32>,
    first: IntPoint<i32>,
    last: IntPoint<i32>,
}

/// The point to the right of 0 by the radius, seen in this direction.
fn contact(direction: UnitIntVector<i32>) -> IntPoint<i32>
    ensures { result ≡ contact_of (2 ^ 30) (pos 100000000) Counterclockwise (pos 0, pos 0) direction }
{
    let along = direction.scale(RADIUS);
    IntPoint::new(along.y as i32, -along.x as i32)
}

impl Corner {
    /// The corner at which an edge to the east turns back.
    fn of_half_turn() -> Option<Corner>
        ensures { IfSome result (λ c. IsTurn (2 ^ 30)
            (joint (pos 0, pos 0) c.first c.last c.incoming c.outgoing (pos 100000000) Counterclockwise)) }
    {
        let incoming = IntVector::<i32>::new(1, 0).fast_normalize()?;
        let outgoing = IntVector::<i32>::new(-1, 0).fast_normalize()?;
        Some(Corner {
            incoming,
            outgoing,
            first: contact(incoming),
            last: contact(outgoing),
        })
    }
}

/// Adds the join of a corner so often, each time to an empty list, and counts the edges.
fn add_again(
    alloc: Global,
    join: &mut Join<i32>,
    corner: &Corner,
    count: u64,
) -> Result<u64, AllocError>
    requires { IsJoint (2 ^ 30) join.old (joint (pos 0, pos 0)
        corner.now.first corner.now.last corner.now.incoming corner.now.outgoing (pos 100000000) Counterclockwise) }
{
    let mut segments = Vec::new(alloc);
    let mut edges = 0u64;
    for _ in 0..count {
        segments.clear();
        join.add(
            IntPoint::new(0, 0),
            corner.first,
            corner.last,
            corner.incoming,
            corner.outgoing,
            RADIUS,
            ArcDirection::Counterclockwise,
            &mut segments,
        )?;
        edges = edges.wrapping_add(segments.len() as u64);
    }
    Ok(edges)
}

/// Adds so many joins of half a turn, with arcs of about so many directions, of which there are from 4 to 512.
pub(crate) fn add_joins(rt: &HostRuntime, count: u64, directions: u32) -> Result<(), BenchError> {
    let max_step = Angle::from_bits((1 << 31) / directions.max(1));
    let kind = IntLineJoin::Round(ArcOptions {
        max_step,
        rotation_precision: 32,
    });
    let mut join = Join::new(rt.alloc(), kind, Angle::from_bits(0));
    let Some(corner) = Corner::of_half_turn() else {
        return Ok(());
    };
    let edges = add_again(rt.alloc(), &mut join, &corner, count)?;
    println!(rt; "{count} joins give {edges} edges")?;
    Ok(())
}
