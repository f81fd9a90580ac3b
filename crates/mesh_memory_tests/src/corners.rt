//! Arcs and joins for which memory is refused.

ghost use Rattle.std.specs.Prelude.{◌≡◌, ◌^◌, pos, IfOk, IfSome};
ghost use Rattle.mesh_num.specs.Direction.{IsFresh};
ghost use Rattle.mesh_arc.specs.declared.arc.ArcDirection.TheVariants.{Counterclockwise};
ghost use Rattle.mesh_join.specs.Joints.{joint, contact as contact_of, IsTurn};
ghost use Rattle.mesh_join.specs.Joins.{IsJoint};

use mesh_join::arc::{ArcBuilder, ArcDirection, ArcOptions};
use mesh_join::join::Join;
use mesh_join::style::IntLineJoin;
use mesh_num::num::{Angle, IntPoint, IntVector, UnitIntVector};
use mesh_num::shape::segment::Segment;
use mesh_test_support::compared::{expect_equal, expect_that};
use mesh_test_support::marks;
use mesh_test_support::refused::{expect_added, one_segment};
use std::alloc::AllocError;
use std::test::Fail;

/// Steps of so many bits, with this precision.
fn steps(bits: u32, rotation_precision: u32) -> ArcOptions {
    ArcOptions {
        max_step: Angle::from_bits(bits),
        rotation_precision,
    }
}

/// Steps of 2^22 bits with the least precision, of which a quarter of a turn has more than 200.
fn fine() -> ArcOptions {
    steps(4_194_304, 4)
}

/// How far the join is from the corner at 0, in grid units.
const RADIUS: i32 = 100_000;

/// A corner at 0: the directions before and after it, and the points beside it that a join connects.
#[derive(Drop)]
struct Corner {
    incoming: UnitIntVector<i32>,
    outgoing: UnitIntVector<i32>,
    first: IntPoint<i32>,
    last: IntPoint<i32>,
}

/// The point to the right of 0 by the radius, seen in this direction.
fn contact(direction: UnitIntVector<i32>) -> IntPoint<i32>
    ensures { result ≡ contact_of (2 ^ 30) (pos 100000) Counterclockwise (pos 0, pos 0) direction }
{
    let along = direction.scale(RADIUS);
    IntPoint::new(along.y as i32, -along.x as i32)
}

impl Corner {
    /// The corner at which an edge to the east turns to the north.
    fn of_quarter_turn() -> Option<Corner>
        ensures { IfSome result (λ c. IsTurn (2 ^ 30)
            (joint (pos 0, pos 0) c.first c.last c.incoming c.outgoing (pos 100000) Counterclockwise)) }
    {
        let incoming = IntVector::<i32>::new(1, 0).fast_normalize()?;
        let outgoing = IntVector::<i32>::new(0, 1).fast_normalize()?;
        Some(Corner {
            incoming,
            outgoing,
            first: contact(incoming),
            last: contact(outgoing),
        })
    }

    /// Adds the join at this corner.
    fn add(&self, join: &mut Join<i32>, segments: &mut Vec<Segment<i32>>) -> Result<(), AllocError>
        requires { IsJoint (2 ^ 30) join.old (joint (pos 0, pos 0)
            self.now.first self.now.last self.now.incoming self.now.outgoing (pos 100000) Counterclockwise) }
        ensures { join.new ≡ join.old }
    {
        join.add(
            IntPoint::new(0, 0),
            self.first,
            self.last,
            self.incoming,
            self.outgoing,
            RADIUS,
            ArcDirection::Counterclockwise,
            segments,
        )
    }
}

/// After a refusal there are no directions, and the next call builds all.
#[test]
fn arc(rt: HostRuntime) -> Result<(), Fail> {
    let corner = Corner::of_quarter_turn().ok_or("a corner")?;
    let (from, to, sense) = (
        corner.incoming,
        corner.outgoing,
        ArcDirection::Counterclockwise,
    );
    let mut other = ArcBuilder::<i32>::new(rt.alloc(), fine());
    let wanted = other.build(from, to, sense)?.len();
    expect_that(wanted > 200, &wanted)?;
    let mut arc = ArcBuilder::<i32>::new(rt.alloc(), fine());
    marks::begin(rt.alloc())?;
    let is_built = arc.build(from, to, sense).is_ok();
    marks::end(rt.alloc())?;
    let kept = if is_built { wanted } else { 0 };
    expect_equal(&arc.directions().len(), &kept, &"an arc")?;
    let again = arc.build(from, to, sense)?.len();
    expect_equal(&again, &wanted, &"the next arc")
}

/// After a refusal the vector has what it had, and the next call adds all.
#[test]
fn join(rt: HostRuntime) -> Result<(), Fail> {
    let corner = Corner::of_quarter_turn().ok_or("a corner")?;
    let kind = IntLineJoin::Round(fine());
    let (mut wanted, mut segments) = (one_segment(rt.alloc())?, one_segment(rt.alloc())?);
    let mut other = Join::new(rt.alloc(), kind, Angle::from_bits(0));
    corner.add(&mut other, &mut wanted)?;
    let mut join = Join::new(rt.alloc(), kind, Angle::from_bits(0));
    marks::begin(rt.alloc())?;
    let first = corner.add(&mut join, &mut segments);
    marks::end(rt.alloc())?;
    expect_added(first.is_ok(), &segments, &wanted)?;
    segments.truncate(1);
    corner.add(&mut join, &mut segments)?;
    expect_added(true, &segments, &wanted)
}
