//! Random lists of so many edges that the plane is parted, against a plain check of what split segments are.

ghost use Rattle.std.specs.Prelude.{◌<◌, ◌^◌};

use crate::random_splits::{expect_split, push_closed};
use mesh_below::lattice::LatticeEdge;
use mesh_test_support::random::{Random, scattered};
use std::alloc::{AllocError, Global};
use std::test::Fail;

/// The plane is parted where more than 48 edges lie. These are more.
const COUNT: u32 = 90;

/// Edges of one closed list in a square of this size. In a small one, many of their ends are equal.
fn crowd(alloc: Global, random: &mut Random, size: u32) -> Result<Vec<LatticeEdge>, AllocError>
    requires least { 0 < size }
    requires most { size < 2 ^ 31 }
{
    let mut edges = Vec::new(alloc);
    push_closed(&mut edges, &scattered(alloc, random, COUNT, size)?)?;
    Ok(edges)
}

#[test]
fn crowds(rt: HostRuntime) -> Result<(), Fail> {
    let mut random = Random::new(31);
    for round in 0u32..12 {
        let edges = crowd(rt.alloc(), &mut random, round % 4 * 4 + 4)?;
        expect_split(rt.alloc(), &edges, true)?;
    }
    Ok(())
}

/// All points have one `x`, or one `y`, so the plane is parted along one axis alone.
#[test]
fn one_column_and_one_row(rt: HostRuntime) -> Result<(), Fail> {
    let mut random = Random::new(32);
    for round in 0u32..12 {
        let mut spots = Vec::new(rt.alloc());
        for (x, y) in &scattered(rt.alloc(), &mut random, COUNT, 14)? {
            spots.push(if round % 2 == 0 { (5, *y) } else { (*x, 5) })?;
        }
        let mut edges = Vec::new(rt.alloc());
        push_closed(&mut edges, &spots)?;
        expect_split(rt.alloc(), &edges, false)?;
    }
    Ok(())
}

/// A few edges reach far past the crowd at whose ends the plane is parted.
#[test]
fn past_all_cuts(rt: HostRuntime) -> Result<(), Fail> {
    let mut random = Random::new(33);
    for _ in 0..12 {
        let mut edges = crowd(rt.alloc(), &mut random, 4)?;
        push_closed(
            &mut edges,
            &[(-8, -7), (16, 3), (15, 16), (-5, 1), (7, -8), (-8, 14)],
        )?;
        expect_split(rt.alloc(), &edges, true)?;
    }
    Ok(())
}

/// A long strip upwards to the right.
fn strip(random: &mut Random) -> [(i32, i32); 4] {
    let low = random.below(90) as i32 - 60;
    let width = random.below(3) as i32 + 1;
    [
        (-30, low),
        (30, low + 30),
        (30, low + 30 + width),
        (-30, low + width),
    ]
}

/// The box of each strip meets those of most others, so the plane is parted along the strips.
#[test]
fn strips_side_by_side(rt: HostRuntime) -> Result<(), Fail> {
    let mut random = Random::new(34);
    for _ in 0..8 {
        let mut edges = Vec::new(rt.alloc());
        for _ in 0..24 {
            push_closed(&mut edges, &strip(&mut random))?;
        }
        expect_split(rt.alloc(), &edges, true)?;
    }
    Ok(())
}

/// Long edges that cross each other in the middle, in all directions, so the plane is parted along many of them.
#[test]
fn spikes_all_round(rt: HostRuntime) -> Result<(), Fail> {
    let mut random = Random::new(35);
    for _ in 0..4 {
        let mut spots = Vec::new(rt.alloc());
        for _ in 0..30 {
            let (x, y) = random.point(3);
            spots.push((x.wrapping_add(6), y.wrapping_add(6)))?;
            let (x, y) = random.point(60);
            spots.push((x.wrapping_sub(22), y.wrapping_sub(22)))?;
        }
        let mut edges = Vec::new(rt.alloc());
        push_closed(&mut edges, &spots)?;
        expect_split(rt.alloc(), &edges, true)?;
    }
    Ok(())
}
