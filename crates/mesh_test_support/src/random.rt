//! Numbers, points and contours that look random, the same each time.

ghost use Rattle.std.specs.Prelude.{◌<◌, ◌^◌};

use crate::lists::Spot;
use std::alloc::{AllocError, Global};

/// Numbers that a linear rule makes.
#[derive(Drop)]
pub struct Random {
    state: u64,
}

impl Random {
    /// The numbers of a seed.
    pub fn new(seed: u64) -> Self {
        Random { state: seed }
    }

    /// A number below `end`.
    pub fn below(&mut self, end: u32) -> u32
        requires { 0 < end }
        ensures { result < end }
    {
        self.state = self
            .state
            .wrapping_mul(6364136223846793005)
            .wrapping_add(1442695040888963407);
        (self.state >> 33) as u32 % end
    }

    /// -1, 0 or 1.
    pub fn sign(&mut self) -> i32 {
        self.below(3) as i32 - 1
    }

    /// A point with both coordinates below `end`, and none below 0.
    pub fn point(&mut self, end: u32) -> Spot
        requires least { 0 < end }
        requires most { end < 2 ^ 31 }
    {
        (self.below(end) as i32, self.below(end) as i32)
    }
}

/// The point twice as far from 0.
fn doubled(spot: Spot) -> Spot {
    (spot.0.wrapping_mul(2), spot.1.wrapping_mul(2))
}

/// Points with both coordinates below `end`, and none below 0.
pub fn scattered(
    alloc: Global,
    random: &mut Random,
    count: u32,
    end: u32,
) -> Result<Vec<Spot>, AllocError>
    requires least { 0 < end }
    requires most { end < 2 ^ 31 }
{
    let mut spots = Vec::new(alloc);
    for _ in 0..count {
        spots.push(random.point(end))?;
    }
    Ok(spots)
}

/// The end of a step that is level, upright or along a diagonal.
fn stepped(random: &mut Random, from: Spot) -> Spot {
    let length = random.below(4) as i32 + 1;
    let x = random.sign().wrapping_mul(length).wrapping_add(from.0);
    let y = random.sign().wrapping_mul(length).wrapping_add(from.1);
    (x, y)
}

fn is_on_board(spot: Spot) -> bool {
    0 <= spot.0 && spot.0 <= 8 && 0 <= spot.1 && spot.1 <= 8
}

/// A closed list whose edges are level, upright or along diagonals, with even coordinates: the lines of any two of the
/// edges cross in whole points alone.
pub fn slanted(alloc: Global, random: &mut Random, steps: u32) -> Result<Vec<Spot>, AllocError> {
    let mut spots = Vec::new(alloc);
    let first = random.point(9);
    let mut at = first;
    for _ in 0..steps {
        let next = stepped(random, at);
        if is_on_board(next) {
            at = next;
            spots.push(doubled(at))?;
        }
    }
    spots.push(doubled((first.0, at.1)))?;
    spots.push(doubled(first))?;
    Ok(spots)
}

/// Edges as those of `slanted`, that need not close up.
pub fn slanted_edges(
    alloc: Global,
    random: &mut Random,
    count: u32,
) -> Result<Vec<(Spot, Spot)>, AllocError> {
    let mut edges = Vec::new(alloc);
    for _ in 0..count {
        let start = random.point(5);
        let end = stepped(random, start);
        if start != end {
            edges.push((doubled(start), doubled(end)))?;
        }
    }
    Ok(edges)
}
