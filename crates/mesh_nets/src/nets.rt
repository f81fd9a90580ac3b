//! Which nets of a board are nearer to each other than a distance.

ghost use Rattle.std.specs.Prelude.{◌+◌, ◌*◌, ◌<◌, ◌≡◌, map, length, IfOk, OnOk};
ghost use Rattle.mesh_num.specs.FlatContours.{flat_contours};
ghost use Rattle.mesh_num.specs.Paths.{contours_of, shapes_of};
ghost use Rattle.mesh_nets.specs.Nets.{AreClearances};
ghost use Rattle.mesh_nets.specs.Private.Outlines.{AreOutlines, IsOutline};
ghost use Rattle.mesh_nets.specs.Private.PairsSoFar.{AddsClearance, AreClearancesBefore};

use crate::outlines::{Outline, outlines_of};
use crate::pairs::near_separation;
use mesh_num::num::IntNumber;
use mesh_num::shape::IntShapes;
use std::alloc::{AllocError, Global};

/// Two nets that are nearer to each other than a distance.
#[derive(Debug, Copy, Clone, PartialEq, Eq)]
pub struct NetClearance {
    /// The place of the first net, counted from 0.
    pub first: usize,
    /// The place of the second net, which comes after the first.
    pub second: usize,
    /// The square of their distance, in grid units and rounded down: 0 where they touch or overlap, or where one lies
    /// within the other.
    pub squared: u128,
}

/// The pairs of nets that are nearer to each other than a distance, each once, in ascending order of its first net,
/// then of its second.
///
/// A net is a list of polygons as an overlay or an offset returned them. A point belongs to it where it lies on one of
/// its edges, or where the windings of its contours round it do not add up to 0. Every two points of two nets that are
/// not listed, on the grid or between its points, are at least the distance apart. So nets that touch or overlap are
/// listed with any distance but 0, with which nothing is listed, and so is a net that lies within another one. A net
/// without points is far from all others. Coordinates may be any value, and distances are in grid units.
///
/// The boxes of each two nets are compared: 10,000 nets take 50 million short tests. Only where the boxes are nearer
/// than the distance is a pair measured. That takes about linear time where edges are short; then each contour of one
/// net is tested against all edges of the other. No contract says so. `Err` means that memory was refused.
pub fn clearances<I: IntNumber>(
    alloc: Global,
    nets: &[IntShapes<I>],
    distance: u32,
) -> Result<Vec<NetClearance>, AllocError>
    ensures { IfOk result (λ found. AreClearances (map (λ net. shapes_of net.items) nets.now)
        (distance * distance) found.items) }
{
    let outlines = outlines_of(alloc, nets)?;
    let mut found = Vec::new(alloc);
    for first in 0..nets.len() {
        add_clearances(alloc, nets, &outlines, first, distance, &mut found)?;
    }
    Ok(found)
}

/// Adds the pairs of a net with those that follow it, as far as they are nearer than a distance.
fn add_clearances<I: IntNumber>(
    alloc: Global,
    nets: &[IntShapes<I>],
    outlines: &[Outline<I>],
    first: usize,
    distance: u32,
    found: &mut Vec<NetClearance>,
) -> Result<(), AllocError>
    requires outlines { AreOutlines (map (λ net. shapes_of net.items) nets.now) (length nets.now) outlines.now }
    requires within { first < length nets.now }
    requires so_far { AreClearancesBefore (map (λ net. shapes_of net.items) nets.now) (distance * distance)
        first (first + 1) found.old.items }
    ensures { OnOk result (AreClearancesBefore (map (λ net. shapes_of net.items) nets.now) (distance * distance)
        (first + 1) (first + 2) found.new.items) }
{
    for second in first + 1..nets.len() {
        add_clearance(
            alloc,
            &nets[first],
            &outlines[first],
            &outlines[second],
            (first, second),
            distance,
            found,
        )?;
    }
    Ok(())
}

/// Adds a pair of nets, if they are nearer to each other than a distance. The first outline is that of the net.
fn add_clearance<I: IntNumber>(
    alloc: Global,
    net: &IntShapes<I>,
    first: &Outline<I>,
    second: &Outline<I>,
    pair: (usize, usize),
    distance: u32,
    found: &mut Vec<NetClearance>,
) -> Result<(), AllocError>
    requires first { IsOutline (contours_of (shapes_of net.now.items)) first.now }
    requires second { IsOutline (flat_contours second.now.contours) second.now }
    ensures { OnOk result (AddsClearance (distance * distance) first.now.edges.items second.now.edges.items
        pair found.old.items found.new.items) }
{
    let Some(squared) = near_separation(alloc, net, first, second, distance)? else {
        return Ok(());
    };
    found.push(NetClearance {
        first: pair.0,
        second: pair.1,
        squared,
    })?;
    Ok(())
}
