//! How far two nets are apart.

ghost use Rattle.std.specs.Prelude.{◌*◌, ◌≡◌, ◌⊎◌, [], IfOk, MatchOption};
ghost use Rattle.mesh_num.specs.FlatContours.{flat_contours};
ghost use Rattle.mesh_num.specs.Paths.{contours_of, shapes_of};
ghost use Rattle.mesh_nets.specs.Nets.{AreNetsApart, IsNetSeparation};
ghost use Rattle.mesh_nets.specs.Private.Outlines.{IsOutline};
ghost use Rattle.mesh_nets.specs.Private.PairsSoFar.{IsNearSeparation};

use crate::boxes::are_far;
use crate::outlines::Outline;
use crate::winding::do_enclose;
use mesh_clearance::clearance::clearance_of;
use mesh_num::num::IntNumber;
use mesh_num::shape::IntShapes;
use std::alloc::{AllocError, Global};

/// The squared distance of two nets, rounded down, or `None` where one has no point. It is that of their edges, and 0
/// where a contour of one lies within the other. The first outline is that of the net.
fn separation<I: IntNumber>(
    alloc: Global,
    net: &IntShapes<I>,
    first: &Outline<I>,
    second: &Outline<I>,
) -> Result<Option<u128>, AllocError>
    requires first { IsOutline (contours_of (shapes_of net.now.items)) first.now }
    requires second { IsOutline (flat_contours second.now.contours) second.now }
    ensures { IfOk result (λ found. MatchOption found
        ((first.now.edges.items ≡ []) ⊎ (second.now.edges.items ≡ []))
        (IsNetSeparation first.now.edges.items second.now.edges.items)) }
{
    let Some(squared) = clearance_of(alloc, net, &second.contours, true)? else {
        return Ok(None);
    };
    if do_enclose(&first.edges, &second.contours) {
        return Ok(Some(0));
    }
    if do_enclose(&second.edges, &first.contours) {
        return Ok(Some(0));
    }
    Ok(Some(squared))
}

/// The squared distance of two nets, rounded down, if they are nearer to each other than a distance. Where their boxes
/// are that far apart nothing else is looked at. The first outline is that of the net.
pub fn near_separation<I: IntNumber>(
    alloc: Global,
    net: &IntShapes<I>,
    first: &Outline<I>,
    second: &Outline<I>,
    distance: u32,
) -> Result<Option<u128>, AllocError>
    requires first { IsOutline (contours_of (shapes_of net.now.items)) first.now }
    requires second { IsOutline (flat_contours second.now.contours) second.now }
    ensures { IfOk result (λ found. MatchOption found
        (AreNetsApart (distance * distance) first.now.edges.items second.now.edges.items)
        (IsNearSeparation (distance * distance) first.now.edges.items second.now.edges.items)) }
{
    if are_far(first.around, second.around, distance) {
        return Ok(None);
    }
    let Some(squared) = separation(alloc, net, first, second)? else {
        return Ok(None);
    };
    let wide = distance as u128;
    if squared < wide * wide {
        return Ok(Some(squared));
    }
    Ok(None)
}
