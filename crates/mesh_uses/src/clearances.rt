//! Whether copper keeps a distance from the tracks of a board, and whether nets keep it from each other.

ghost use Rattle.std.specs.Prelude.{◌*◌, ◌<◌, ◌≤◌, ℕ, false, length, IfOk, IsTrue, MatchOption};
ghost use Rattle.std.specs.List.{flat_map};
ghost use Rattle.mesh_num.specs.Paths.{contours_of, paths_of, shapes_of};
ghost use Rattle.mesh_plane.specs.Winding.{boundary};
ghost use Rattle.mesh_clearance.specs.Clearance.{AreAllApart, sections};
ghost use Rattle.mesh_nets.specs.Nets.{AreNetsApart};
ghost use Rattle.mesh_uses.specs.Nets.{edges_at};

use i_overlay_mesh::clearance::clearance_of;
use i_overlay_mesh::{IntPoint, IntShapes, clearances};
use std::alloc::{AllocError, Global};

fn is_at_least(found: Option<u128>, wanted: u128) -> bool
    ensures { IsTrue result → MatchOption found (Unit {0}) (λ t. wanted ≤ t) }
{
    match found {
        Some(square) => square >= wanted,
        None => true,
    }
}

/// Whether no point of the polygons' edges is nearer to a track than a distance. With a micrometre for a grid unit, 150
/// asks for 0.15 mm.
pub fn keeps_clear(
    alloc: Global,
    copper: &IntShapes<i32>,
    tracks: &Vec<Vec<IntPoint<i32>>>,
    distance: u32,
) -> Result<bool, AllocError>
    ensures { IfOk result (λ keeps. IsTrue keeps → AreAllApart (distance * distance)
        (flat_map boundary (contours_of (shapes_of copper.now.items)))
        (flat_map (sections false) (paths_of tracks.now.items))) }
{
    let wide = distance as u128;
    let found = clearance_of(alloc, copper, tracks, false)?;
    Ok(is_at_least(found, wide * wide))
}

/// Whether no two points of different nets are nearer to each other than a distance.
pub fn keep_apart(alloc: Global, nets: &[IntShapes<i32>], distance: u32) -> Result<bool, AllocError>
    ensures { IfOk result (λ keep. IsTrue keep → (i j : ℕ) → i < j → j < length nets.now
        → AreNetsApart (distance * distance) (edges_at nets.now i) (edges_at nets.now j)) }
{
    let near = clearances(alloc, nets, distance)?;
    Ok(near.is_empty())
}
