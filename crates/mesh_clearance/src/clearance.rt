//! How near an answer comes to paths.

ghost use Rattle.std.specs.Prelude.{◌≡◌, ◌⊎◌, [], IfOk, IfSome, MatchOption, ℕ};
ghost use Rattle.std.specs.List.{All};
ghost use Rattle.mesh_num.specs.Paths.{shapes_of};
ghost use Rattle.mesh_clearance.specs.Clearance.{IsClearance, WindAsAtVertices, all_sections, shape_edges};

use crate::edges::{edges_of, sections_of};
use crate::runs::runs_of;
use crate::search::clearance;
use mesh_num::num::IntNumber;
use mesh_num::shape::{IntShapeResource, IntShapes};
use std::alloc::{AllocError, Global};

/// How near the polygons' edges come to paths: the square of the least distance, in grid units and rounded down,
/// between a point of an edge and a point of a path's section. It is `None` where there is no edge or no section.
/// Coordinates may be any value. A closed path has a section from its last point to its first; a section's ends may be
/// one point.
///
/// Round each point whose squared distance from a path is less than that, the contours wind as they do round each
/// vertex of the path. So where one vertex of a path is inside the polygons, every point nearer to the path is.
///
/// Where edges are short it takes near linear time; long edges side by side, whose boxes overlap, take more. No
/// contract says so. `Err` means that memory was refused.
pub fn clearance_of<I: IntNumber, S: IntShapeResource<I>>(
    alloc: Global,
    shapes: &IntShapes<I>,
    paths: &S,
    are_closed: bool,
) -> Result<Option<u128>, AllocError>
    ensures clearance { IfOk result (λ found. MatchOption found
        ((shape_edges (shapes_of shapes.now.items) ≡ []) ⊎ (all_sections are_closed (S.paths paths.now) ≡ []))
        (IsClearance (shape_edges (shapes_of shapes.now.items)) (all_sections are_closed (S.paths paths.now)))) }
    ensures winding { IfOk result (λ found. IfSome found (λ (t : ℕ).
        All (WindAsAtVertices t are_closed (shape_edges (shapes_of shapes.now.items))) (S.paths paths.now))) }
{
    let edges = edges_of(alloc, shapes)?;
    let sections = sections_of(alloc, paths, are_closed)?;
    let runs = runs_of(alloc, &edges)?;
    Ok(clearance(&edges, &runs.list, &runs.starts, &sections))
}
