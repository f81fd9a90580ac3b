//! What holds of convex polygons. Each function does nothing: its clause is the law.

ghost use Rattle.std.specs.Prelude.{List};
ghost use Rattle.mesh_plane.specs.Plane.{Edge};
ghost use Rattle.mesh_lattice.specs.Clean.{IsClean, IsProper};
ghost use Rattle.mesh_convex.specs.Convex.{IsConvexLoop};

/// Edges that run once round a convex polygon share only common ends, on every grid.
pub fn convex_loops_are_clean()
    ensures { (es : List Edge) → IsConvexLoop es → IsProper es → IsClean es }
{}
