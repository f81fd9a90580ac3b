//! Laws of reach. Each function does nothing: its clause is the law.

ghost use Rattle.mesh_reach.specs.Reach.{ListsReachAsTheirPoints};

/// A closed list of points that are each at most some distance from an end of an edge holds no point that is farther
/// than that from the edge.
pub fn lists_reach_as_their_points()
    ensures { ListsReachAsTheirPoints }
{}
