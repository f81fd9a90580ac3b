//! The law of clearances. The function does nothing: its clause is the law.

ghost use Rattle.mesh_clearance.specs.Clearance.{NearPointsWindAsVertices};

/// Balanced edges wind round each point nearer to a path than they come themselves as they wind round each vertex of
/// the path. So where one vertex of a path is in an answer, every point nearer to the path than the answer's edges is.
pub fn near_points_wind_as_vertices()
    ensures { NearPointsWindAsVertices }
{}
