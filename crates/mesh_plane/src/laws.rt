//! Laws of crossings, windings, closed lists and rounded quotients. Each function does nothing: its clause is the law.

ghost use Rattle.mesh_plane.specs.Laws.{CrossingsAreOdd, CrossingsAddAlongLines, FlatTrianglesDoNotWind};
ghost use Rattle.mesh_plane.specs.Laws.{TrianglesWindOnce, ParallelogramsWindOnce, ClosedListsBalance};
ghost use Rattle.mesh_plane.specs.Laws.{ClosedListsTelescope, LengthsAreProducts, RoundedIsNearest, RoundedIsOdd};
ghost use Rattle.mesh_plane.specs.Laws.{RoundedIsMonotone};

/// An edge and the same edge back cross nothing together.
pub fn crossings_are_odd()
    ensures { CrossingsAreOdd }
{}

/// A point on the line of an edge parts it into two edges that cross what it crosses.
pub fn crossings_add_along_lines()
    ensures { CrossingsAddAlongLines }
{}

/// A triangle with its corners on one line winds round no point.
pub fn flat_triangles_do_not_wind()
    ensures { FlatTrianglesDoNotWind }
{}

/// A triangle that does not turn right winds once round a point or not at all.
pub fn triangles_wind_once()
    ensures { TrianglesWindOnce }
{}

/// A parallelogram that does not turn right winds once round a point or not at all.
pub fn parallelograms_wind_once()
    ensures { ParallelogramsWindOnce }
{}

/// At each point as many edges of a closed list start as end.
pub fn closed_lists_balance()
    ensures { ClosedListsBalance }
{}

/// The steps of any measure of points round a closed list add up to 0.
pub fn closed_lists_telescope()
    ensures { ClosedListsTelescope }
{}

/// The square of a length is the vector's product with itself.
pub fn lengths_are_products()
    ensures { LengthsAreProducts }
{}

/// A rounded quotient is the nearest whole number, halves away from 0.
pub fn rounded_is_nearest()
    ensures { RoundedIsNearest }
{}

/// The opposite number has the opposite rounded quotient.
pub fn rounded_is_odd()
    ensures { RoundedIsOdd }
{}

/// A greater number has no smaller rounded quotient.
pub fn rounded_is_monotone()
    ensures { RoundedIsMonotone }
{}
