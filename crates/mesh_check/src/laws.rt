//! Laws of paths. The functions do nothing: their clauses are the laws.

ghost use Rattle.mesh_check.specs.Bent.{LeadingApartIsClear, PathsGoAlong};
ghost use Rattle.mesh_check.specs.Clear.{PathsAreClearOfThemselves, PathsBesideAreClear, PathsStayClear};
ghost use Rattle.mesh_check.specs.Heights.{PathsThatLeadApartAreClear};
ghost use Rattle.mesh_check.specs.Zones.{PathsWithClearZonesAreClear};

/// Where two paths lead apart from a stop of both, no two pieces of the one and of the other meet but in ends.
pub fn paths_that_lead_apart_are_clear()
    ensures { PathsThatLeadApartAreClear }
{}

/// The paths that edges have become by legal splits go along these edges.
pub fn paths_go_along()
    ensures { PathsGoAlong }
{}

/// So paths that lead apart from a stop of both are clear of each other.
pub fn leading_apart_is_clear()
    ensures { LeadingApartIsClear }
{}

/// A path never goes back, so its pieces are clear of each other.
pub fn paths_are_clear_of_themselves()
    ensures { PathsAreClearOfThemselves }
{}

/// Where two edges stay clear while they are bent by so many units, the paths that they have become are clear of each
/// other, if they are bent by no more.
pub fn paths_stay_clear()
    ensures { PathsStayClear }
{}

/// Where one edge lies beside the line of another by more than both paths are bent, these are clear of each other.
pub fn paths_beside_are_clear()
    ensures { PathsBesideAreClear }
{}

/// Paths with a common stop are clear of each other where their pieces near it are, up to stops of each that lie far
/// enough beside the other's line.
pub fn paths_with_clear_zones_are_clear()
    ensures { PathsWithClearZonesAreClear }
{}
