//! Laws of cleaned contours. Each function does nothing: its clause is the law.

ghost use Rattle.mesh_join.specs.Laws.{CleanedContoursWindAlike, CleanedContoursAreClean, EqualPointsHaveNoSections};
ghost use Rattle.mesh_join.specs.Laws.{CleanedContoursBegin};

/// At every point of every grid a cleaned contour winds as often as the contour.
pub fn cleaned_contours_wind_alike()
    ensures { CleanedContoursWindAlike }
{}

/// A contour of points that are not all equal has at least two sections, and none runs on from the one before it.
pub fn cleaned_contours_are_clean()
    ensures { CleanedContoursAreClean }
{}

/// A contour of no point or of equal ones has no section.
pub fn equal_points_have_no_sections()
    ensures { EqualPointsHaveNoSections }
{}

/// A cleaned contour begins at the first kept point of the second to the last but one, else at the first point.
pub fn cleaned_contours_begin()
    ensures { CleanedContoursBegin }
{}
