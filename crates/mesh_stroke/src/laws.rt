//! Laws of strokes, of single paths and of many. Each function does nothing: its clause is the law.

ghost use Rattle.mesh_stroke.specs.Halves.{HalvesMakeTheWhole};
ghost use Rattle.mesh_stroke.specs.Reversal.{StrokesCanBeReversed};
ghost use Rattle.mesh_stroke.specs.Laws.{StrokeEdgesAreBalanced, StrokesAreRegions};
ghost use Rattle.mesh_stroke.specs.Reach.{KeptRadiiReach, StrokeAnswersReach, StrokeEdgesReach, StrokesReach};

/// Reversing a path and exchanging its caps leaves the net count of every edge of its stroke on both sides, and so its
/// winding at every point, for every join and cap, corners at which the path turns exactly back among them. Of one half
/// it is not said: such a corner has its join on the right, whichever way the path runs.
pub fn strokes_can_be_reversed()
    ensures { StrokesCanBeReversed }
{}

/// The edges of which a stroke is the resolution are balanced, and none ends where it starts, wherever the paths lie.
pub fn stroke_edges_are_balanced()
    ensures { StrokeEdgesAreBalanced }
{}

/// A stroke is made of regions: outside the boxes of edges that rounding bent it winds once round each point where the
/// windings of the pieces of all paths add up to more than 0, and round no other.
pub fn strokes_are_regions()
    ensures { StrokesAreRegions }
{}

/// At every point of every grid the windings of the left and the right half of a stroke add up to that of the whole with
/// butt caps, for every path, width and join.
pub fn halves_make_the_whole()
    ensures { HalvesMakeTheWhole }
{}

/// Each point that a piece of a stroke holds is as near to a section of the path as `stroke_reach` says for its joins
/// and caps.
pub fn strokes_reach()
    ensures { StrokesReach }
{}

/// With bevels or round joins, and butt or round caps where caps are drawn, that is at most the radius and three
/// quarters of a grid unit: twice the square of the distance is at most `2 * r * r + 3 * r + 1`, by the radius `r`.
pub fn kept_radii_reach()
    ensures { KeptRadiiReach }
{}

/// Each point round which the edges of a stroke wind is as near to a section of the path.
pub fn stroke_edges_reach()
    ensures { StrokeEdgesReach }
{}

/// With no least area, outer contours counterclockwise and splits of the nearness `k`, each point round which a
/// stroke's answer winds lies within `k` 64ths of a grid unit, in both coordinates, of a point as near to a section of
/// a path as the stroke reaches.
pub fn stroke_answers_reach()
    ensures { StrokeAnswersReach }
{}
