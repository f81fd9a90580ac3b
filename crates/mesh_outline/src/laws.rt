//! Laws of outlines, of single contours and of many. Each function does nothing: its clause is the law.

ghost use Rattle.mesh_outline.specs.Drawn.{OutlinesAreDrawn};
ghost use Rattle.mesh_outline.specs.Laws.{OutlinesStaySafe, FinalEdgesAreBalanced};
ghost use Rattle.mesh_outline.specs.Laws.{OutlinesAreRegions, OutlinesAreExact, AnswersAloneAreRegions};
ghost use Rattle.mesh_outline.specs.Reach.{OutlineAnswersReach, OutlineEdgesReach, OutlinesReach};

/// The edges of each contour's outline are balanced, near its vertices, and wind as the count of its pieces says.
pub fn outlines_are_drawn()
    ensures { OutlinesAreDrawn }
{}

/// All edges, split segments and answers of an outline are safe where its contours stay safe.
pub fn outlines_stay_safe()
    ensures { OutlinesStaySafe }
{}

/// The edges of which an outline is the resolution are balanced, and none ends where it starts.
pub fn final_edges_are_balanced()
    ensures { FinalEdgesAreBalanced }
{}

/// An outline is made of regions: outside the boxes of edges that rounding bent it winds once round each point that the
/// outlines of more contours of positive area fill than those of negative area clear, and round no other.
pub fn outlines_are_regions()
    ensures { OutlinesAreRegions }
{}

/// Where the edges that are drawn of all contours meet in whole points alone, the outline is exact everywhere: no edge is
/// bent by rounding, neither in a contour's own resolving nor in the last one.
pub fn outlines_are_exact()
    ensures { OutlinesAreExact }
{}

/// What comes of one contour alone is made of regions of the edges of its outline.
pub fn answers_alone_are_regions()
    ensures { AnswersAloneAreRegions }
{}

/// Each point that a piece of an outline holds, on either side of the contour, is near a section of the contour. With
/// bevels or round joins it is at most the offset and three quarters of a grid unit away. How far miters reach is
/// told by `join_reach`.
pub fn outlines_reach()
    ensures { OutlinesReach }
{}

/// So is each point round which the edges of an outline wind otherwise than the contour.
pub fn outline_edges_reach()
    ensures { OutlineEdgesReach }
{}

/// With no least area and outer contours counterclockwise, an outline's answer of the nearness `k` winds once round
/// each point inside the contours and round no other, but for points within `k` 64ths of a grid unit, in both
/// coordinates, of a point as near to a section of a contour as the outline reaches.
pub fn outline_answers_reach()
    ensures { OutlineAnswersReach }
{}
