//! Laws of split segments, of their sides and of their boundary, and of what lies near edges. Each function does
//! nothing: its clause is the law.

ghost use Rattle.mesh_regions.specs.BoundaryLaws.{BoundariesWindOnce, BoundariesAreBalanced};
ghost use Rattle.mesh_regions.specs.NearnessLaws.{ClosedListsNearEdgesDoNotWind, FarPointsKeepTheirWinding};
ghost use Rattle.mesh_regions.specs.NearnessLaws.{NearnessAddsUp, NearnessIsByTurns, SegmentsStayNearEdges};
ghost use Rattle.mesh_regions.specs.SideLaws.{SidesAreConstant, SidesFollowFromEnds, SegmentsHaveNeighbours};
ghost use Rattle.mesh_regions.specs.SideLaws.{FacingSidesAgree};

/// A side of a split segment has one winding, at all its inner points on every grid.
pub fn sides_are_constant()
    ensures { SidesAreConstant }
{}

/// The winding on a segment's right is that at its start and the net count of the edges that leave the start before it,
/// counterclockwise from the east. So the windings beside all segments at a vertex follow from the one at it.
pub fn sides_follow_from_ends()
    ensures { SidesFollowFromEnds }
{}

/// Round its start each segment has a neighbour, the next segment counterclockwise.
pub fn segments_have_neighbours()
    ensures { SegmentsHaveNeighbours }
{}

/// Where two segments at a vertex neighbour in angle, the sides that face each other have one winding.
pub fn facing_sides_agree()
    ensures { FacingSidesAgree }
{}

/// The boundary winds once round the points where the winding is filled, and round no other.
pub fn boundaries_wind_once()
    ensures { BoundariesWindOnce }
{}

/// At each point as many edges of the boundary start as end, so every walk along it closes.
pub fn boundaries_are_balanced()
    ensures { BoundariesAreBalanced }
{}

/// A point in an edge's box lies as far from the edge as its turn by the sum of the edge's width and height.
pub fn nearness_is_by_turns()
    ensures { NearnessIsByTurns }
{}

/// Farther from each given edge than the nearness of splits, what they leave winds as the given edges do.
pub fn far_points_keep_their_winding()
    ensures { FarPointsKeepTheirWinding }
{}

/// Each point of each segment that splits leave lies within their nearness of a given edge.
pub fn segments_stay_near_edges()
    ensures { SegmentsStayNearEdges }
{}

/// What lies within one distance of an edge that stays within another of given edges lies within their sum of one of
/// these.
pub fn nearness_adds_up()
    ensures { NearnessAddsUp }
{}

/// A closed list of points that all lie within a distance of one edge winds round no point farther from the edge.
pub fn closed_lists_near_edges_do_not_wind()
    ensures { ClosedListsNearEdgesDoNotWind }
{}
