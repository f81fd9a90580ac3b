//! Laws of split segments, boundaries and answers. Each function does nothing: its clause is the law.

ghost use Rattle.mesh_below.specs.Laws.{AnswersAreRegions, NothingHasNoShapes, AnswersAreSafe};

pub use mesh_regions::laws::{
    boundaries_are_balanced, boundaries_wind_once, closed_lists_near_edges_do_not_wind,
    facing_sides_agree, far_points_keep_their_winding, nearness_adds_up, nearness_is_by_turns,
    segments_have_neighbours, segments_stay_near_edges, sides_are_constant, sides_follow_from_ends,
};
pub use mesh_rounds::laws::legal_splits_keep_edges;

/// The contours of an answer wind once round what is filled, outside the boxes of bent edges by the given edges'
/// winding.
pub fn answers_are_regions()
    ensures { AnswersAreRegions }
{}

/// Where there is no edge, no shape is answered.
pub fn nothing_has_no_shapes()
    ensures { NothingHasNoShapes }
{}

/// Split segments and answers of edges in the safe range are in it.
pub fn answers_are_safe()
    ensures { AnswersAreSafe }
{}
