//! Laws of strokes of variable width, of the steps of a path and of many paths. Each function does nothing: its clause is the law.

ghost use Rattle.mesh_variable_stroke.specs.ByIndex.{StepsAreByIndex};
ghost use Rattle.mesh_variable_stroke.specs.Laws.{VariableStrokeEdgesAreBalanced, VariableStrokesAreRegions};
ghost use Rattle.mesh_variable_stroke.specs.Reach.{VariableStrokeAnswersReach, VariableStrokeEdgesReach, VariableStrokesReach};

/// The edges of which a stroke of variable width is the resolution are balanced, and none ends where it starts,
/// wherever the paths lie.
pub fn variable_stroke_edges_are_balanced()
    ensures { VariableStrokeEdgesAreBalanced }
{}

/// A stroke of variable width is made of regions: outside the boxes of edges that rounding bent it winds once round each
/// point where the windings of the pieces of all paths add up to more than 0, and round no other.
pub fn variable_strokes_are_regions()
    ensures { VariableStrokesAreRegions }
{}

/// Breaks and covers, which part a path into chains, are told by their places: step `i` leads from vertex `i` to vertex
/// `i + 1`, is a break where one of their circles holds the other, and a cover where the section of step `i - 1` holds
/// the circle of vertex `i + 1`.
pub fn steps_are_by_index()
    ensures { StepsAreByIndex }
{}

/// Each point that a piece of a stroke of variable width holds is as near to a vertex as the radius there says, or to a
/// section as the greater radius of its ends says: at most that radius and three quarters of a unit away.
pub fn variable_strokes_reach()
    ensures { VariableStrokesReach }
{}

/// So is each point round which the edges of such a stroke wind.
pub fn variable_stroke_edges_reach()
    ensures { VariableStrokeEdgesReach }
{}

/// With no least area, outer contours counterclockwise and splits of the nearness `k`, each point round which the
/// answer of such a stroke winds lies within `k` 64ths of a grid unit, in both coordinates, of a point so near.
pub fn variable_stroke_answers_reach()
    ensures { VariableStrokeAnswersReach }
{}
