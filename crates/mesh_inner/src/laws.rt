//! Laws of what strokes hold for certain. Each function does nothing: its clause is the law.

ghost use Rattle.mesh_inner.specs.Inner.{StrokesHoldWhatIsNear, StrokeAnswersHoldWhatIsNear};

/// A stroke on both sides holds every point that is near enough to a section of its path, whatever its joins and caps are,
/// and wherever the path turns: twice the square of the distance, and 2 more for what rounding of directions takes, is less
/// than what each section, join and cap leaves room for. The point must not lie beyond an end with a butt cap. The radius is
/// at most a quarter of a direction's length: 2^12 for `i16`, 2^28 for `i32`.
pub fn strokes_hold_what_is_near()
    ensures { StrokesHoldWhatIsNear }
{}

/// With no least area, outer contours counterclockwise and no custom cap, an answer of strokes winds once round each such
/// point that lies farther than its error bound from each drawn edge; with an error bound of 0, round each that lies on none.
pub fn stroke_answers_hold_what_is_near()
    ensures { StrokeAnswersHoldWhatIsNear }
{}
