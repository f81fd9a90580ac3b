//! Laws of polygons. Each function does nothing: its clause is the law.

ghost use Rattle.mesh_boolean.specs.Zones.{AnswersWindOnce};

/// Answers that leave nothing out and run counterclockwise wind once or not at all round each point, so they may take
/// part in booleans as they are.
pub fn answers_wind_once()
    ensures { AnswersWindOnce }
{}
