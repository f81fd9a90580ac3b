//! How chains begin and end.

ghost use Rattle.std.specs.Prelude.{◌≡◌};
ghost use Rattle.mesh_variable_stroke.specs.VariableStrokes.{are_butt as are_butt_ends};

/// How a chain begins or ends.
#[derive(Debug, Clone, Copy, PartialEq, Eq)]
pub enum ChainEnd {
    /// Straight from one side to the other.
    Butt,
    /// Along the circle of the vertex.
    Round,
}

/// Whether both ends are butt.
pub(crate) fn are_butt(start: ChainEnd, end: ChainEnd) -> bool
    ensures { result ≡ are_butt_ends start end }
{
    match start {
        ChainEnd::Round => false,
        ChainEnd::Butt => match end {
            ChainEnd::Butt => true,
            ChainEnd::Round => false,
        },
    }
}
