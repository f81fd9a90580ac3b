//! The keys of a request.

ghost use Rattle.std.specs.Prelude.{◌≡◌};
ghost use Rattle.mesh_request.specs.Places.{key_text};

/// A key that a request, its style, its options or its fill rules may have.
#[derive(Debug, Clone, Copy, PartialEq, Eq)]
pub enum Key {
    Operation,
    Int,
    Out,
    Paths,
    Style,
    Closed,
    Options,
    Outer,
    Inner,
    Width,
    Join,
    MinTurn,
    Side,
    Start,
    End,
    Arc,
    MinArea,
    Clockwise,
    Collinear,
    Distances,
    Rule,
    Fill,
    Subject,
    Clip,
    Zones,
    Least,
}

impl Key {
    /// The key as it stands in a request.
    pub fn text(self) -> &'static str
        ensures { result.now ≡ key_text self }
    {
        match self {
            Key::Operation => "op",
            Key::Int => "int",
            Key::Out => "out",
            Key::Paths => "paths",
            Key::Style => "style",
            Key::Closed => "closed",
            Key::Options => "options",
            Key::Outer => "outer",
            Key::Inner => "inner",
            Key::Width => "width",
            Key::Join => "join",
            Key::MinTurn => "min_turn",
            Key::Side => "side",
            Key::Start => "start",
            Key::End => "end",
            Key::Arc => "arc",
            Key::MinArea => "min_area",
            Key::Clockwise => "clockwise",
            Key::Collinear => "collinear",
            Key::Distances => "distances",
            Key::Rule => "rule",
            Key::Fill => "fill",
            Key::Subject => "subject",
            Key::Clip => "clip",
            Key::Zones => "zones",
            Key::Least => "least",
        }
    }
}
