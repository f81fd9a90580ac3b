//! What is asked of a drawing, and what answers it.

ghost use Rattle.std.specs.Prelude.{◌≡◌};
ghost use Rattle.mesh_drawing.specs.Answers.{is_plain};

use mesh_below::below::IntOverlayOptions;
use mesh_below::nearness::NearShapes;
use mesh_num::num::OverlayInt;
use mesh_num::shape::buffer::IntShapes;
use mesh_num::shape::edge::DirectedEdge;

/// What is listed of a drawing.
#[derive(Debug, Copy, Clone)]
pub enum Output<U> {
    /// The edges of each path.
    Edges,
    /// The shapes of all paths, with these options.
    Shapes(IntOverlayOptions<U>),
}

/// What is asked of a drawing.
#[derive(Debug, Copy, Clone)]
pub struct Asked<U> {
    /// What is listed of it.
    pub output: Output<U>,
    /// How many splits may be made for shapes. 0 stands for any number.
    pub most_splits: u64,
    /// Whether shapes come with their nearness.
    pub nearness: bool,
}

impl<U> Asked<U> {
    /// Whether there is neither a limit on splits nor a nearness to be told.
    pub(crate) fn is_plain(&self) -> bool
        ensures { result ≡ is_plain self.now }
    {
        !self.nearness && self.most_splits == 0
    }
}

/// What answers what is asked of a drawing.
#[derive(Drop)]
pub enum Answer<I: OverlayInt> {
    /// The edges of each path, sorted by their starts and then by their ends. Nothing is split for them, so they are exact.
    Edges(Vec<Vec<DirectedEdge<I>>>),
    /// The shapes of all paths, where neither a limit is set nor the nearness is asked for.
    Shapes(IntShapes<I>),
    /// The shapes of all paths and their nearness, where that is asked for or a limit is set.
    NearShapes(NearShapes<I>),
}
