//! Borrowed points or paths as a source.

ghost use Rattle.std.specs.Prelude.{◌≡◌};

/// A borrowed slice of points, which is one path, or of paths.
#[derive(Debug, Drop)]
pub struct PathSlice<'a, T> {
    /// The points of the path, or the paths, in order.
    pub items: &'a [T],
}

impl<'a, T> PathSlice<'a, T> {
    /// The source of this path, or of these paths.
    pub fn new(items: &'a [T]) -> Self
        ensures { result.items.now ≡ items.now }
    {
        PathSlice { items }
    }
}
