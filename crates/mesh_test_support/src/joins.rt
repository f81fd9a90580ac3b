//! Joins, as tables write them.

/// How corners are joined.
#[derive(Debug, Clone, Copy, PartialEq, Eq)]
pub enum JoinKind {
    /// By an edge.
    Bevel,
    /// By miters whose sharpest angle and slightest turn have these bits.
    Miter(u32, u32),
    /// By arcs of options of so many bits and this precision.
    Round(u32, u32),
}
