//! Points, edges and segments of the grid, whatever the width of the caller's coordinates.
//! They are tuples, so that contracts see them as the pairs that the definitions speak of.

/// A point, in grid units: `x`, then `y`.
pub type LatticePoint = (i32, i32);

/// A directed edge: where it starts, then where it ends.
pub type LatticeEdge = (LatticePoint, LatticePoint);

/// A segment between two ends, with the number of edges that run from the first end to the second
/// less the number of those that run back.
pub type CountedSegment = (LatticeEdge, i128);
