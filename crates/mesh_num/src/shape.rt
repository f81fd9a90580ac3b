//! Paths as sources of points, and signed segments.

pub mod buffer;
pub mod edge;
pub mod path_slice;
pub mod resource;
pub mod segment;

pub use buffer::{FlatContoursBuffer, IntShapes};
pub use edge::DirectedEdge;
pub use path_slice::PathSlice;
pub use resource::IntShapeResource;
pub use segment::{Segment, SubjectSegments, XSegment};
