//! Strokes of paths: the operations on sources of paths, the builder that draws one path's offset curve, and how far a
//! stroke reaches.

pub use mesh_stroke::builder::StrokeBuilder;
pub use mesh_stroke::offset::IntStrokeOffset;
pub use mesh_stroke::{builder, offset, radius};
