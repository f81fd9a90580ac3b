//! Strokes whose width changes from vertex to vertex: the operations on sources of paths, the builder that draws one
//! path's offset curve, the sources, and iterators over borrowed paths.

pub use mesh_variable_stroke::builder::VariableStrokeBuilder;
pub use mesh_variable_stroke::offset::IntVariableStrokeOffset;
pub use mesh_variable_stroke::resource::IntVariableStrokeSource;
pub use mesh_variable_stroke::resource_iter::{ContourResourceIterator, ShapeResourceIterator};
pub use mesh_variable_stroke::{builder, offset, resource, resource_iter};
