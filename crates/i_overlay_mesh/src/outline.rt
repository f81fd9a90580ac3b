//! Outlines of contours: the operations on sources of contours, the builder that draws one contour's offset curve, and
//! the areas and kinds of contours.

pub use mesh_outline::builder::OutlineBuilder;
pub use mesh_outline::kind::ContourKind;
pub use mesh_outline::offset::IntOutlineOffset;
pub use mesh_outline::{area, builder, kind, offset};
