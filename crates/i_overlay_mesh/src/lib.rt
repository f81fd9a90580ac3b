//! Polygon offsetting on whole numbers: outlines of contours, strokes of paths, and strokes whose width changes from
//! vertex to vertex; and booleans of contours and of what offsets return.
//!
//! This crate has everything that a caller needs, whichever crate it comes from. The operations are methods of
//! `IntOutlineOffset`, `IntStrokeOffset` and `IntVariableStrokeOffset` on anything that holds paths, such as a `Vec` of
//! points; booleans are the functions of `boolean` and `zones`. `CALLING.md` shows all of them on one page.
#![tactic(auto)]

pub mod laws;
pub mod outline;
pub mod stroke;
pub mod variable_stroke;

pub use mesh_below::below::{ContourDirection, IntOverlayOptions, Overlay, OverlayRule};
pub use mesh_below::fill::FillRule;
pub use mesh_below::nearness::{NearShapes, SplitCount, SplitError};
pub use mesh_boolean::boolean::{
    IntOverlayError, overlay_shapes, overlay_shapes_with_nearness, validate_overlay,
};
pub use mesh_boolean::overlaps::{NearOverlaps, ZoneOverlap, overlaps, overlaps_with_nearness};
pub use mesh_boolean::rule::{BooleanFill, BooleanFillRule, BooleanRule};
pub use mesh_boolean::zones::{
    coverage, coverage_with_nearness, overlay_regions, overlay_regions_with_nearness,
};
pub use mesh_boolean::{boolean, zones};
pub use mesh_clearance::clearance;
pub use mesh_inner::formula::{radius_for, step_for};
pub use mesh_inner::reach::inner_reach;
pub use mesh_join::arc::ArcOptions;
pub use mesh_join::style::{
    IntLineCap, IntLineJoin, IntOutlineStyle, IntStrokeStyle, IntStrokeVertex,
    IntVariableStrokeStyle, MathMode, StrokeSide,
};
pub use mesh_nets::nets::{NetClearance, clearances};
pub use mesh_num::num::{Angle, IntNumber, IntPoint, IntRect, IntVector, OverlayInt};
pub use mesh_num::shape::{
    DirectedEdge, FlatContoursBuffer, IntShapeResource, IntShapes, PathSlice, Segment,
    SubjectSegments,
};
pub use mesh_offset::error;
pub use mesh_offset::error::{
    IntNearnessError, IntOutlineError, IntStrokeError, IntVariableStrokeError,
};
pub use mesh_slivers::slivers::without_slivers;
pub use outline::{ContourKind, IntOutlineOffset, OutlineBuilder};
pub use stroke::{IntStrokeOffset, StrokeBuilder};
pub use variable_stroke::{
    ContourResourceIterator, IntVariableStrokeOffset, IntVariableStrokeSource,
    ShapeResourceIterator, VariableStrokeBuilder,
};
