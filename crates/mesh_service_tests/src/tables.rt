//! Requests and what is written for them, as data. An answer stands without its line feed.

pub mod booleans;
pub mod distances;
pub mod edges;
pub mod miters;
pub mod notes;
pub mod reasons;
pub mod refused;
pub mod round;
pub mod shapes;
pub mod stroke_failures;
pub mod stroke_shapes;
pub mod stroke_sides;
pub mod strokes;
pub mod unreadable;
pub mod variable_stroke_failures;
pub mod variable_stroke_shapes;
pub mod variable_strokes;
