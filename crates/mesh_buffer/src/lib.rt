//! Polygons grown or shrunk by strokes along their boundaries: what contours fill, with all that such strokes cover, or
//! without it. No contour has to run in a certain direction, and none is moved.
#![tactic(auto)]

pub mod buffer;
