//! Numbers, points, directions, rotations, angles and rectangles; sources of paths, buffers of contours, and signed
//! segments.
#![tactic(auto)]

pub mod laws;
pub mod num;
pub mod shape;
