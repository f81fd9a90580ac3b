//! What all drawing by offset has in common: edges that are added to segments, what is promised of them, how far they
//! reach, and why an offset call refuses. Outlines and strokes stand on it.
//!
//! Read `specs/Drawing.antt` first: what edges are promised that are drawn for a contour. `mesh_stroke` says it of
//! those that are drawn for a path.
#![tactic(auto)]

pub mod bounds;
pub mod error;
pub mod radius;
pub mod segments;
