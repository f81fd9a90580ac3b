//! Circles round the vertices of a path: the sections between their outer tangents, which circles a section covers, and
//! arcs and circles round a vertex.
//!
//! Read `specs/Tangents.antt` and `specs/Sections.antt` first: how far the points of tangency lie, the circles and the
//! sections between them; then `specs/Sweeps.antt`: an arc about a center, its points and the triangles that it covers.
#![tactic(auto)]

pub mod circle;
mod cover;
mod normals;
pub mod offsets;
mod polyline;
pub mod section;
pub mod sweep;
pub mod sweeper;
mod vertex;
