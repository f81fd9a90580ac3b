//! Outlines of contours over whole numbers: the edges of one contour's outline, and the calls on sources of contours.
//!
//! Read `specs/Outline.antt` first, the edges of a contour's outline and the pieces between it and the contour; then
//! `specs/Resolved.antt`, the outline of many contours, and `specs/Reach.antt`, how far outlines go from contours. A
//! section is a cleaned edge moved sideways (`section`), a corner joins two of them (`builder_join`), the builder goes
//! round a contour (`builder`), and the calls (`offset`) resolve what comes of all contours (`resolve`, `gather`,
//! `bounds_apart`, `shapes`).
#![tactic(auto)]

pub mod area;
pub mod bounds;
mod bounds_apart;
pub mod builder;
mod builder_join;
mod gather;
pub mod kind;
pub mod laws;
mod nearness;
pub mod offset;
mod resolve;
mod section;
mod shapes;
