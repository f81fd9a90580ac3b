//! From the boundary of what is filled to shapes: closed contours of it, and the order and grouping of these.
//!
//! Read `specs/Resolution.antt` first, the one relation that the overlay's calls promise, then `specs/Contours.antt`.
//! `specs/Private` has the states of loops, which private contracts alone read.
//! `trace` and `ring` make contours of a boundary, `arrange` brings them into order and groups them. `holders` finds the
//! ring that holds a point, by the rows of `mesh_lattice`.
#![tactic(auto)]

pub mod area;
pub mod arrange;
mod holders;
pub mod ring;
pub mod trace;
