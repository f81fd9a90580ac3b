//! Styles, joins and cleaned contours (`uniq_iter`), whose corners are joined.
//!
//! A kind of join is a variant of `IntLineJoin`, a module as `bevel` and `miter`, a file of definitions, and lemmas
//! that end in the record `KeepsJoints`, which is all that outlines know of a kind. `specs/Joins.antt`,
//! `proofs/Joins.antt` and `join` choose between the kinds.
#![tactic(auto)]

mod bevel;
pub mod join;
mod joint;
pub mod laws;
mod miter;
mod round;
pub mod route;
pub mod style;
pub mod uniq_iter;

pub use mesh_arc::arc;
