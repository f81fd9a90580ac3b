//! Which nets of a board come nearer to each other than a distance, and that all others keep it.
//!
//! Read `specs/Nets.antt` first: which points belong to a net, and when two nets are apart.
#![tactic(auto)]

pub(crate) mod boxes;
pub(crate) mod edges;
pub mod nets;
pub(crate) mod outlines;
pub(crate) mod pairs;
pub(crate) mod winding;
