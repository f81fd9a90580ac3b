//! How near the edges of an answer come to paths, exactly, and what that says of the points near the paths.
#![tactic(auto)]

pub(crate) mod boxes;
pub mod clearance;
pub(crate) mod distance;
pub(crate) mod edges;
pub mod laws;
pub(crate) mod runs;
pub(crate) mod search;
