//! Edges cut where they meet, in flat arrays. Each edge is a path: a list of stops, which are numbered points. Where two
//! pieces of paths meet, each path that has one of them gets a stop there, and the split is noted.
//!
//! Read `specs/Paths.antt` first, then `specs/Stops.antt`. `specs/Private` has what stands between the steps of a cut.
#![tactic(auto)]

pub mod about;
pub mod cut;
pub mod paths;
pub mod pieces;
pub mod splits;
pub mod stops;
pub mod through;
