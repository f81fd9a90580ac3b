//! The splitting in rounds, ahead of the splitting one by one, which takes over where rounds do not serve.
//!
//! `splitter` has the calls; their contract is in `mesh_lattice/specs/Splitting.antt`. It splits in `rounds` where these
//! serve: `groups` have near segments, by which all pairs that meet are found at once, `curve` the order by which these are
//! told, and `pieces` what the segments of a round have become. Else `mesh_split` splits in a first pass, and `splitter`
//! what is left, in a second one. `tuning` has the numbers that rounds are tuned by. `specs/Private` has the states of the
//! loops, which private contracts alone read.
#![tactic(auto)]

pub mod curve;
mod groups;
pub mod laws;
mod pieces;
mod rounds;
pub mod splitter;
mod tuning;
