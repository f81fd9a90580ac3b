//! An attempt to split edges in flat arrays, before they are split in rounds: points are numbered, edges with the same
//! ends merged, the pairs that meet are found once, and each is cut where its pieces lie then.
//!
//! `attempt` has the public call, `specs/Attempts.antt` what it promises: all splits are legal, and paths are what these
//! make of the edges. Whether pieces of them still meet is not said. `small` tells whether coordinates are small enough.
#![tactic(auto)]

pub mod attempt;
pub mod small;
