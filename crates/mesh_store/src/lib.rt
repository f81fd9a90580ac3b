//! The segments of a splitting: those that wait to be tested, and those that live, where conflicts are sought.
//!
//! `worklist` has the segments that wait, `store` those that live, both by their ends, each once, with its count: `tally`
//! is that map, and `ends_hasher` its hasher. `tree` has the parts of the plane by which live segments are sought, `bounding`
//! the boxes by which most of those found there are left out. `tuning` has the numbers that all this is tuned by.
#![tactic(auto)]

pub mod bounding;
pub mod ends_hasher;
pub mod store;
pub mod tally;
pub mod tree;
pub mod tuning;
pub mod worklist;
