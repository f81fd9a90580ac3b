//! The splitting of directed edges one by one: one legal split at a time, until any two segments share only common ends.
//!
//! `first_pass` splits in other orders where a run seems to begin: `leash` holds splits back that would lead far away, and
//! says in which order these are split anew, and `hints` have that order. `steps` are the steps of each splitting,
//! over the segments of `mesh_store`. `count` counts the splits, for the limit that a caller may set, `split_log` keeps those
//! that stand, `nearness` is how near these lie to the edges, and `witnesses` tell which edge each segment comes from.
//! `tuning` has the numbers that it is tuned by.
#![tactic(auto)]

pub mod count;
pub mod first_pass;
mod hints;
pub mod leash;
pub mod nearness;
pub mod split_log;
pub mod steps;
mod tuning;
pub mod witnesses;
