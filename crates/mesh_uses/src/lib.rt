//! Callers of the four public libraries, one module each. The page `CALLING.md` of each library quotes its module.
#![tactic(auto)]

pub mod below;
pub mod booleans;
pub mod clearances;
pub mod edges;
pub mod join;
pub mod num;
pub mod offsets;
