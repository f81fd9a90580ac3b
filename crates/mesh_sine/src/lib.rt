//! Sines and cosines of angles, in whole numbers.
#![tactic(auto)]

pub mod laws;
pub mod sine;
pub(crate) mod table;
