//! Directed arcs of integer polygon offsetting.
#![tactic(auto)]

pub mod arc;
mod steps;
