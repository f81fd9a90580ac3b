//! How far what is drawn along edges reaches from them, as a distance.
#![tactic(auto)]

pub mod laws;
