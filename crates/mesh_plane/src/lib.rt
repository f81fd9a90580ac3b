//! The plane of whole numbers: points, turns, crossings, windings, closed lists and rounded quotients, and what holds
//! of them. There is no code here but the laws: definitions are in `specs/`, lemmas for all crates above in `proofs/`.
#![tactic(auto)]

pub mod laws;
