//! The check that pieces of edges that were cut meet no more.
//!
//! `check` has the call that tells of all pairs, and `specs/AllClear.antt` what it tells: any two pieces are clear of each
//! other. It looks at the pairs that were known before the edges were cut, in time that grows with how many these are.
//! Paths whose edges met, by `meetings`, and paths that share an end, by `ends`, have to lead apart from a stop of both, or
//! be clear of each other near it, and `visits` guesses where that is; of close paths one has to lie beside the other's
//! line; all others stay clear while no path is bent much, which `bends` sees to. Where that does not tell, each piece is
//! compared with each, within a limit. `doubts` lists the pairs of which even that does not tell. `fit` tells whether paths
//! can be looked at.
#![tactic(auto)]

mod bends;
pub mod check;
pub mod doubts;
mod ends;
mod fit;
mod meetings;
mod visits;
