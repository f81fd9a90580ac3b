//! Where two edges meet, in 64 bits: for edges whose coordinates are below 2^30 in size. The answer is that of
//! `mesh_lattice::exact::meeting`, which has no such bound and computes with 128 bits.
#![tactic(auto)]

pub mod meeting;
pub mod small;
pub mod vectors;
