//! Points, edges and segments of the engine's grid: exact tests of edges against each other, what splits keep, fill
//! rules, and edges listed by height (`rows`), so that what lies beside a point is found in one row.
//!
//! Read `specs/Split.antt` first: where two segments meet, and the splits that this allows. `specs/Clean.antt` says when
//! nothing is left to be split, `specs/Splitting.antt` what splitting answers, `specs/Boundary.antt` what the boundary
//! of split segments is.
#![tactic(auto)]

pub mod exact;
pub mod fill;
pub mod fine;
pub mod lattice;
pub mod places;
pub mod rows;
pub mod samples;
