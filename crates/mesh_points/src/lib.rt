//! Points with numbers, and edges between numbered points, those with the same ends merged.
//!
//! Read `specs/Points.antt` and `specs/Edges.antt` first. `specs/Private` has the lists by which points and edges are
//! found, which private contracts alone read. A link of such a list is one more than a number, so 0 ends it, and each
//! link leads to a lesser number.
#![tactic(auto)]

pub mod edges;
pub mod points;
