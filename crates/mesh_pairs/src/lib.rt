//! Which of many edges meet, and which may do so once both are bent by a few grid units.
//!
//! Read `specs/Pairs.antt` first, then `specs/Laws.antt`, which says what it is good for. `specs/Boxes.antt` has the
//! rectangles by which most pairs are left out, and `specs/Private` what private contracts alone read.
#![tactic(auto)]

pub mod boxes;
pub mod laws;
pub mod pairs;
pub mod places;
pub mod tree;
