//! Laws of split segments and of their boundary: a side has one winding, which follows from that at an end and agrees
//! with the facing side's; the boundary winds once round what is filled and is balanced. Its lemmas also say that
//! outside the boxes of bent edges the winding is that of the given edges.
#![tactic(auto)]

pub mod laws;
