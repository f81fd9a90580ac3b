//! What strokes hold for certain: every point that is near enough to a section of the path.
//!
//! `specs/Room.antt` says what room a section and a fan of triangles leave, `specs/Inner.antt` how far a whole stroke
//! reaches, and what follows; `reach` computes it. The proof takes the vertex that is nearest to a point: the section
//! into it and the section out of it hold the point, or its join does, or the cap at the end of the path.
#![tactic(auto)]

mod end;
mod fan;
pub mod formula;
mod joint;
pub mod laws;
pub mod reach;
mod section;
