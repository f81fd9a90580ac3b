//! Laws of drawings that lie apart: edges in boxes that share no point. What comes of the parts is an answer of the
//! whole: splits, segments, boundaries and contours are those of the parts, and where no hole would stand with another
//! part's contour, the answers' shapes, joined in their order, are a resolution of all edges.
//!
//! Read `specs/Apart.antt`, `Joins.antt` and `Joined.antt`, then the laws in `Laws.antt`.
#![tactic(auto)]

pub mod laws;
