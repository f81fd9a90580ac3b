//! Contours that are convex polygons: no edge of one meets another but in a common end, so that none has to be split.
//!
//! `convex` has the calls: whether edges run once round a convex polygon, and what splitting them would answer then.
//! `specs/Convex.antt` says when they do, and `laws` that their edges share only common ends.
#![tactic(auto)]

pub mod convex;
pub mod laws;
