//! Slivers, contours as thin as rounding may make them, left out of an answer. They can hold no point far from their
//! own edges, so that far from the edges that went the answer winds as before.
#![tactic(auto)]

pub mod slivers;
