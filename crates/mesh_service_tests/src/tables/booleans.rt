//! Requests for booleans, coverages and overlaps, and what is written for them.

pub mod notes;
pub mod reasons;
pub mod rules;
pub mod zones;
