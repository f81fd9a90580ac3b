//! Requests in JSON, answered in the caller's room, for languages that hold them in arrays of bytes.
#![tactic(auto)]

pub mod answer;
pub mod why;
