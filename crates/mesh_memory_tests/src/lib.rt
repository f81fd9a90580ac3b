//! Tests of refused memory: each call that takes memory, with each of its growths refused in turn, and with all.
//!
//! A test prepares what the call needs, and its answer with memory at hand. Then it makes the call between marks, looks
//! at what stands where it was refused, calls again with memory, and compares. `rt test` refuses nothing, so there the
//! marked call has memory too; `.ci/refuse_memory` runs each test once for each growth between its marks, with that one
//! refused, and once with all refused.
#![tactic(auto)]

#[cfg(test)]
mod calls;
#[cfg(test)]
mod corners;
#[cfg(test)]
mod near;
#[cfg(test)]
mod outlines;
#[cfg(test)]
mod overlays;
#[cfg(test)]
mod strokes;
#[cfg(test)]
mod variable_strokes;
