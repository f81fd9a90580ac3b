//! Level and upright edges that lie along each other are cut at each other's ends, before pairs of edges are sought. Each
//! cut is a legal split at a point that lies on the edge, so nothing bends.
//!
//! `specs/InLine.antt` has what the calls promise, `specs/Laws.antt` why a splitting of what they make is one of the given
//! edges. `in_line` has the calls, `places` the ends along lines in their order, `spans` where edges lie among these, and
//! `samples` says whether cutting is worth its time. `specs/Private` is what private contracts alone read.
#![tactic(auto)]

pub mod in_line;
pub mod laws;
pub(crate) mod places;
pub mod samples;
pub(crate) mod spans;
