//! The splitting of edges in flat arrays, ahead of the splitting in rounds, which takes over where the arrays do not
//! serve.
//!
//! `splitter` has the calls. They promise what those of `mesh_rounds` promise, and call these where an attempt in arrays is
//! given up. `boxes` says whether an attempt is worth making, `mending` cuts what meets still after each pair was cut once,
//! `settling` has all cut anew where that does not come to an end, `segments` makes an answer of the pieces, and `nearness`
//! tells how near these lie to the edges.
#![tactic(auto)]

pub(crate) mod boxes;
pub(crate) mod mending;
pub(crate) mod nearness;
pub(crate) mod segments;
pub(crate) mod settling;
pub mod splitter;
