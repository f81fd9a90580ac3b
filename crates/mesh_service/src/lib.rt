//! Serves requests for polygon offsetting, and for booleans, coverage and overlaps of polygons: reads one as JSON and
//! writes one line of answer.
//!
//! Bytes are read (`input`), what the request that they hold (`text`) asks is drawn (`line`) or combined (`combined`)
//! and put into a line (`answer`), with distances of its shapes where these are asked for (`distances`), and that is
//! written (`output`); `service` does all of it. `near` answers by no more
//! than a number of splits, and tells how near an answer is to what is drawn or combined. `why` says why a text is no
//! request (`reason`). `told` tells people of a run on another stream, and `ignored` which keys of a request are ignored.
#![tactic(auto)]

pub mod answer;
mod combined;
pub mod distances;
mod ignored;
pub mod input;
mod line;
pub mod near;
pub mod near_failure;
pub mod output;
pub mod reason;
pub mod service;
pub mod text;
mod told;
pub mod why;

pub use mesh_request::{failure, request};
