//! Serves requests for polygon offsetting, and for booleans, coverage and overlaps of polygons, line by line: one line
//! of answer for each line of requests.
//!
//! A line is read (`line`), answered as the service answers its bytes (`reply`) and the reply written; `service` does
//! this for each line that a reader has left, as `options` ask it. `arguments` reads these from the words of a program.
#![tactic(auto)]

pub mod arguments;
pub mod line;
pub mod options;
mod reply;
pub mod service;
