//! Requests for booleans, for where zones cover the plane and for where they overlap, read from JSON (`request`): what is
//! combined with what, and how its shapes are listed. Operands are closed contours, or what is drawn of paths.
#![tactic(auto)]

mod fault;
mod operand;
pub mod request;
mod rule;
