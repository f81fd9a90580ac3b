//! What is combined with what: operands, which are contours or what is drawn of paths, and what is made of them, a
//! boolean, where zones cover the plane, or where they overlap (`operand`); how it is made (`combine`), also with an
//! error bound (`within`), and which operand may not take part, and why (`refusal`). Without JSON and without arrays.
#![tactic(auto)]

pub mod combine;
mod near_region;
pub mod operand;
pub mod refusal;
mod region;
pub mod within;
