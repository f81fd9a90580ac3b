//! What is drawn of paths, without JSON and without arrays: a drawing is paths and how they are drawn (`drawing`). How far
//! it reaches (`padding`), where it leaves the range (`refusal`), and what is asked of it (`asked`) and drawn (`draw`); and
//! its shapes alone, to be combined with others (`region`).
#![tactic(auto)]

pub mod asked;
pub mod coordinate;
pub mod draw;
mod drawable;
pub mod drawing;
mod edge;
mod outline;
pub mod padding;
pub mod refusal;
pub mod region;
mod stroke;
mod variable_stroke;
