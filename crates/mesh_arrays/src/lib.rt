//! The library over slices and numbers, for languages that hold drawings in arrays: no call here hands out what its
//! caller has to free. What a call answers goes into room that the caller gives. A drawing is read (`drawing`), and what
//! is drawn of it told (`drawn`), how far it reaches (`range`), or how near to its paths it holds all points (`reach`). A
//! boolean is read (`boolean`), and what it keeps told (`combined`).
#![tactic(auto)]

pub mod boolean;
pub mod clearance;
pub mod combined;
pub mod drawing;
pub mod drawn;
pub mod edges;
pub mod failure;
pub mod given;
mod layout;
pub mod lists;
pub mod near;
pub mod nets;
pub mod numbers;
pub mod options;
pub mod outcome;
pub mod range;
pub mod reach;
pub mod room;
pub mod shapes;
pub mod slivers;
pub mod styles;
