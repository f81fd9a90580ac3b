//! Strokes of paths whose width changes from vertex to vertex: the edges of one path's stroke, the calls on sources of
//! paths, and the sources.
//!
//! Read `specs/Chains.antt` and `specs/VariableStrokes.antt` first: where the sections of a path are broken into chains,
//! the edges of those, and the pieces that they are made of; then `specs/Resolved.antt`, the stroke of many paths, and
//! `specs/Reach.antt`, how far strokes go from paths.
#![tactic(auto)]

pub mod bounds;
pub mod builder;
mod chain;
mod chain_end;
mod ends;
mod joint;
pub mod laws;
pub mod offset;
mod resolve;
pub mod resource;
pub mod resource_iter;
mod vertex;
mod walk;
