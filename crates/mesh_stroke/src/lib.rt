//! Strokes of paths with a width over whole numbers: the edges of one path's stroke, and the calls on sources of paths.
//!
//! Read `specs/Paths.antt` and `specs/Strokes.antt` first: the edges of a path, those of its stroke, and the pieces
//! that the stroke is made of; then `specs/Resolved.antt`, the stroke of many paths, and `specs/Reach.antt`, how far
//! strokes go from paths. A section is an edge of the path with the points beside its ends (`section`), a corner joins
//! two of them (`builder_join`), caps close the ends (`cap`, `caps`), the builder goes along a path (`builder`), and the
//! calls (`offset`) resolve what comes of all paths (`resolve`).
//!
//! A half (`StrokeSide`) is the whole with its other side moved onto the path: `right_end` and `left_end` say so, and a
//! corner gives it the join or the edges through the vertex; `specs/Halves.antt` adds both halves up.
//!
//! A kind of cap is a variant of `IntLineCap` in `mesh_join`, a module of `cap`, a file of definitions, and lemmas that
//! end in the record `KeepsEnds`, which is all that strokes know of a kind. `cap`, `specs/Caps.antt` and
//! `proofs/CapKinds.antt` choose between the kinds. `specs/Ends.antt` says what an end is: a half turn, so a round cap is a
//! round join.
#![tactic(auto)]

pub mod builder;
mod builder_join;
pub mod cap;
mod caps;
pub mod end;
pub mod laws;
pub mod offset;
mod path;
pub mod radius;
mod resolve;
mod section;
