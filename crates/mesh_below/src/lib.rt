//! The overlay: turns directed edges into clean polygons. It is the layer below the offset operations, and can be
//! called on its own.
//!
//! Start with `below`, which has the public calls. What they promise is one relation, `IsResolution` in
//! `mesh_shapes/specs/Resolution.antt`: this answer is a resolution of these edges by this fill rule and these options.
//! Its words are defined in `Split`, `Clean` and `Boundary` of `mesh_lattice/specs`, and in `Contours` beside it. What
//! follows from the relation, for instance how often the answer winds round each point, is in `specs/Laws.antt` and the
//! module `laws`.
//!
//! On the way from segments to polygons, `given` reads the segments as directed edges, `mesh_ahead` splits these until
//! they share only ends, `mesh_boundary` finds the boundary of the filled region, and `mesh_shapes` joins it into
//! contours, sorts them, and puts each hole into its polygon. `resolve` runs all of it.
#![tactic(auto)]

mod answer;
pub mod below;
pub mod checks;
pub mod given;
pub mod laws;
pub mod nearness;
mod resolve;

pub use mesh_ahead::splitter;
pub use mesh_lattice::{fill, lattice};
pub use mesh_split::count;
