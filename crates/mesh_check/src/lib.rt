//! Whether the paths of two edges that were cut are clear of each other: their pieces meet no more.
//!
//! `leading` tests by lines whether two paths lead apart from a stop of both, `close` whether one lies beside the other's
//! line, `comparing` holds each piece against each, and `zones` those near a common stop. `specs/Heights.antt`,
//! `specs/Clear.antt` and `specs/Zones.antt` say when two paths are clear, and `laws` carries it. `heights` tells how far
//! points lie beside lines. The check of all pairs is `mesh_clear`'s.
#![tactic(auto)]

pub mod close;
pub mod comparing;
pub mod heights;
pub mod laws;
pub mod leading;
pub mod zones;
