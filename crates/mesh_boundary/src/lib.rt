//! From split segments to the boundary of what they fill.
//!
//! `sides` finds the boundary, by the windings on both sides of each segment, and `side_finder` has the finders of
//! these. `winding` sums over the row of a point, as `mesh_lattice` lists edges by height. `flood` knows the windings
//! beside segments, and goes on from point to point: by the order of `round` where two segments meet or cross, else by
//! sums over stars. `stars` lists the ends of segments by points. It begins with a sum of `sums`, and serves where rows
//! are long. Where they are short along the direction of a long segment, as in a hatch, `slanted` has them there.
//! `specs/Private` has the states of loops, which private contracts alone read.
#![tactic(auto)]

mod flood;
mod round;
mod side_finder;
pub mod sides;
mod slanted;
mod stars;
mod sums;
mod winding;
