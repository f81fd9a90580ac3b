//! Cuts made again in another order, where rounding bent a path too far.
//!
//! Where cuts follow each other closely, each moves what the next one cuts, so that some paths end up many units beside
//! their edges, or three meet in turns, however often they are cut. In another order of the same cuts this seldom happens at
//! the same place. `groups` finds the paths that are bent too far or in doubt, and all that hang together with these, since
//! only their cuts depend on each other; `anew` cuts all edges again, these last and in another order. What comes of it is as
//! legal as before, whatever `groups` finds. `ends` lists the paths that share an end with one, `neighbours` the edges that met
//! one or were close to it.
#![tactic(auto)]

pub mod anew;
pub mod ends;
pub mod groups;
pub mod neighbours;
mod order;
