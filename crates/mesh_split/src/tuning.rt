//! The numbers that splitting one by one is tuned by: what each stands for, and what a doubled one does. None bears on what is
//! promised, but that `most_attempts` counts what is begun anew.

// The leash

/// How far a split point near an end may lie from the given edge that its segment comes from, in 64ths of a grid unit.
/// Twice as far lets runs go on for twice as long.
pub(crate) const LEASH: u64 = 128;

/// So often the pieces of two given edges may be split near an end in one attempt: a run splits them again and again,
/// and twice as often if it may.
pub(crate) const MOST_STEPS: u64 = 10;

/// Up to this far in both coordinates, a point is near an end, in grid units. Twice as far counts splits that are of no
/// run.
pub(crate) const NEAR_AN_END: u128 = 64;

/// From this length on, in grid units, a segment is long where it is split near an end. Runs along segments half as
/// long would pass unseen with twice as much.
pub(crate) const LONG: u128 = 1 << 14;

/// Below this angle, a thousandth, two segments are nearly parallel. Twice the angle notes more edges than are of runs.
pub(crate) const NARROW: u64 = 1 << 46;

/// So many of the edges that a noted one meets are noted too. With twice as many more edges are split anew.
pub(crate) const NEIGHBOURS: usize = 8;

/// How often those that the noted ones meet are noted too. Twice as often reaches most of a drawing.
pub(crate) const RINGS: usize = 2;

/// An edge whose order was drawn so often is given up. Runs that end in another order have mostly ended by then.
pub(crate) const MOST_ORDERS: u64 = 12;

/// How many splits may have been made anew, about, where another order is drawn: crowded drawings take many. With twice
/// as many the hardest take twice as long.
pub(crate) const MOST_SPLITS_ANEW: usize = 1_200_000;

// Beginning anew

/// How often all is begun anew, at most. Twice as often costs the hardest drawings twice as much; `most_attempts`
/// follows from it.
pub(crate) const DRAWS: usize = 11;

/// How often the noted edges are split by themselves, at most, before all are. `most_attempts` follows from it too.
pub(crate) const REHEARSALS: usize = 3;
