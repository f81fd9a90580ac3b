//! The numbers that the store of segments is tuned by: what each stands for, and what a doubled one does. None bears on
//! what is promised.

// The tree of the worklist

/// Up to so many segments a part lists before it is parted. Of twice as many each new segment is tested against twice
/// as many.
pub const FEW_OF_A_PART: usize = 48;

/// No part of the plane lies under more cuts. Where a full one would, as where a run of splits goes on along a line,
/// and lists as many as a power of two, all cuts are chosen anew. Cuts that halve what is listed need some twenty for a
/// million segments, so this many are of a run; twice as many let it grow on.
pub const DEPTH: usize = 128;

/// About how many segments a cut is chosen from. Choosing from twice as many costs twice as much, and the cuts are
/// little better.
pub const SAMPLED_FOR_A_CUT: usize = 16;

// Hashes

/// 2^64 over the golden ratio, whose multiples are spread evenly and look random.
pub const SCATTERING: u64 = 0x9E37_79B9_7F4A_7C15;
