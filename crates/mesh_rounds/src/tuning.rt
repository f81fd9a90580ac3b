//! The numbers that splitting in rounds is tuned by: what each stands for, and what a doubled one does. None bears on what
//! is promised.

// Rounds

/// After so many rounds all is begun anew, once, and pairs are split in another order: where pairs are left then, a run
/// of splits goes on, and few runs are met in both orders. With twice as many, runs cost twice as much before they are
/// given up.
pub(crate) const ROUNDS: usize = 12;

/// The rounds in both orders.
pub(crate) const MOST_TURNS: usize = 2 * ROUNDS;

/// In the other order each pair stands so many after the one before, from the first on again where there are no more. A
/// prime, so that each has its turn, unless there are as many; any other so large serves.
pub(crate) const STRIDE: usize = 1_000_003;

/// Of so many pairs or more, in the other order, blocks are split from the last pair on, since all at random would lie
/// far apart in memory. With twice as many, some drawings wait for memory more often.
pub(crate) const MANY_PAIRS: usize = 100_000;

/// The place of the last pair of the first block. Blocks twice as large are more alike in both orders.
pub(crate) const LAST_OF_BLOCK: usize = 7;

/// So many tests are made for each fresh segment, at most, and more for pairs that are found. With twice as many, a
/// drawing that rounds do not serve costs twice as much before they are given up.
pub(crate) const TESTS: usize = 60;

/// So many in later rounds: much would be split in vain if these were given up. Twice as many let them go on for
/// longer.
pub(crate) const LATER_TESTS: usize = 600;

/// And for so many segments more, since a round of few is cheap in any case. Twice as many are seen only where few
/// segments meet many.
pub(crate) const MORE_TESTS: usize = 10_000;

/// Of the pairs of a round, the next one may find so small a part. Where pieces meet again and again, it is greater;
/// with twice as small a part, rounds are given up where they would have come to an end.
pub(crate) const PART_OF_A_ROUND: usize = 8;

/// But so many pairs it may find in any case. With twice as many, small runs are given up later.
pub(crate) const FEW_PAIRS: usize = 64;

/// A pair that is split becomes so many segments more.
pub(crate) const SEGMENTS_A_PAIR: usize = 2;

/// A group of more segments is halved. In groups twice as large, each segment is tested against twice as many.
pub(crate) const MOST_OF_A_GROUP: usize = 20;

/// Where so many times as many segments wait, few are fresh: they may lie far from each other, and then a box that
/// holds several of them reaches much, so each is held alone. And where there are so few pieces, groups are pruned
/// about the ends of these alone. Twice as many times cost more tests in late rounds.
pub(crate) const MANY_TIMES: usize = 16;

/// Of fewer edges no list is made: they are split one by one. Twice as many take longer so than in rounds.
pub(crate) const FEW_EDGES: usize = 20;

/// For fewer than these, rounds serve in any case. Twice as many cost a star or a hatch some time.
pub(crate) const SOME_EDGES: usize = 100;

/// By so many edges it is judged whether rounds serve. Judging by twice as many costs twice as much, and tells little
/// more.
pub(crate) const SAMPLED_EDGES: usize = 8;

/// The boxes of so many edges may reach that of a sampled one. With twice as many, more drawings are split in rounds
/// that the worklist serves better.
pub(crate) const NEAR_BOXES: usize = 24;

/// So many more may for each edge that it meets; twice as many do the same.
pub(crate) const NEAR_BOXES_A_PAIR: usize = 12;

// Orders of segments

/// A segment is far from the one before where their starts are so many times as far from each other as both are long.
/// With twice as far, more drawings are taken to be in order.
pub(crate) const FAR: u64 = 4;

/// One of so many segments at most is far from the one before where they follow each other. With twice as many, more
/// drawings are put in order, which costs a sort.
pub(crate) const SEGMENTS_A_JUMP: usize = 32;

// Groups

/// So many tests more may be made for each pair that is found. Twice as many let crowded rounds go on for longer.
pub(crate) const TESTS_A_PAIR: usize = 32;

// Pieces

/// So far a split point may lie from the segment of the round whose piece is split, in grid units. Twice as far lets
/// bent paths meet edges that the round did not look at.
pub(crate) const PIECE_REACH: u64 = 8;
