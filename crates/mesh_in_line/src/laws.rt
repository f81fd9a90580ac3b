//! Laws of splits that go on from others. The functions do nothing: their clauses are the laws.

ghost use Rattle.mesh_in_line.specs.Laws.{SplittingsGoOn, StraightSplitsKeepNearness};

/// A splitting of what legal splits made is one of the given edges.
#[tactic(auto, using(crate::proofs::Following::splittings_go_on))]
pub fn splittings_go_on()
    ensures { SplittingsGoOn }
{}

/// Straight splits before others do not change how near these are to the given edges.
#[tactic(auto, using(crate::proofs::Nearness::straight_splits_keep_nearness))]
pub fn straight_splits_keep_nearness()
    ensures { StraightSplitsKeepNearness }
{}
