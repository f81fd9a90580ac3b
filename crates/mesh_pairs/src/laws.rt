//! A law of edges that stay clear of each other. The function does nothing: its clause is the law.

ghost use Rattle.mesh_pairs.specs.Laws.{ClearPiecesDoNotMeet};

/// Where two edges stay clear, pieces between stops of the one and of the other, each at most so many units from its
/// edge and in its box, have no point in common.
#[tactic(auto, using(crate::proofs::Strips::clear_pieces))]
pub fn clear_pieces_do_not_meet()
    ensures { ClearPiecesDoNotMeet }
{}
