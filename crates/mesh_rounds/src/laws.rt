//! Laws of the splitting. Each function does nothing: its clause is the law.

ghost use Rattle.mesh_rounds.specs.Laws.{LegalSplitsKeepEdges};

/// Legal splits make of each edge a path in its own box that never goes back, and keep balance, ends that differ and
/// the safe range.
pub fn legal_splits_keep_edges()
    ensures { LegalSplitsKeepEdges }
{}
