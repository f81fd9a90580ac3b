//! The rules that say which windings are filled.

ghost use Rattle.std.specs.Prelude.{◌≡◌};
ghost use Rattle.mesh_lattice.specs.FillRules.{filled, filled_by, winding_rule_of};

/// Which windings are filled: those above 0 or those below 0.
#[derive(Debug, Copy, Clone, PartialEq, Eq)]
pub enum FillRule {
    /// The windings above 0.
    Positive,
    /// The windings below 0.
    Negative,
}

impl FillRule {
    /// Whether a winding is filled.
    pub fn is_filled(self, winding: i128) -> bool
        ensures { result ≡ filled self winding }
    {
        self.winding_rule().is_filled(winding)
    }

    /// The same rule, as the engine takes it.
    pub fn winding_rule(self) -> WindingRule
        ensures { result ≡ winding_rule_of self }
    {
        match self {
            FillRule::Positive => WindingRule::Positive,
            FillRule::Negative => WindingRule::Negative,
        }
    }
}

/// Which windings are filled, as the engine takes it. No rule fills the winding 0.
#[derive(Debug, Copy, Clone, PartialEq, Eq)]
pub enum WindingRule {
    /// The windings above 0.
    Positive,
    /// The windings below 0.
    Negative,
    /// The odd windings.
    EvenOdd,
    /// The windings other than 0.
    NonZero,
    /// The windings above 0 that are at least this number.
    AtLeast(u32),
}

impl WindingRule {
    /// Whether a winding is filled.
    pub fn is_filled(self, winding: i128) -> bool
        ensures { result ≡ filled_by self winding }
    {
        match self {
            WindingRule::Positive => winding > 0,
            WindingRule::Negative => winding < 0,
            WindingRule::EvenOdd => winding.unsigned_abs() % 2 == 1,
            WindingRule::NonZero => winding != 0,
            WindingRule::AtLeast(least) => winding > 0 && winding >= least as i128,
        }
    }
}
