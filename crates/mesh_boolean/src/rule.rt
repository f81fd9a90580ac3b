//! Which points a boolean keeps, and how it is carried out.

ghost use Rattle.std.specs.Prelude.{◌≡◌};
ghost use Rattle.mesh_boolean.specs.Rules.{way_of, winding_rule_for};

use mesh_below::below::{FillRule, WindingRule};

/// Which points a boolean of a subject and a clip keeps.
#[derive(Debug, Copy, Clone, PartialEq, Eq)]
pub enum BooleanRule {
    /// The points of the subject. The clip is not looked at.
    Subject,
    /// The points of the clip. The subject is not looked at.
    Clip,
    /// The points of both.
    Intersect,
    /// The points of one of them or of both.
    Union,
    /// The points of the subject that are not in the clip.
    Difference,
    /// The points of the clip that are not in the subject.
    InverseDifference,
    /// The points of one of them alone.
    Xor,
}

/// Which windings of an operand's contours are filled.
#[derive(Debug, Copy, Clone, PartialEq, Eq)]
pub enum BooleanFillRule {
    /// The odd windings.
    EvenOdd,
    /// The windings other than 0.
    NonZero,
    /// The windings above 0.
    Positive,
    /// The windings below 0.
    Negative,
}

impl BooleanFillRule {
    /// The same rule, as the engine takes it.
    pub(crate) fn winding_rule(self) -> WindingRule
        ensures { result ≡ winding_rule_for self }
    {
        match self {
            BooleanFillRule::EvenOdd => WindingRule::EvenOdd,
            BooleanFillRule::NonZero => WindingRule::NonZero,
            BooleanFillRule::Positive => WindingRule::Positive,
            BooleanFillRule::Negative => WindingRule::Negative,
        }
    }
}

/// The fill rules of both operands.
#[derive(Debug, Copy, Clone, PartialEq, Eq)]
pub struct BooleanFill {
    /// That of the subject.
    pub subject: BooleanFillRule,
    /// That of the clip.
    pub clip: BooleanFillRule,
}

/// How a boolean is carried out.
#[derive(Debug, Copy, Clone, PartialEq, Eq)]
pub enum Way {
    /// The subject is resolved alone.
    Subject,
    /// The clip is resolved alone.
    Clip,
    /// Both are resolved alone, then together: the clip as it is in the sense `Positive`, reversed in the sense
    /// `Negative`; and the rule says which sums of both windings are filled.
    Together(FillRule, WindingRule),
}

/// How a rule is carried out.
pub(crate) fn way_of(rule: BooleanRule) -> Way
    ensures { result ≡ way_of rule }
{
    match rule {
        BooleanRule::Subject => Way::Subject,
        BooleanRule::Clip => Way::Clip,
        BooleanRule::Intersect => Way::Together(FillRule::Positive, WindingRule::AtLeast(2)),
        BooleanRule::Union => Way::Together(FillRule::Positive, WindingRule::Positive),
        BooleanRule::Difference => Way::Together(FillRule::Negative, WindingRule::Positive),
        BooleanRule::InverseDifference => Way::Together(FillRule::Negative, WindingRule::Negative),
        BooleanRule::Xor => Way::Together(FillRule::Negative, WindingRule::NonZero),
    }
}
