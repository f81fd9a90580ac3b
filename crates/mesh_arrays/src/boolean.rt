//! Booleans out of lists and numbers.

ghost use Rattle.std.specs.Prelude.{◌≡◌};
ghost use Rattle.mesh_arrays.specs.Booleans.{IsBooleanOf, boolean_of, fill_rule_in, fills_in, rule_in};
ghost use Rattle.mesh_arrays.specs.EndToEnd.{path_lists};
ghost use Rattle.mesh_arrays.specs.Failures.{IsRead};

use crate::failure::Failure;
use crate::lists::read_lists;
use crate::numbers::Flat;
use mesh_boolean::rule::{BooleanFill, BooleanFillRule, BooleanRule};
use mesh_num::num::{IntNumber, IntPoint};
use std::alloc::Global;

/// Which points a boolean keeps, and which windings of its operands are filled.
#[repr(C)]
#[derive(Clone, Copy)]
pub struct FlatBoolean {
    /// 0: the points of the subject. 1: those of the clip. 2: those of both. 3: those of one of them or of both. 4: those
    /// of the subject alone. 5: those of the clip alone. 6: those of one of them alone.
    pub rule: u32,
    /// The windings of the subject that are filled. 0: the odd ones. 1: those other than 0. 2: those above 0. 3: those
    /// below 0.
    pub subject_fill: u32,
    /// The windings of the clip that are filled, by the same numbers.
    pub clip_fill: u32,
}

impl FlatBoolean {
    /// The rule that a number stands for, where it does for one.
    fn rule(&self) -> Option<BooleanRule>
        ensures { result ≡ rule_in self.now.rule }
    {
        match self.rule {
            0 => Some(BooleanRule::Subject),
            1 => Some(BooleanRule::Clip),
            2 => Some(BooleanRule::Intersect),
            3 => Some(BooleanRule::Union),
            4 => Some(BooleanRule::Difference),
            5 => Some(BooleanRule::InverseDifference),
            6 => Some(BooleanRule::Xor),
            _ => None,
        }
    }

    /// The fill rules that these numbers stand for, where they do for some.
    fn fill(&self) -> Option<BooleanFill>
        ensures { result ≡ fills_in self.now }
    {
        let subject = fill_rule(self.subject_fill)?;
        let clip = fill_rule(self.clip_fill)?;
        Some(BooleanFill { subject, clip })
    }
}

/// The fill rule that a number stands for.
fn fill_rule(number: u32) -> Option<BooleanFillRule>
    ensures { result ≡ fill_rule_in number }
{
    match number {
        0 => Some(BooleanFillRule::EvenOdd),
        1 => Some(BooleanFillRule::NonZero),
        2 => Some(BooleanFillRule::Positive),
        3 => Some(BooleanFillRule::Negative),
        _ => None,
    }
}

/// A boolean of closed contours.
#[derive(Drop)]
pub struct ContourBoolean<I: IntNumber> {
    /// Which points are kept.
    pub rule: BooleanRule,
    /// Which windings of each operand are filled.
    pub fill: BooleanFill,
    /// The contours of the subject.
    pub subject: Vec<Vec<IntPoint<I>>>,
    /// The contours of the clip.
    pub clip: Vec<Vec<IntPoint<I>>>,
}

/// The boolean of contours that stand end to end in `subject_points` and `clip_points`; the ends of each have for each
/// contour, in order, how many points stand in it and before it. `Malformed`: these are no ends of paths, or a number
/// stands for no rule. `OutOfMemory`: memory was refused. There is no other failure.
pub fn boolean<I: IntNumber, P: Flat<Item = IntPoint<I>>>(
    alloc: Global,
    subject_points: &[P],
    subject_ends: &[usize],
    clip_points: &[P],
    clip_ends: &[usize],
    asked: &FlatBoolean,
) -> Result<ContourBoolean<I>, Failure>
    ensures { IsRead boolean_of (IsBooleanOf P.item_of (path_lists subject_points.now subject_ends.now)
        (path_lists clip_points.now clip_ends.now) asked.now) result }
{
    let Some(rule) = asked.rule() else {
        return Err(Failure::Malformed);
    };
    let Some(fill) = asked.fill() else {
        return Err(Failure::Malformed);
    };
    let subject = read_lists(alloc, subject_points, subject_ends)?;
    let clip = read_lists(alloc, clip_points, clip_ends)?;
    Ok(ContourBoolean {
        rule,
        fill,
        subject,
        clip,
    })
}
