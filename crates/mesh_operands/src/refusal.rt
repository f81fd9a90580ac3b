//! Which operand may not take part, and why, to be told to people.

ghost use Rattle.std.specs.Prelude.{◌≡◌, ◌↔◌, None, map, IfSome, IsTrue};
ghost use Rattle.std.specs.List.{All};
ghost use Rattle.mesh_plane.specs.Bounds.{IsSafe, IsSmall};
ghost use Rattle.mesh_num.specs.Paths.{paths_of};
ghost use Rattle.mesh_drawing.specs.Refusals.{IsFirst, IsFirstPlace};
ghost use Rattle.mesh_operands.specs.Combining.{MayBeCombined, MayTakePart};
ghost use Rattle.mesh_operands.specs.Operands.{combination_of, operand_of};
ghost use Rattle.mesh_operands.specs.Refusals.{IsFirstOperandRefusal, IsReason, IsZoneRefusal};

use crate::operand::{Combination, Operand};
use mesh_drawing::refusal::{PointPlace, Refusal, find_refusal};
use mesh_num::num::convert::widen;
use mesh_num::num::{IntPoint, OverlayInt};
use std::fmt;

/// An operand that may not take part, and why.
#[derive(Debug, Clone, Copy, PartialEq, Eq)]
pub struct OperandRefusal {
    /// Which operand it is.
    pub which: OperandPlace,
    /// Why it may not take part.
    pub why: OperandReason,
}

/// An operand of a combination.
#[derive(Debug, Clone, Copy, PartialEq, Eq)]
pub enum OperandPlace {
    /// The subject of a boolean.
    Subject,
    /// The clip of a boolean.
    Clip,
    /// The zone of this index.
    Zone(usize),
}

/// Why an operand may not take part.
#[derive(Debug, Clone, Copy, PartialEq, Eq)]
pub enum OperandReason {
    /// A point of its contours leaves the safe range.
    Contour(ContourRefusal),
    /// It may not be drawn.
    Drawing(Refusal),
}

/// A point of contours that leaves the safe range.
#[derive(Debug, Clone, Copy, PartialEq, Eq)]
pub struct ContourRefusal {
    /// The point.
    pub place: PointPlace,
    /// The greatest coordinate of the safe range, in grid units; the least has the other sign.
    pub limit: i64,
}

impl fmt::Display for OperandRefusal {
    fn fmt<W: fmt::Write>(&self, f: &mut fmt::Formatter<W>) -> fmt::Result {
        let which = self.which;
        match &self.why {
            OperandReason::Contour(refusal) => write!(f, "{which}{refusal}"),
            OperandReason::Drawing(refusal) => write!(f, "{which}: {refusal}"),
        }
    }
}

impl fmt::Display for OperandPlace {
    fn fmt<W: fmt::Write>(&self, f: &mut fmt::Formatter<W>) -> fmt::Result {
        match self {
            OperandPlace::Subject => write!(f, "subject"),
            OperandPlace::Clip => write!(f, "clip"),
            OperandPlace::Zone(index) => write!(f, "zones[{index}]"),
        }
    }
}

impl fmt::Display for ContourRefusal {
    fn fmt<W: fmt::Write>(&self, f: &mut fmt::Formatter<W>) -> fmt::Result {
        let (path, point) = (self.place.path, self.place.point);
        let limit = self.limit;
        write!(
            f,
            "[{path}][{point}]: it leaves the range from -{limit} to {limit}"
        )
    }
}

/// The first operand that may not take part, and why: the first point of its contours that leaves the safe range, path by
/// path, or where a drawing leaves the range first. The subject comes before the clip, and zones come in their order.
/// `None` exactly where each operand may take part.
pub fn find_operand_refusal<I: OverlayInt>(combination: &Combination<I>) -> Option<OperandRefusal>
    ensures none { result ≡ None ↔ MayBeCombined I.unit (combination_of I.value combination.now) }
    ensures first { IfSome result (IsFirstOperandRefusal I.unit (combination_of I.value combination.now)) }
{
    match combination {
        Combination::Boolean(boolean) => {
            if let Some(refusal) = at_operand(OperandPlace::Subject, &boolean.subject) {
                return Some(refusal);
            }
            at_operand(OperandPlace::Clip, &boolean.clip)
        }
        Combination::Coverage(coverage) => first_zone(&coverage.zones),
        Combination::Overlaps(overlaps) => first_zone(&overlaps.zones),
    }
}

/// The first zone that may not take part.
fn first_zone<I: OverlayInt>(zones: &[Operand<I>]) -> Option<OperandRefusal>
    ensures none { result ≡ None ↔ All (MayTakePart I.unit) (map (operand_of I.value) zones.now) }
    ensures first { IfSome result (IsZoneRefusal I.unit (map (operand_of I.value) zones.now)) }
{
    for (index, zone) in zones.iter().enumerate() {
        if let Some(refusal) = at_operand(OperandPlace::Zone(index), zone) {
            return Some(refusal);
        }
    }
    None
}

/// Why the operand at this place may not take part.
fn at_operand<I: OverlayInt>(which: OperandPlace, operand: &Operand<I>) -> Option<OperandRefusal>
    ensures none { result ≡ None ↔ MayTakePart I.unit (operand_of I.value operand.now) }
    ensures place { IfSome result (λ refusal. refusal.which ≡ which) }
    ensures reason { IfSome result (λ refusal. IsReason I.unit (operand_of I.value operand.now) refusal.why) }
{
    match reason(operand) {
        Some(why) => Some(OperandRefusal { which, why }),
        None => None,
    }
}

/// Why an operand may not take part.
fn reason<I: OverlayInt>(operand: &Operand<I>) -> Option<OperandReason>
    ensures none { result ≡ None ↔ MayTakePart I.unit (operand_of I.value operand.now) }
    ensures reason { IfSome result (IsReason I.unit (operand_of I.value operand.now)) }
{
    match operand {
        Operand::Paths(paths) => match first_point(paths) {
            Some(place) => Some(OperandReason::Contour(ContourRefusal {
                place,
                limit: (widen(I::UNIT) - 1) as i64,
            })),
            None => None,
        },
        Operand::Drawing(drawing) => match find_refusal(drawing) {
            Some(refusal) => Some(OperandReason::Drawing(refusal)),
            None => None,
        },
    }
}

/// The first point of contours that leaves the safe range.
fn first_point<I: OverlayInt>(paths: &[Vec<IntPoint<I>>]) -> Option<PointPlace>
    ensures { IsFirstPlace (IsSafe I.unit) (paths_of paths.now) result }
{
    for (index, path) in paths.iter().enumerate() {
        if let Some(point) = first_in_path(path) {
            return Some(PointPlace { path: index, point });
        }
    }
    None
}

/// The first point of a contour that leaves the safe range.
fn first_in_path<I: OverlayInt>(path: &[IntPoint<I>]) -> Option<usize>
    ensures { IsFirst (IsSafe I.unit) path.now result }
{
    for (index, point) in path.iter().enumerate() {
        if !is_safe(*point) {
            return Some(index);
        }
    }
    None
}

/// Whether a point is in the safe range.
fn is_safe<I: OverlayInt>(point: IntPoint<I>) -> bool
    ensures { IsTrue result ↔ IsSafe I.unit point }
{
    is_small(point.x) && is_small(point.y)
}

/// Whether a coordinate is in the safe range.
fn is_small<I: OverlayInt>(coordinate: I) -> bool
    ensures { IsTrue result ↔ IsSmall I.unit (I.value coordinate) }
{
    widen(coordinate).unsigned_abs() < widen(I::UNIT).unsigned_abs()
}
