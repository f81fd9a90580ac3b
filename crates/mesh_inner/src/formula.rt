//! Radius and step of round joins, chosen by a formula before anything is drawn.

ghost use Rattle.std.specs.Prelude.{◌≡◌, ◌+◌, ◌*◌, ◌^◌, ◌<◌, ◌≤◌, ◌↔◌, IsTrue};
ghost use Rattle.mesh_inner.specs.Formula.{DoesKeep, IsRadiusFor, IsStepFor, cosine};

use mesh_arc::arc::ArcOptions;
use mesh_num::num::Angle;
use mesh_num::num::root::raised_root;

/// The greatest radius of which `inner_reach` tells anything.
const MOST_RADIUS: u128 = 1 << 28;

/// The least radius, in grid units, with which a stroke of `i32` should hold every point within a distance of its path,
/// where its joins are arcs of this greatest step, and its caps too, or it is closed: the least `r` for which `r` times
/// the cosine of half the step is at least one unit more than the distance. `None` where it would be above 2^28.
///
/// It is what the contract says of numbers; that a stroke then holds these points was always so in trials, with radii up
/// to 2^17, but is not proved. `inner_reach` tells it for certain, of a path.
pub fn radius_for(distance: u32, step: Angle) -> Option<u32>
    ensures { IsRadiusFor distance step result }
{
    let wanted = twice_square(u128::from(distance) + 1);
    let radius = raised_root(wanted.div_ceil(one_and_cosine(step)));
    if MOST_RADIUS < radius {
        return None;
    }
    Some(radius as u32)
}

/// The greatest step of arcs by which such a stroke should reach no farther than the tolerance beyond the distance, in
/// grid units: with the radius `distance + tolerance - 1` the formula of `radius_for` still says that it holds every
/// point within the distance. From 2^22 to 2^29 bits; `None` where not even the least step does.
///
/// A finer step does too, unless rounding of cosines has it otherwise: the next step of one bit more does not.
pub fn step_for(distance: u32, tolerance: u32) -> Option<Angle>
    ensures { IsStepFor distance tolerance result }
{
    let radius = u64::from(distance) + u64::from(tolerance.saturating_sub(1));
    let mut low = ArcOptions::MIN_STEP.bits();
    let mut high = ArcOptions::MAX_STEP.bits();
    if !does_keep(distance, low, radius) {
        return None;
    }
    if does_keep(distance, high, radius) {
        return Some(Angle::from_bits(high));
    }
    while low + 1 < high {
        let middle = low + (high - low) / 2;
        if does_keep(distance, middle, radius) {
            low = middle;
        } else {
            high = middle;
        }
    }
    Some(Angle::from_bits(low))
}

/// Whether arcs of a step with this radius keep a distance, by the formula.
fn does_keep(distance: u32, step: u32, radius: u64) -> bool
    requires { radius < 2 ^ 33 }
    ensures { IsTrue result ↔ DoesKeep distance step radius }
{
    let wanted = twice_square(u128::from(distance) + 1);
    let square = u128::from(radius) * u128::from(radius);
    wanted <= square * one_and_cosine(Angle::from_bits(step))
}

/// Twice the square of a length, times 2^30.
fn twice_square(length: u128) -> u128
    requires { length ≤ 2 ^ 32 }
    ensures value { result ≡ 2 ^ 31 * (length * length) }
    ensures size { result ≤ 2 ^ 95 }
{
    (length * length) << 31
}

/// One and the cosine of a step that is brought into the range of steps, times 2^30.
fn one_and_cosine(step: Angle) -> u128
    ensures value { result ≡ 2 ^ 30 + cosine step }
    ensures least { 2 ^ 30 ≤ result }
    ensures most { result ≤ 2 ^ 31 }
{
    let least = ArcOptions::MIN_STEP.bits();
    let most = ArcOptions::MAX_STEP.bits();
    let (_, cosine) = Angle::from_bits(step.bits().max(least).min(most)).sin_cos();
    (1 << 30) + u128::from(cosine.unsigned_abs())
}
