//! Joins, arcs and angles, read from JSON.

ghost use Rattle.std.specs.Prelude.{◌≡◌, codes, option_map};
ghost use Rattle.serde_json.specs.Find.{get};
ghost use Rattle.serde_json.specs.View.{view};
ghost use Rattle.mesh_request.specs.Errors.{Reads};
ghost use Rattle.mesh_request.specs.Reading.{join_of, round_options_of, arc_options_of, sole_in, angle_of};
ghost use Rattle.mesh_request.specs.Reading.{small_number_of, min_turn_of};

use crate::error::ReadError;
use crate::fault::inner_fault;
use crate::fault::key::Key;
use crate::fault::problem::Problem;
use crate::json::is_text;
use mesh_join::arc::ArcOptions;
use mesh_join::style::{DEFAULT_MITER_MIN_TURN, IntLineJoin};
use mesh_num::num::Angle;
use serde_json::Value;

/// What is needed of a value that names no join.
pub(crate) const NO_JOIN: &str =
    "\"bevel\", {\"miter\": BITS} or {\"round\": [BITS, PRECISION]} is needed";

/// The kind of join that the style of a request names, a bevel where there is none.
pub(crate) fn join_in(request: &Value, style: &Value) -> Result<IntLineJoin, ReadError>
    ensures { Reads (view request.now) (join_of (get (codes "join") (view style.now))) (λ j. j) result }
{
    let join = style.get("join");
    match line_join(join) {
        Some(join) => Ok(join),
        None => {
            let problem = join_problem(join);
            Err(inner_fault(request, Key::Style, Key::Join, problem))
        }
    }
}

/// The kind of join that a value names, a bevel where there is none.
fn line_join(value: Option<&Value>) -> Option<IntLineJoin>
    ensures { result ≡ join_of (option_map (λ v. view v.now) value.entry) }
{
    let Some(value) = value else {
        return Some(IntLineJoin::Bevel);
    };
    if is_text(value, "bevel") {
        return Some(IntLineJoin::Bevel);
    }
    if value.get("miter").is_some() {
        return Some(IntLineJoin::Miter(angle(sole_member(value, "miter")?)?));
    }
    Some(IntLineJoin::Round(round_options(value)?))
}

/// The options of the arcs of a round join or cap.
pub fn round_options(value: &Value) -> Option<ArcOptions>
    ensures { result ≡ round_options_of (view value.now) }
{
    arc_options(sole_member(value, "round")?)
}

/// The options of an arc that a value gives.
pub fn arc_options(value: &Value) -> Option<ArcOptions>
    ensures { result ≡ arc_options_of (view value.now) }
{
    let numbers = value.as_array()?;
    if numbers.len() != 2 {
        return None;
    }
    let max_step = angle(&numbers[0])?;
    let rotation_precision = small_number(&numbers[1])?;
    Some(ArcOptions {
        max_step,
        rotation_precision,
    })
}

/// What an object holds under a key, where it has no other.
pub fn sole_member<'a>(value: &'a Value, key: &str) -> Option<&'a Value>
    ensures { option_map (λ v. view v.now) result ≡ sole_in key.now (view value.now) }
{
    if value.as_object()?.len() != 1 {
        return None;
    }
    value.get(key)
}

/// The angle of as many bits as a value says.
fn angle(value: &Value) -> Option<Angle>
    ensures { result ≡ angle_of (view value.now) }
{
    Some(Angle::from_bits(small_number(value)?))
}

/// The whole number of 32 bits without sign that a value is.
pub fn small_number(value: &Value) -> Option<u32>
    ensures { result ≡ small_number_of (view value.now) }
{
    let number = value.as_u64()?;
    if number < 1 << 32 {
        Some(number as u32)
    } else {
        None
    }
}

/// The turn below which the style of a request asks for a bevel in place of a miter, the default one where it has none.
pub(crate) fn turn_in(request: &Value, style: &Value) -> Result<Angle, ReadError>
    ensures { Reads (view request.now) (min_turn_of (get (codes "min_turn") (view style.now))) (λ a. a) result }
{
    let Some(turn) = style.get("min_turn") else {
        return Ok(Angle::from_bits(DEFAULT_MITER_MIN_TURN));
    };
    match angle(turn) {
        Some(turn) => Ok(turn),
        None => Err(inner_fault(request, Key::Style, Key::MinTurn, Problem::NoBits)),
    }
}

/// What is wrong with a value that names no join.
fn join_problem(join: Option<&Value>) -> Problem {
    let Some(join) = join else {
        return Problem::NoJoin;
    };
    if is_text(join, "miter") || join.get("miter").is_some() {
        return match has_more_keys(join) {
            true => Problem::MoreKeys,
            false => Problem::NoMiterBits,
        };
    }
    if is_text(join, "round") || join.get("round").is_some() {
        return round_problem(join);
    }
    Problem::NoJoin
}

/// What is wrong with a round join or cap.
pub(crate) fn round_problem(value: &Value) -> Problem {
    if has_more_keys(value) {
        Problem::MoreKeys
    } else {
        Problem::NoRoundOptions
    }
}

/// Whether a value is an object with more keys than one.
fn has_more_keys(value: &Value) -> bool {
    match value.as_object() {
        Some(members) => members.len() > 1,
        None => false,
    }
}
