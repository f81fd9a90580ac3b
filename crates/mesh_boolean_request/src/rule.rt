//! Rules of booleans, fill rules and numbers of zones, read from JSON.

ghost use Rattle.std.specs.Prelude.{◌≡◌, codes, option_and_then};
ghost use Rattle.serde_json.specs.Find.{get};
ghost use Rattle.serde_json.specs.View.{view};
ghost use Rattle.mesh_request.specs.Errors.{Reads};
ghost use Rattle.mesh_boolean_request.specs.Reading.{rule_of, fill_rule_of, fill_alike, fill_in, fill_given};
ghost use Rattle.mesh_boolean_request.specs.Reading.{fill_rule_given, least_of};

use mesh_boolean::rule::{BooleanFill, BooleanFillRule, BooleanRule};
use mesh_request::error::ReadError;
use mesh_request::fault::key::Key;
use mesh_request::fault::problem::Problem;
use mesh_request::fault::{inner_fault, member_fault};
use mesh_request::json::is_text;
use mesh_request::request::joins::small_number;
use serde_json::Value;

/// The rule of booleans that a request names.
pub(crate) fn rule_in(request: &Value) -> Result<BooleanRule, ReadError>
    ensures { let asked = option_and_then rule_of (get (codes "rule") (view request.now)) in
        Reads (view request.now) asked (λ r. r) result }
{
    match request.get("rule").and_then(boolean_rule) {
        Some(rule) => Ok(rule),
        None => Err(member_fault(request, Key::Rule, Problem::NoRule)),
    }
}

/// The rule of booleans that a value names.
fn boolean_rule(value: &Value) -> Option<BooleanRule>
    ensures { result ≡ rule_of (view value.now) }
{
    if is_text(value, "subject") {
        Some(BooleanRule::Subject)
    } else if is_text(value, "clip") {
        Some(BooleanRule::Clip)
    } else if is_text(value, "intersect") {
        Some(BooleanRule::Intersect)
    } else if is_text(value, "union") {
        Some(BooleanRule::Union)
    } else if is_text(value, "difference") {
        Some(BooleanRule::Difference)
    } else if is_text(value, "inverse_difference") {
        Some(BooleanRule::InverseDifference)
    } else if is_text(value, "xor") {
        Some(BooleanRule::Xor)
    } else {
        None
    }
}

/// The fill rules of a subject and a clip that a request names, other windings than 0 where it names none.
pub(crate) fn fills_in(request: &Value) -> Result<BooleanFill, ReadError>
    ensures { let asked = fill_given (get (codes "fill") (view request.now)) in
        Reads (view request.now) asked (λ f. f) result }
{
    let Some(fill) = request.get("fill") else {
        return Ok(alike(BooleanFillRule::NonZero));
    };
    if fill.is_object() {
        return both_fills(request, fill);
    }
    match fill_rule(fill) {
        Some(rule) => Ok(alike(rule)),
        None => Err(member_fault(request, Key::Fill, Problem::NoFills)),
    }
}

/// The fill rules that an object of a request names.
fn both_fills(request: &Value, fill: &Value) -> Result<BooleanFill, ReadError>
    ensures { Reads (view request.now) (fill_in (view fill.now)) (λ f. f) result }
{
    let Some(subject) = fill.get("subject").and_then(fill_rule) else {
        return Err(inner_fault(request, Key::Fill, Key::Subject, Problem::NoFill));
    };
    let Some(clip) = fill.get("clip").and_then(fill_rule) else {
        return Err(inner_fault(request, Key::Fill, Key::Clip, Problem::NoFill));
    };
    Ok(BooleanFill { subject, clip })
}

/// The same fill rule for a subject and a clip.
fn alike(rule: BooleanFillRule) -> BooleanFill
    ensures { result ≡ fill_alike rule }
{
    BooleanFill {
        subject: rule,
        clip: rule,
    }
}

/// The fill rule of all zones that a request names, other windings than 0 where it names none.
pub(crate) fn zone_fill_in(request: &Value) -> Result<BooleanFillRule, ReadError>
    ensures { let asked = fill_rule_given (get (codes "fill") (view request.now)) in
        Reads (view request.now) asked (λ r. r) result }
{
    let Some(fill) = request.get("fill") else {
        return Ok(BooleanFillRule::NonZero);
    };
    match fill_rule(fill) {
        Some(rule) => Ok(rule),
        None => Err(member_fault(request, Key::Fill, Problem::NoFill)),
    }
}

/// The fill rule that a value names.
fn fill_rule(value: &Value) -> Option<BooleanFillRule>
    ensures { result ≡ fill_rule_of (view value.now) }
{
    if is_text(value, "even_odd") {
        Some(BooleanFillRule::EvenOdd)
    } else if is_text(value, "non_zero") {
        Some(BooleanFillRule::NonZero)
    } else if is_text(value, "positive") {
        Some(BooleanFillRule::Positive)
    } else if is_text(value, "negative") {
        Some(BooleanFillRule::Negative)
    } else {
        None
    }
}

/// How many zones at least a request asks for.
pub(crate) fn least_in(request: &Value) -> Result<u32, ReadError>
    ensures { let asked = option_and_then least_of (get (codes "least") (view request.now)) in
        Reads (view request.now) asked (λ n. n) result }
{
    match request.get("least").and_then(least_zones) {
        Some(least) => Ok(least),
        None => Err(member_fault(request, Key::Least, Problem::NoLeast)),
    }
}

/// The number of zones that a value is, from 1 on.
fn least_zones(value: &Value) -> Option<u32>
    ensures { result ≡ least_of (view value.now) }
{
    let least = small_number(value)?;
    if least > 0 { Some(least) } else { None }
}
