//! Values of JSON, and what is looked up in them.

ghost use Rattle.std.specs.Prelude.{◌≡◌, option_map};
ghost use Rattle.serde_json.specs.Find.{as_str};
ghost use Rattle.serde_json.specs.View.{view, items_view, members_view};
ghost use Rattle.serde_json.specs.Written.{has_float as holds_float, items_have_float, members_have_float};
ghost use Rattle.mesh_request.specs.Reading.{coordinate_of, is_word, says as says_text};

use mesh_drawing::coordinate::narrowed;
use mesh_num::num::IntNumber;
use serde_json::{Map, Value};

/// Whether a number in the value is a float, as `serde_json` makes of one with a fraction, an exponent or too many
/// digits.
#[cycle(has_float)]
pub fn has_float(value: &Value) -> bool
    ensures { result ≡ holds_float (view value.now) }
{
    match value {
        Value::Null | Value::Bool(_) | Value::String(_) => false,
        Value::Number(number) => number.is_f64(),
        Value::Array(items) => has_float_in_items(items),
        Value::Object(members) => has_float_in_members(members),
    }
}

#[cycle(has_float)]
fn has_float_in_items(items: &Vec<Value>) -> bool
    ensures { result ≡ items_have_float (items_view items.now.items) }
{
    for item in items {
        if has_float(item) {
            return true;
        }
    }
    false
}

#[cycle(has_float)]
fn has_float_in_members(members: &Map<String, Value>) -> bool
    ensures { result ≡ members_have_float (members_view members.now.entries) }
{
    for member in members.values() {
        if has_float(member) {
            return true;
        }
    }
    false
}

/// Whether a value is this text.
pub fn is_text(value: &Value, text: &str) -> bool
    ensures { result ≡ is_word text.now (as_str (view value.now)) }
{
    match value.as_str() {
        Some(found) => found == text,
        None => false,
    }
}

/// Whether a member of an object is this text.
pub fn says(value: &Value, key: &str, text: &str) -> bool
    ensures { result ≡ says_text key.now text.now (view value.now) }
{
    match value.get(key).and_then(Value::as_str) {
        Some(found) => found == text,
        None => false,
    }
}

/// The coordinate that a value is, a whole number that fits its type.
pub fn coordinate<I: IntNumber>(value: &Value) -> Option<I>
    ensures { option_map (λ c. I.value c) result ≡ coordinate_of I.unit (view value.now) }
{
    narrowed(value.as_i64()? as i128)
}
