//! What of a request is ignored, told to people.

use mesh_request::fault::key::Key;
use mesh_request::fault::place::Place;
use mesh_request::json::says;
use serde_json::Value;
use std::io;
use std::io::Write;

/// Keys that an operation has, beside those of each request, and keys that its style may have.
#[derive(Clone, Copy)]
struct KnownKeys {
    own: &'static [Key],
    style: &'static [Key],
}

const OUTLINE: KnownKeys = KnownKeys {
    own: &[Key::Operation, Key::Paths, Key::Style],
    style: &[Key::Outer, Key::Inner, Key::Join, Key::MinTurn],
};

const STROKE: KnownKeys = KnownKeys {
    own: &[Key::Operation, Key::Paths, Key::Style, Key::Closed],
    style: &[
        Key::Width,
        Key::Join,
        Key::MinTurn,
        Key::Side,
        Key::Start,
        Key::End,
    ],
};

const VARIABLE_STROKE: KnownKeys = KnownKeys {
    own: &[Key::Operation, Key::Paths, Key::Style],
    style: &[Key::Arc],
};

const BOOLEAN: &[Key] = &[
    Key::Operation,
    Key::Rule,
    Key::Fill,
    Key::Subject,
    Key::Clip,
];

const COVERAGE: &[Key] = &[Key::Operation, Key::Least, Key::Fill, Key::Zones];

const OVERLAPS: &[Key] = &[Key::Operation, Key::Fill, Key::Zones];

/// Keys that each request has.
const EACH: &[Key] = &[Key::Int, Key::Out];

/// Keys that each request for shapes has.
const EACH_OF_SHAPES: &[Key] = &[Key::Int, Key::Out, Key::Options];

/// The options of a drawing.
const DRAWING_OPTIONS: &[Key] = &[Key::MinArea, Key::Clockwise, Key::Collinear, Key::Distances];

/// The options of a combination.
const COMBINATION_OPTIONS: &[Key] = &[Key::MinArea, Key::Clockwise, Key::Collinear];

const FILLS: &[Key] = &[Key::Subject, Key::Clip];

/// Where an object stands: in a request or one of its operands, and where in that.
#[derive(Clone, Copy, PartialEq, Eq)]
struct At {
    /// The operand, or the request itself.
    operand: Place,
    /// The place in it.
    within: Place,
}

/// A request itself.
const REQUEST: At = At {
    operand: Place::Request,
    within: Place::Request,
};

/// Tells on a stream which keys of a request are ignored, a line each.
pub(crate) fn tell_ignored<E: Write>(errors: &mut E, value: &Value) -> io::Result<()> {
    let has_options = says(value, "out", "shapes");
    let each = if has_options { EACH_OF_SHAPES } else { EACH };
    match combination_keys(value) {
        Some(own) => tell_ignored_of_combination(errors, value, own, each)?,
        None => tell_ignored_of_drawing(errors, value, REQUEST.operand, each)?,
    }
    match known_options(value) {
        Some(options) if has_options => tell_unknown_under(errors, value, Key::Options, options),
        _ => Ok(()),
    }
}

/// Tells which keys of a request that combines operands are ignored, and which keys of its operands.
fn tell_ignored_of_combination<E: Write>(
    errors: &mut E,
    value: &Value,
    own: &[Key],
    each: &[Key],
) -> io::Result<()> {
    tell_unknown(errors, value, REQUEST, own, each)?;
    if says(value, "op", "boolean") {
        tell_unknown_under(errors, value, Key::Fill, FILLS)?;
        tell_ignored_of_operand(errors, value, Key::Subject)?;
        return tell_ignored_of_operand(errors, value, Key::Clip);
    }
    let Some(zones) = value.get("zones").and_then(Value::as_array) else {
        return Ok(());
    };
    for (index, zone) in zones.iter().enumerate() {
        tell_ignored_of_drawing(errors, zone, Place::Zone(index), &[])?;
    }
    Ok(())
}

/// Tells which keys of the operand under a key are ignored.
fn tell_ignored_of_operand<E: Write>(errors: &mut E, value: &Value, key: Key) -> io::Result<()> {
    match value.get(key.text()) {
        Some(operand) => tell_ignored_of_drawing(errors, operand, Place::Member(key), &[]),
        None => Ok(()),
    }
}

/// Tells which keys are ignored of a drawing that is asked for, or is this operand.
fn tell_ignored_of_drawing<E: Write>(
    errors: &mut E,
    value: &Value,
    operand: Place,
    each: &[Key],
) -> io::Result<()> {
    let Some(known) = drawing_keys(value) else {
        return Ok(());
    };
    let within = Place::Request;
    tell_unknown(errors, value, At { operand, within }, known.own, each)?;
    match value.get("style") {
        Some(style) => {
            let within = Place::Member(Key::Style);
            tell_unknown(errors, style, At { operand, within }, known.style, &[])
        }
        None => Ok(()),
    }
}

/// Tells which keys of the object that a request has under a key are none of these.
fn tell_unknown_under<E: Write>(
    errors: &mut E,
    value: &Value,
    key: Key,
    known: &[Key],
) -> io::Result<()> {
    let at = At {
        operand: Place::Request,
        within: Place::Member(key),
    };
    match value.get(key.text()) {
        Some(object) => tell_unknown(errors, object, at, known, &[]),
        None => Ok(()),
    }
}

/// The options of the operation that a value names.
fn known_options(value: &Value) -> Option<&'static [Key]> {
    if combination_keys(value).is_some() {
        Some(COMBINATION_OPTIONS)
    } else if drawing_keys(value).is_some() {
        Some(DRAWING_OPTIONS)
    } else {
        None
    }
}

/// The keys of the drawing that a value names.
fn drawing_keys(value: &Value) -> Option<KnownKeys> {
    if says(value, "op", "outline") {
        Some(OUTLINE)
    } else if says(value, "op", "stroke") {
        Some(STROKE)
    } else if says(value, "op", "variable_stroke") {
        Some(VARIABLE_STROKE)
    } else {
        None
    }
}

/// The keys of the combination that a value names.
fn combination_keys(value: &Value) -> Option<&'static [Key]> {
    if says(value, "op", "boolean") {
        Some(BOOLEAN)
    } else if says(value, "op", "coverage") {
        Some(COVERAGE)
    } else if says(value, "op", "overlaps") {
        Some(OVERLAPS)
    } else {
        None
    }
}

/// Tells which keys of an object are none of these.
fn tell_unknown<E: Write>(
    errors: &mut E,
    object: &Value,
    at: At,
    own: &[Key],
    each: &[Key],
) -> io::Result<()> {
    let Some(members) = object.as_object() else {
        return Ok(());
    };
    for key in members.keys() {
        let key = key.as_str();
        if !is_known(key, own) && !is_known(key, each) {
            tell_place(errors, at)?;
            writeln!(errors, "{key:?} is ignored")?;
        }
    }
    Ok(())
}

/// Tells where an object stands, before what is told of it.
fn tell_place<E: Write>(errors: &mut E, at: At) -> io::Result<()> {
    let At { operand, within } = at;
    match (operand, within) {
        (Place::Request, Place::Request) => Ok(()),
        (Place::Request, within) => write!(errors, "{within}: "),
        (operand, Place::Request) => write!(errors, "{operand}: "),
        (operand, within) => write!(errors, "{operand}.{within}: "),
    }
}

/// Whether a text is one of the keys.
fn is_known(text: &str, known: &[Key]) -> bool {
    known.iter().any(|key| key.text() == text)
}
