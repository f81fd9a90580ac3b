//! Options of the overlay, read from JSON.

ghost use Rattle.std.specs.Prelude.{◌≡◌, codes, option_map};
ghost use Rattle.serde_json.specs.Find.{get};
ghost use Rattle.serde_json.specs.View.{view};
ghost use Rattle.mesh_below.specs.Options.{choices_of, is_clockwise};
ghost use Rattle.mesh_request.specs.Errors.{Reads};
ghost use Rattle.mesh_request.specs.Reading.{area_of, flag_of, choices_in, choices_given, distances_given};

use crate::error::ReadError;
use crate::fault::key::Key;
use crate::fault::problem::Problem;
use crate::fault::{inner_fault, member_fault};
use mesh_below::below::{ContourDirection, IntOverlayOptions};
use mesh_drawing::coordinate::narrowed_area;
use mesh_num::num::{IntNumber, WideUnsigned};
use serde_json::Value;

/// The options that a request gives, the default ones where there are none.
pub fn read_options<I: IntNumber>(
    request: &Value,
) -> Result<IntOverlayOptions<I::WideUInt>, ReadError>
    ensures { let given = choices_given I.unit (get (codes "options") (view request.now)) in
        Reads (view request.now) given (choices_of I.WideUInt.value) result }
{
    let Some(options) = request.get("options") else {
        return Ok(IntOverlayOptions::new());
    };
    if !options.is_object() {
        return Err(member_fault(request, Key::Options, Problem::NoObject));
    }
    members::<I>(request, options)
}

/// The options that an object of a request gives.
fn members<I: IntNumber>(
    request: &Value,
    options: &Value,
) -> Result<IntOverlayOptions<I::WideUInt>, ReadError>
    ensures { let given = choices_in I.unit (view options.now) in
        Reads (view request.now) given (choices_of I.WideUInt.value) result }
{
    let Some(min_output_area) = least_area::<I>(options.get("min_area")) else {
        return Err(inner_fault(request, Key::Options, Key::MinArea, Problem::NoArea));
    };
    let Some(clockwise) = flag(options.get("clockwise")) else {
        return Err(inner_fault(request, Key::Options, Key::Clockwise, Problem::NoBool));
    };
    let Some(preserve_output_collinear) = flag(options.get("collinear")) else {
        return Err(inner_fault(request, Key::Options, Key::Collinear, Problem::NoBool));
    };
    Ok(IntOverlayOptions {
        min_output_area,
        output_direction: direction(clockwise),
        preserve_output_collinear,
    })
}

/// Whether the options of a request ask for distances; they do not where there are none.
pub(crate) fn read_distances(request: &Value) -> Result<bool, ReadError>
    ensures { let given = distances_given (get (codes "options") (view request.now)) in
        Reads (view request.now) given (λ told. told) result }
{
    let Some(told) = distances(request.get("options")) else {
        return Err(inner_fault(request, Key::Options, Key::Distances, Problem::NoBool));
    };
    Ok(told)
}

/// Whether options ask for distances.
fn distances(options: Option<&Value>) -> Option<bool>
    ensures { result ≡ distances_given (option_map (λ v. view v.now) options.entry) }
{
    match options {
        Some(options) => flag(options.get("distances")),
        None => Some(false),
    }
}

/// The area that a value is, a whole number without sign that fits its type; 0 where there is none.
fn least_area<I: IntNumber>(value: Option<&Value>) -> Option<I::WideUInt>
    ensures { option_map (λ a. I.WideUInt.value a) result ≡ area_of I.unit (option_map (λ v. view v.now) value.entry) }
{
    match value {
        Some(area) => narrowed_area::<I>(area.as_u64()? as u128),
        None => Some(I::WideUInt::from_u128(0)),
    }
}

/// What a value says, false where there is none.
pub(crate) fn flag(value: Option<&Value>) -> Option<bool>
    ensures { result ≡ flag_of (option_map (λ v. view v.now) value.entry) }
{
    match value {
        Some(said) => said.as_bool(),
        None => Some(false),
    }
}

fn direction(clockwise: bool) -> ContourDirection
    ensures { is_clockwise result ≡ clockwise }
{
    if clockwise {
        ContourDirection::Clockwise
    } else {
        ContourDirection::CounterClockwise
    }
}
