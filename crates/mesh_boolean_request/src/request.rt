//! Requests that combine operands, read from JSON.

ghost use Rattle.std.specs.Prelude.{◌≡◌};
ghost use Rattle.serde_json.specs.View.{view};
ghost use Rattle.mesh_below.specs.Options.{choices_of};
ghost use Rattle.mesh_operands.specs.Operands.{boolean_of, coverage_of, overlaps_of, combination_of};
ghost use Rattle.mesh_request.specs.Errors.{Reads};
ghost use Rattle.mesh_boolean_request.specs.Reading.{names_combination, boolean_in, coverage_in, overlaps_in};
ghost use Rattle.mesh_boolean_request.specs.Reading.{combination_in, choices_asked};
ghost use Rattle.mesh_boolean_request.specs.Reading.{combination_request_as, combination_request_of};
ghost use Rattle.mesh_boolean_request.specs.Typed.{untyped};

use crate::operand::{operand_under, read_zones};
use crate::rule::{fills_in, least_in, rule_in, zone_fill_in};
use mesh_below::below::IntOverlayOptions;
use mesh_num::num::{IntNumber, OverlayInt};
use mesh_operands::operand::{Boolean, Combination, Coverage, Overlaps};
use mesh_request::error::ReadError;
use mesh_request::fault::key::Key;
use mesh_request::fault::member_fault;
use mesh_request::fault::problem::Problem;
use mesh_request::json::says;
use mesh_request::options::read_options;
use serde_json::Value;
use std::alloc::Global;
use std::marker::Model;

/// A request that combines operands. Contracts see it as what it asks.
#[derive(Drop)]
pub struct CombinationRequest<I: OverlayInt> {
    /// What is combined with what, and how.
    pub combination: Combination<I>,
    /// How the shapes are listed.
    pub options: IntOverlayOptions<I::WideUInt>,
}

impl<I: OverlayInt> Model for CombinationRequest<I> {
    ghost use Rattle.mesh_below.specs.Options.{choices_of};
    ghost use Rattle.mesh_operands.specs.Operands.{combination_of};
    ghost use Rattle.mesh_boolean_request.specs.Requests.{RequestedCombination};

    ghost Value = { RequestedCombination };

    ghost view = { λ r. record {
      unit = I.unit;
      combined = combination_of I.value r.combination;
      choices = choices_of I.WideUInt.value r.options;
    } };
}

/// A request that combines operands, with the type of its coordinates.
#[derive(Drop)]
pub enum TypedCombination {
    I16(CombinationRequest<i16>),
    I32(CombinationRequest<i32>),
}

/// Tests whether a value asks for a combination of operands, readable or not: its `op` is `boolean`, `coverage` or
/// `overlaps`.
pub fn asks_for_combination(value: &Value) -> bool
    ensures { result ≡ names_combination (view value.now) }
{
    says(value, "op", "boolean") || says(value, "op", "coverage") || says(value, "op", "overlaps")
}

/// The request that a value is. `Fault`: it is none that combines operands, and here it goes wrong first. `OutOfMemory`:
/// memory was refused.
pub fn read(alloc: Global, value: &Value) -> Result<TypedCombination, ReadError>
    ensures { Reads (view value.now) (combination_request_of (view value.now)) untyped result }
{
    if says(value, "int", "i16") {
        Ok(TypedCombination::I16(read_combination(alloc, value)?))
    } else if says(value, "int", "i32") {
        Ok(TypedCombination::I32(read_combination(alloc, value)?))
    } else if asks_for_combination(value) {
        Err(member_fault(value, Key::Int, Problem::NoCoordinateType))
    } else {
        Err(member_fault(value, Key::Operation, Problem::NoCombination))
    }
}

/// The request with coordinates of one type that a value is, whichever type it names.
pub fn read_combination<I: OverlayInt>(
    alloc: Global,
    value: &Value,
) -> Result<CombinationRequest<I>, ReadError>
    ensures { Reads (view value.now) (combination_request_as I.unit (view value.now)) (λ r. r) result }
{
    let combination = combined(alloc, value)?;
    let options = shape_options::<I>(value)?;
    Ok(CombinationRequest {
        combination,
        options,
    })
}

/// What a request combines: a key of another operation is passed by.
fn combined<I: OverlayInt>(alloc: Global, value: &Value) -> Result<Combination<I>, ReadError>
    ensures { Reads (view value.now) (combination_in I.unit (view value.now)) (combination_of I.value) result }
{
    if says(value, "op", "boolean") {
        Ok(Combination::Boolean(read_boolean(alloc, value)?))
    } else if says(value, "op", "coverage") {
        Ok(Combination::Coverage(read_coverage(alloc, value)?))
    } else if says(value, "op", "overlaps") {
        Ok(Combination::Overlaps(read_overlaps(alloc, value)?))
    } else {
        Err(member_fault(value, Key::Operation, Problem::NoCombination))
    }
}

fn read_boolean<I: OverlayInt>(alloc: Global, request: &Value) -> Result<Boolean<I>, ReadError>
    ensures { Reads (view request.now) (boolean_in I.unit (view request.now)) (boolean_of I.value) result }
{
    let rule = rule_in(request)?;
    let fill = fills_in(request)?;
    let subject = operand_under(alloc, request, Key::Subject)?;
    let clip = operand_under(alloc, request, Key::Clip)?;
    Ok(Boolean {
        subject,
        clip,
        rule,
        fill,
    })
}

fn read_coverage<I: OverlayInt>(alloc: Global, request: &Value) -> Result<Coverage<I>, ReadError>
    ensures { Reads (view request.now) (coverage_in I.unit (view request.now)) (coverage_of I.value) result }
{
    let least = least_in(request)?;
    let fill = zone_fill_in(request)?;
    let zones = read_zones(alloc, request)?;
    Ok(Coverage { zones, least, fill })
}

fn read_overlaps<I: OverlayInt>(alloc: Global, request: &Value) -> Result<Overlaps<I>, ReadError>
    ensures { Reads (view request.now) (overlaps_in I.unit (view request.now)) (overlaps_of I.value) result }
{
    let fill = zone_fill_in(request)?;
    let zones = read_zones(alloc, request)?;
    Ok(Overlaps { zones, fill })
}

/// How the shapes of a request are listed. Nothing else is listed of combinations.
fn shape_options<I: IntNumber>(value: &Value) -> Result<IntOverlayOptions<I::WideUInt>, ReadError>
    ensures { let asked = choices_asked I.unit (view value.now) in
        Reads (view value.now) asked (choices_of I.WideUInt.value) result }
{
    if says(value, "out", "shapes") {
        read_options::<I>(value)
    } else {
        Err(member_fault(value, Key::Out, Problem::NoShapes))
    }
}
