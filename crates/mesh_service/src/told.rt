//! What people are told of a run, beside its line: why there is no answer, and what of the request is ignored.

use crate::ignored::tell_ignored;
use crate::service::Status;
use crate::text::{AnyRequest, ReadText, TextError};
use i_overlay_mesh::outline::area::double_area;
use mesh_boolean_request::request::TypedCombination;
use mesh_drawing::drawing::Drawing;
use mesh_drawing::refusal::find_refusal;
use mesh_num::num::OverlayInt;
use mesh_operands::operand::{Combination, Operand};
use mesh_operands::refusal::{OperandPlace, find_operand_refusal};
use mesh_request::failure::Failure;
use mesh_request::request::{Request, TypedRequest};
use std::io;
use std::io::Write;

/// What is told of an outline that has no polygons, since its contours run the wrong way.
const HOLES_ALONE: &str =
    "each contour runs clockwise, as a hole does; outer contours run counterclockwise";

/// Tells on a stream why a run on what was read ended so, one line, and what of the request is ignored, a line each.
pub(crate) fn tell<E: Write>(
    errors: &mut E,
    read: &Result<ReadText, Failure>,
    status: Status,
) -> io::Result<()> {
    match read {
        Err(Failure::Unreadable) => writeln!(errors, "the input cannot be read")?,
        Err(Failure::Refused(_)) => writeln!(errors, "memory ran out")?,
        Ok(text) => tell_of_text(errors, text, status)?,
    }
    if status == Status::Unwritten {
        writeln!(errors, "the answer cannot be written")?;
    }
    errors.flush()
}

fn tell_of_text<E: Write>(errors: &mut E, text: &ReadText, status: Status) -> io::Result<()> {
    match &text.request {
        Ok(AnyRequest::Drawing(request)) => tell_of_drawing(errors, request, status)?,
        Ok(AnyRequest::Combination(request)) => tell_of_combination(errors, request, status)?,
        Err(TextError::OutOfMemory) => writeln!(errors, "memory ran out")?,
        Err(TextError::NoRequest(reason)) => {
            if status == Status::Unreadable {
                writeln!(errors, "{reason}")?;
            }
        }
    }
    match &text.value {
        Some(value) => tell_ignored(errors, value),
        None => Ok(()),
    }
}

/// Tells of a request for what is drawn.
fn tell_of_drawing<E: Write>(
    errors: &mut E,
    request: &TypedRequest,
    status: Status,
) -> io::Result<()> {
    match request {
        TypedRequest::I16(request) => tell_of_request(errors, request, status),
        TypedRequest::I32(request) => tell_of_request(errors, request, status),
    }
}

/// Tells of a request for what is made of operands.
fn tell_of_combination<E: Write>(
    errors: &mut E,
    request: &TypedCombination,
    status: Status,
) -> io::Result<()> {
    match request {
        TypedCombination::I16(request) => tell_of_made(errors, &request.combination, status),
        TypedCombination::I32(request) => tell_of_made(errors, &request.combination, status),
    }
}

/// Tells why operands are refused, and of which outlines among them all contours are holes.
fn tell_of_made<I: OverlayInt, E: Write>(
    errors: &mut E,
    combination: &Combination<I>,
    status: Status,
) -> io::Result<()> {
    if status == Status::Refused {
        return tell_refusal(errors, combination);
    }
    match combination {
        Combination::Boolean(boolean) => {
            tell_of_operand(errors, OperandPlace::Subject, &boolean.subject)?;
            tell_of_operand(errors, OperandPlace::Clip, &boolean.clip)
        }
        Combination::Coverage(coverage) => tell_of_zones(errors, &coverage.zones),
        Combination::Overlaps(overlaps) => tell_of_zones(errors, &overlaps.zones),
    }
}

fn tell_of_zones<I: OverlayInt, E: Write>(errors: &mut E, zones: &[Operand<I>]) -> io::Result<()> {
    for (index, zone) in zones.iter().enumerate() {
        tell_of_operand(errors, OperandPlace::Zone(index), zone)?;
    }
    Ok(())
}

fn tell_of_operand<I: OverlayInt, E: Write>(
    errors: &mut E,
    place: OperandPlace,
    operand: &Operand<I>,
) -> io::Result<()> {
    match operand {
        Operand::Drawing(drawing) if has_holes_alone(drawing) => {
            let told = HOLES_ALONE;
            writeln!(errors, "{place}.paths: {told}")
        }
        _ => Ok(()),
    }
}

/// Tells why operands are refused.
fn tell_refusal<I: OverlayInt, E: Write>(
    errors: &mut E,
    combination: &Combination<I>,
) -> io::Result<()> {
    match find_operand_refusal(combination) {
        Some(refusal) => writeln!(errors, "{refusal}"),
        None => writeln!(errors, "memory ran out"),
    }
}

/// Tells why a request is refused, and where all its contours are holes.
fn tell_of_request<I: OverlayInt, E: Write>(
    errors: &mut E,
    request: &Request<I>,
    status: Status,
) -> io::Result<()> {
    if status == Status::Refused {
        return match find_refusal(&request.drawing) {
            Some(refusal) => writeln!(errors, "{refusal}"),
            None => writeln!(errors, "memory ran out"),
        };
    }
    if has_holes_alone(&request.drawing) {
        let told = HOLES_ALONE;
        writeln!(errors, "paths: {told}")?;
    }
    Ok(())
}

/// Whether a drawing is the outline of contours that are all holes, and there is one.
fn has_holes_alone<I: OverlayInt>(drawing: &Drawing<I>) -> bool {
    let Drawing::Outline(outline) = drawing else {
        return false;
    };
    !outline.paths.is_empty() && outline.paths.iter().all(|path| double_area(path) < 0)
}
