//! A request that is read once and answered again and again, to measure what the library does in one process.

use crate::BenchError;
use mesh_boolean_request::request::{CombinationRequest, TypedCombination};
use mesh_drawing::asked::{Answer, Asked};
use mesh_drawing::draw::draw;
use mesh_num::num::OverlayInt;
use mesh_operands::combine::{CombinedAnswer, combine};
use mesh_request::request::{Request, TypedRequest};
use mesh_service::input::read_to_end;
use mesh_service::text::{AnyRequest, ReadText, read_text};
use std::alloc::Global;

/// How many shapes or lists of edges are drawn.
fn drawn<I: OverlayInt>(alloc: Global, request: &Request<I>) -> Result<usize, BenchError> {
    let asked = Asked {
        output: request.output,
        most_splits: 0,
        nearness: false,
    };
    match draw(alloc, &request.drawing, asked)? {
        Answer::Edges(lists) => Ok(lists.len()),
        Answer::Shapes(shapes) => Ok(shapes.len()),
        Answer::NearShapes(near) => Ok(near.shapes.len()),
    }
}

/// How many shapes, or pairs of zones that overlap, are made of operands.
fn combined<I: OverlayInt>(
    alloc: Global,
    request: &CombinationRequest<I>,
) -> Result<usize, BenchError> {
    match combine(alloc, &request.combination, request.options)? {
        CombinedAnswer::Shapes(shapes) => Ok(shapes.len()),
        CombinedAnswer::Overlaps(pairs) => Ok(pairs.len()),
    }
}

/// How many parts the answer of a request has, whose numbers are `i32`.
fn answer(alloc: Global, request: &AnyRequest) -> Result<usize, BenchError> {
    match request {
        AnyRequest::Drawing(TypedRequest::I32(drawing)) => drawn(alloc, drawing),
        AnyRequest::Combination(TypedCombination::I32(combination)) => combined(alloc, combination),
        AnyRequest::Drawing(TypedRequest::I16(_))
        | AnyRequest::Combination(TypedCombination::I16(_)) => Err(BenchError::Request),
    }
}

/// The request on standard input.
pub(crate) fn read_input(rt: &HostRuntime) -> Result<AnyRequest, BenchError> {
    let bytes = read_to_end(rt.alloc(), &mut rt.stdin())?;
    let ReadText {
        value: _value,
        request,
    } = read_text(rt.alloc(), &bytes);
    match request {
        Ok(request) => Ok(request),
        Err(_) => Err(BenchError::Request),
    }
}

/// Answers the request on standard input, whose numbers are `i32`, so many times. Standard error tells when it begins,
/// and after 1, 10, 100 times and so on, so that a run that takes long shows how far it is.
pub(crate) fn answer_again(rt: &HostRuntime, count: u64) -> Result<(), BenchError> {
    let request = read_input(rt)?;
    eprintln!(rt; "answering {count} times")?;
    let mut told: u64 = 1;
    let mut found: usize = 0;
    for number in 0..count {
        found = answer(rt.alloc(), &request)?;
        if number + 1 == told {
            eprintln!(rt; "answered {told} of {count} times")?;
            told = told.saturating_mul(10);
        }
    }
    println!(rt; "answered {count} times: {found} shapes, lists of edges or pairs")?;
    Ok(())
}
