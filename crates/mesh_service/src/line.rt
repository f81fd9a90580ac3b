//! What a request asks, drawn or combined, and put into a line.

ghost use Rattle.std.specs.Prelude.{◌≡◌, ◌↔◌, IfOk, string_bytes};
ghost use Rattle.std.specs.Ordering.{int_cmp};
ghost use Rattle.mesh_num.specs.Paths.{paths_of, shapes_of};
ghost use Rattle.mesh_drawing.specs.Drawn.{drawn_of};
ghost use Rattle.mesh_drawing.specs.Order.{by_values};
ghost use Rattle.mesh_drawing.specs.Paddings.{DoesStayInRange};
ghost use Rattle.mesh_request.specs.Typed.{untyped};
ghost use Rattle.mesh_service.specs.Lines.{told_edges_text, where_told};
ghost use Rattle.mesh_service.specs.Private.Asking.{AnswersAs, IsGivenUpAs, ListsAnswer, ListsMeasured};
ghost use Rattle.mesh_service.specs.Private.Asking.{asked_with, is_told};
ghost use Rattle.mesh_service.specs.Requested.{for_drawing, requested_by};
ghost use Rattle.mesh_service.specs.Served.{IsAccepted};

use crate::answer::{edges_line, near_edges_line, told_shapes_line};
use crate::combined::combination_line;
use crate::distances::asked_distances;
use crate::near::Telling;
use crate::text::AnyRequest;
use mesh_drawing::asked::{Answer, Asked, Output};
use mesh_drawing::draw::draw;
use mesh_drawing::drawing::Drawing;
use mesh_num::num::OverlayInt;
use mesh_num::shape::buffer::IntShapes;
use mesh_num::shape::edge::DirectedEdge;
use mesh_offset::error::IntNearnessError;
use mesh_request::request::{Request, TypedRequest};
use std::alloc::{AllocError, Global};

/// The line that answers a request, with what is told beside it. `CoordinateOutOfRange`: what is to be drawn or
/// combined does not stay in the safe range. `OutOfMemory`: memory was refused. `TooManySplits`: more splits were made
/// than the limit.
pub(crate) fn request_line(
    alloc: Global,
    request: &AnyRequest,
    telling: Option<Telling>,
) -> Result<String, IntNearnessError>
    ensures answered { IfOk result (λ line. AnswersAs telling int_cmp (requested_by request.now) (string_bytes line)) }
    ensures refused { result ≡ Err IntNearnessError.CoordinateOutOfRange ↔ ¬ IsAccepted (requested_by request.now) }
    ensures given_up { result ≡ Err IntNearnessError.TooManySplits → IsGivenUpAs telling (requested_by request.now) }
{
    match request {
        AnyRequest::Drawing(request) => drawing_line(alloc, request, telling),
        AnyRequest::Combination(request) => combination_line(alloc, request, telling),
    }
}

/// The same of a request for what is drawn.
fn drawing_line(
    alloc: Global,
    request: &TypedRequest,
    telling: Option<Telling>,
) -> Result<String, IntNearnessError>
    ensures answered { IfOk result (λ line.
        AnswersAs telling int_cmp (for_drawing (untyped request.now)) (string_bytes line)) }
    ensures refused { result ≡ Err IntNearnessError.CoordinateOutOfRange
        ↔ ¬ IsAccepted (for_drawing (untyped request.now)) }
    ensures given_up { result ≡ Err IntNearnessError.TooManySplits
        → IsGivenUpAs telling (for_drawing (untyped request.now)) }
{
    match request {
        TypedRequest::I16(request) => drawn_line(alloc, request, telling),
        TypedRequest::I32(request) => drawn_line(alloc, request, telling),
    }
}

/// The same of a request with coordinates of one type.
fn drawn_line<I: OverlayInt>(
    alloc: Global,
    request: &Request<I>,
    telling: Option<Telling>,
) -> Result<String, IntNearnessError>
    ensures answered { IfOk result (λ line.
        AnswersAs telling (by_values I.cmp I.of_value) (for_drawing request.now) (string_bytes line)) }
    ensures refused { result ≡ Err IntNearnessError.CoordinateOutOfRange ↔ ¬ IsAccepted (for_drawing request.now) }
    ensures given_up { result ≡ Err IntNearnessError.TooManySplits → IsGivenUpAs telling (for_drawing request.now) }
{
    let asked = asked_with(telling, request.output);
    let answer = draw(alloc, &request.drawing, asked)?;
    Ok(answer_line(
        alloc,
        &request.drawing,
        &answer,
        is_told(telling),
        request.distances,
    )?)
}

/// What is asked of a drawing. Where there is a telling, shapes are promised to be exact within some nearness, whether or
/// not it is told.
fn asked_with<U>(telling: Option<Telling>, output: Output<U>) -> Asked<U>
    ensures { result ≡ asked_with telling output }
{
    match telling {
        None => Asked {
            output,
            most_splits: 0,
            nearness: false,
        },
        Some(telling) => Asked {
            output,
            most_splits: telling.most_splits,
            nearness: true,
        },
    }
}

/// Whether the nearness is told.
fn is_told(telling: Option<Telling>) -> bool
    ensures { result ≡ is_told telling }
{
    match telling {
        None => false,
        Some(telling) => telling.nearness,
    }
}

/// The line that lists an answer, with its nearness where that is told, and the distances of shapes where these are asked
/// for.
fn answer_line<I: OverlayInt>(
    alloc: Global,
    drawing: &Drawing<I>,
    answer: &Answer<I>,
    told: bool,
    distances: bool,
) -> Result<String, AllocError>
    requires { DoesStayInRange I.unit (drawn_of I.value drawing.now) }
    ensures { IfOk result (λ line.
        ListsAnswer distances I.unit (drawn_of I.value drawing.now) told answer.now (string_bytes line)) }
{
    match answer {
        Answer::Edges(lists) => told_edges_line(alloc, lists, told),
        Answer::Shapes(shapes) => measured_line(alloc, drawing, shapes, None, distances),
        Answer::NearShapes(near) => {
            let nearness = where_told(told, near.nearness);
            measured_line(alloc, drawing, &near.shapes, nearness, distances)
        }
    }
}

/// The line that lists the edges of each path, with their nearness where that is told: 0, since nothing is split.
fn told_edges_line<I: OverlayInt>(
    alloc: Global,
    paths: &[Vec<DirectedEdge<I>>],
    told: bool,
) -> Result<String, AllocError>
    ensures { IfOk result (λ line. string_bytes line ≡ told_edges_text told (paths_of paths.now)) }
{
    if told {
        near_edges_line(alloc, paths, 0)
    } else {
        edges_line(alloc, paths)
    }
}

/// A number, where it is told.
fn where_told(told: bool, number: u64) -> Option<u64>
    ensures { result ≡ where_told told number }
{
    if told { Some(number) } else { None }
}

/// The line that lists shapes of a drawing, with a nearness where there is one, and their distances where these are asked
/// for.
fn measured_line<I: OverlayInt>(
    alloc: Global,
    drawing: &Drawing<I>,
    shapes: &IntShapes<I>,
    nearness: Option<u64>,
    distances: bool,
) -> Result<String, AllocError>
    requires { DoesStayInRange I.unit (drawn_of I.value drawing.now) }
    ensures { let drawn = drawn_of I.value drawing.now in IfOk result (λ line.
        ListsMeasured distances I.unit drawn nearness (shapes_of shapes.now.items) (string_bytes line)) }
{
    let told = asked_distances(alloc, drawing, shapes, distances)?;
    told_shapes_line(alloc, shapes, nearness, told)
}
