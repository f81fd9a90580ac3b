//! How near to the drawn edges the answer to a request is exact, and by how many splits.

use crate::BenchError;
use crate::requests::read_input;
use i_overlay_mesh::{
    IntNearnessError, IntOutlineOffset, IntStrokeOffset, IntVariableStrokeOffset, NearShapes,
    SplitCount,
};
use mesh_below::below::IntOverlayOptions;
use mesh_drawing::drawing::Drawing;
use mesh_num::num::OverlayInt;
use mesh_request::request::TypedRequest;
use mesh_service::text::AnyRequest;
use std::alloc::Global;

/// The shapes with the default options, and how near they are exact.
fn answer<I: OverlayInt>(
    alloc: Global,
    drawing: &Drawing<I>,
    count: &mut SplitCount,
) -> Result<NearShapes<I>, IntNearnessError> {
    let options = IntOverlayOptions::new();
    match drawing {
        Drawing::Outline(outline) => {
            outline.paths.validate_outline(&outline.style)?;
            outline
                .paths
                .outline_with_nearness(alloc, &outline.style, options, count)
        }
        Drawing::Stroke(stroke) => {
            stroke.paths.validate_stroke(&stroke.style)?;
            let (style, closed) = (&stroke.style, stroke.closed);
            stroke
                .paths
                .stroke_with_nearness(alloc, style, closed, options, count)
        }
        Drawing::VariableStroke(stroke) => {
            stroke.paths.validate_variable_stroke()?;
            stroke
                .paths
                .variable_stroke_with_nearness(alloc, stroke.style, options, count)
        }
    }
}

/// Tells the nearness of the answer to the request on standard input, which is for what is drawn and whose numbers are
/// `i32`, with a limit on splits.
pub(crate) fn tell_nearness(rt: &HostRuntime, most_splits: u64) -> Result<(), BenchError> {
    let AnyRequest::Drawing(TypedRequest::I32(request)) = read_input(rt)? else {
        return Err(BenchError::Request);
    };
    let mut count = SplitCount::new(most_splits);
    let near = answer(rt.alloc(), &request.drawing, &mut count)?;
    println!(rt; "{} 64ths of a unit, {} splits", near.nearness, count.made)?;
    Ok(())
}
