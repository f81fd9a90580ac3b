//! The edges of the strokes of all paths.

ghost use Rattle.std.specs.Prelude.{◌≡◌, IfOk};
ghost use Rattle.mesh_below.specs.Asked.{AreResolvable};
ghost use Rattle.mesh_offset.specs.Built.{AreBuilt};
ghost use Rattle.mesh_offset.specs.Padding.{ArePathsSafe};
ghost use Rattle.mesh_stroke.specs.Strokes.{stroke_edges};
ghost use Rattle.mesh_stroke.specs.Styles.{stroke_padding, stroke_style_of};

use crate::builder::StrokeBuilder;
use mesh_below::below::{IntOverlayOptions, Overlay};
use mesh_join::style::IntStrokeStyle;
use mesh_num::num::IntNumber;
use mesh_num::shape::resource::IntShapeResource;
use mesh_num::shape::segment::Segment;
use std::alloc::{AllocError, Global};

/// The edges of the strokes of all paths of the source, to be resolved with these options.
pub(crate) fn stroke_overlay<I: IntNumber, S: IntShapeResource<I>>(
    source: &S,
    alloc: Global,
    style: &IntStrokeStyle<I>,
    closed: bool,
    options: IntOverlayOptions<I::WideUInt>,
) -> Result<Overlay<I>, AllocError>
    requires { ArePathsSafe I.unit (stroke_padding (stroke_style_of I.value style.now)) (S.paths source.now) }
    ensures built { IfOk result (λ overlay. AreBuilt (stroke_edges I.unit (stroke_style_of I.value style.now) closed)
        (S.paths source.now) overlay.segments.items) }
    ensures options { IfOk result (λ overlay. overlay.options ≡ options) }
    ensures resolvable { IfOk result (λ overlay. AreResolvable I.unit overlay.segments.items) }
{
    let mut overlay = Overlay::with_segments(stroke_segments(source, alloc, style, closed)?);
    overlay.options = options;
    Ok(overlay)
}

/// The segments of the strokes of all paths of the source, one path after another.
fn stroke_segments<I: IntNumber, S: IntShapeResource<I>>(
    source: &S,
    alloc: Global,
    style: &IntStrokeStyle<I>,
    closed: bool,
) -> Result<Vec<Segment<I>>, AllocError>
    requires { ArePathsSafe I.unit (stroke_padding (stroke_style_of I.value style.now)) (S.paths source.now) }
    ensures { IfOk result (λ segments. AreBuilt (stroke_edges I.unit (stroke_style_of I.value style.now) closed)
        (S.paths source.now) segments.items) }
{
    let mut segments = Vec::new(alloc);
    let mut builder = StrokeBuilder::new(alloc, style);
    for index in 0..source.path_count() {
        builder.build(source.path_at(index), closed, &mut segments)?;
    }
    Ok(segments)
}
