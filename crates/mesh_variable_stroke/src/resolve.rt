//! The edges of the strokes of all paths.

ghost use Rattle.std.specs.Prelude.{◌≡◌, IfOk};
ghost use Rattle.mesh_below.specs.Asked.{AreResolvable};
ghost use Rattle.mesh_offset.specs.Built.{AreBuilt};
ghost use Rattle.mesh_variable_stroke.specs.VariableStrokes.{variable_stroke_edges};
ghost use Rattle.mesh_variable_stroke.specs.Strokable.{ArePathsStrokable};

use crate::builder::VariableStrokeBuilder;
use crate::resource::IntVariableStrokeSource;
use mesh_below::below::{IntOverlayOptions, Overlay};
use mesh_join::style::IntVariableStrokeStyle;
use mesh_num::num::IntNumber;
use mesh_num::shape::segment::Segment;
use std::alloc::{AllocError, Global};

/// The edges of the strokes of all paths of the source, to be resolved with these options.
pub(crate) fn stroke_overlay<I: IntNumber, S: IntVariableStrokeSource<I>>(
    source: &S,
    alloc: Global,
    style: IntVariableStrokeStyle,
    options: IntOverlayOptions<I::WideUInt>,
) -> Result<Overlay<I>, AllocError>
    requires { ArePathsStrokable I.unit (S.paths source.now) }
    ensures built { IfOk result (λ overlay. AreBuilt (variable_stroke_edges I.unit style.arc)
        (S.paths source.now) overlay.segments.items) }
    ensures options { IfOk result (λ overlay. overlay.options ≡ options) }
    ensures resolvable { IfOk result (λ overlay. AreResolvable I.unit overlay.segments.items) }
{
    let mut overlay = Overlay::with_segments(stroke_segments(source, alloc, style)?);
    overlay.options = options;
    Ok(overlay)
}

/// The segments of the strokes of all paths of the source, one path after another.
fn stroke_segments<I: IntNumber, S: IntVariableStrokeSource<I>>(
    source: &S,
    alloc: Global,
    style: IntVariableStrokeStyle,
) -> Result<Vec<Segment<I>>, AllocError>
    requires { ArePathsStrokable I.unit (S.paths source.now) }
    ensures { IfOk result (λ segments. AreBuilt (variable_stroke_edges I.unit style.arc)
        (S.paths source.now) segments.items) }
{
    let mut segments = Vec::new(alloc);
    let mut builder = VariableStrokeBuilder::new(alloc, style);
    for index in 0..source.path_count() {
        builder.build(source.path_at(index), &mut segments)?;
    }
    Ok(segments)
}
