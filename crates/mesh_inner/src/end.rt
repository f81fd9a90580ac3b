//! The ends of an open path: the room that their caps leave. A butt cap has no say.

ghost use Rattle.std.specs.Prelude.{◌≡◌, IfOk, pos, ◌≤ℤ◌};
ghost use Rattle.mesh_num.specs.Rectangle.{IsSafeWidened};
ghost use Rattle.mesh_stroke.specs.Caps.{cap_padding};
ghost use Rattle.mesh_stroke.specs.Kinds.{kind_of};
ghost use Rattle.mesh_inner.specs.Inner.{HasCapRoom};
ghost use Rattle.mesh_inner.specs.Private.Ends.{is_butt};
ghost use Rattle.mesh_inner.specs.Private.Walks.{IsFitEdge, IsLimit};

use crate::joint::with_cap;
use mesh_join::style::IntLineCap;
use mesh_num::num::IntNumber;
use mesh_num::shape::DirectedEdge;
use std::alloc::{AllocError, Global};

/// The lesser of a limit and that of the cap at the end of an edge; a butt cap leaves the limit as it is.
pub(crate) fn with_end<I: IntNumber>(
    limit: i128,
    alloc: Global,
    kind: &IntLineCap<I>,
    edge: DirectedEdge<I>,
    radius: I,
) -> Result<i128, AllocError>
    requires fit { IsFitEdge I.unit (I.value radius) edge }
    requires safe { IsSafeWidened I.unit (cap_padding (kind_of kind.now) (I.value radius)) edge.1 }
    requires sign { pos 0 ≤ℤ I.value radius }
    ensures { IfOk result (λ least. IsLimit least (λ t. (pos t ≤ℤ limit)
        × HasCapRoom I.unit (I.value radius) t (kind_of kind.now) edge)) }
{
    if is_butt(kind) {
        return Ok(limit);
    }
    with_cap(limit, alloc, kind, edge, radius)
}

/// Whether a cap is the butt.
fn is_butt<I: IntNumber>(kind: &IntLineCap<I>) -> bool
    ensures { result ≡ is_butt (kind_of kind.now) }
{
    match kind {
        IntLineCap::Butt => true,
        IntLineCap::Square => false,
        IntLineCap::Round(_) => false,
        IntLineCap::Custom(_) => false,
    }
}
