//! Why a text holds no request, asked of the text.

ghost use Rattle.std.specs.Prelude.{◌≡◌, ◌↔◌, None, IfOk, IfSome};
ghost use Rattle.mesh_service.specs.Private.Told.{reason_of};
ghost use Rattle.mesh_service.specs.Reasons.{HoldsRequest, LiesIn};

use crate::reason::Reason;
use crate::text::{TextError, read_text};
use std::alloc::{AllocError, Global};

/// Why the text holds no request that is served: `None` exactly where it holds one. The place of a reason lies in the
/// text. It fails only where memory is refused.
pub fn why(alloc: Global, text: &[u8]) -> Result<Option<Reason>, AllocError>
    ensures exact { IfOk result (λ reason. reason ≡ None ↔ HoldsRequest text.now) }
    ensures place { IfOk result (λ reason. IfSome reason (LiesIn text.now)) }
{
    match read_text(alloc, text).request {
        Ok(_) => Ok(None),
        Err(error) => reason_of(error),
    }
}

/// The reason that an error tells. It fails where memory was refused.
fn reason_of(error: TextError) -> Result<Option<Reason>, AllocError>
    ensures { result ≡ reason_of error }
{
    match error {
        TextError::NoRequest(reason) => Ok(Some(reason)),
        TextError::OutOfMemory => Err(AllocError),
    }
}
