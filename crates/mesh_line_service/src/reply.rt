//! The reply to a line.

ghost use Rattle.std.specs.Prelude.{◌≡◌, false, List, Ok, Err, OnOk, IfOk, IfErr, string_bytes};
ghost use Rattle.std.specs.Io.KnownBytes.{Appends};
ghost use Rattle.mesh_request.specs.Failures.{IsOfMemory};
ghost use Rattle.mesh_service.specs.Lines.{too_many_text, why_text};
ghost use Rattle.mesh_service.specs.Reasons.{IsReadOf, LiesIn, reason_text};
ghost use Rattle.mesh_service.specs.Serving.{AppendsBeginning, HoldsNoRequest};
ghost use Rattle.mesh_line_service.specs.Held.{Holds, IsWithin};
ghost use Rattle.mesh_line_service.specs.Private.Steps.{IsAnsweredTo, reply_text};
ghost use Rattle.mesh_line_service.specs.Replies.{IsReplyTo, too_long_text};

use crate::line::{Held, Line};
use crate::options::LineOptions;
use mesh_offset::error::{IntNearnessError, IntOutlineError};
use mesh_request::failure::Failure;
use mesh_service::answer::{too_many_line, why_line};
use mesh_service::near::{Telling, answer_within};
use mesh_service::output::write_line;
use mesh_service::reason::Reason;
use mesh_service::service::answer_request;
use mesh_service::text::{AnyRequest, TextError, read_text};
use std::alloc::Global;
use std::io;
use std::io::Write;

/// The reply to a line, or the failure whose line stands in its place. It is made as a whole, so that nothing is
/// printed before memory is refused.
pub(crate) fn reply(alloc: Global, line: &Line, options: LineOptions) -> Result<String, Failure>
    ensures { (text : List _) → Holds options.longest text line.now.bytes.items line.now.held
        → IsReplyTo options text (reply_text result) }
{
    match line.held {
        Held::Whole => reply_to(alloc, &line.bytes, options),
        Held::TooLong(most) => too_long(alloc, most),
        Held::NoMemory => Err(Failure::Refused(IntOutlineError::OutOfMemory)),
    }
}

/// The reply to a line that is held and not too long.
fn reply_to(alloc: Global, line: &[u8], options: LineOptions) -> Result<String, Failure>
    ensures { IsWithin options.longest line.now → IsReplyTo options line.now (reply_text result) }
{
    match &read_text(alloc, line).request {
        Ok(request) => reply_to_request(alloc, request, options),
        Err(error) => reply_to_error(alloc, error, options),
    }
}

/// The reply to a line that is read as no request.
fn reply_to_error(alloc: Global, error: &TextError, options: LineOptions) -> Result<String, Failure>
    ensures { (line : List _) → IsReadOf line (Err error.now) → IsWithin options.longest line
        → IsReplyTo options line (reply_text result) }
{
    match error {
        TextError::NoRequest(reason) => no_request(alloc, reason, options),
        TextError::OutOfMemory => Err(Failure::Refused(IntOutlineError::OutOfMemory)),
    }
}

/// The reply to a request.
fn reply_to_request(
    alloc: Global,
    request: &AnyRequest,
    options: LineOptions,
) -> Result<String, Failure>
    ensures { (line : List _) → IsReadOf line (Ok request.now) → IsWithin options.longest line
        → IsReplyTo options line (reply_text result) }
{
    match answer(alloc, request, options) {
        Ok(answer) => Ok(answer),
        Err(IntNearnessError::TooManySplits) => too_many_splits(alloc, options.most_splits),
        Err(IntNearnessError::CoordinateOutOfRange) => {
            Err(Failure::Refused(IntOutlineError::CoordinateOutOfRange))
        }
        Err(IntNearnessError::OutOfMemory) => Err(Failure::Refused(IntOutlineError::OutOfMemory)),
    }
}

/// The answer to a request. Where no limit is set and no nearness asked it is made as the service makes it, which
/// counts no splits.
fn answer(
    alloc: Global,
    request: &AnyRequest,
    options: LineOptions,
) -> Result<String, IntNearnessError>
    ensures { (line : List _) → IsReadOf line (Ok request.now) → IsAnsweredTo options line result }
{
    if options.most_splits == 0 && !options.nearness {
        return plain_answer(alloc, request, options);
    }
    let telling = Telling {
        most_splits: options.most_splits,
        nearness: options.nearness,
    };
    answer_within(alloc, request, telling)
}

/// The answer to a request where no limit is set and no nearness asked.
fn plain_answer(
    alloc: Global,
    request: &AnyRequest,
    options: LineOptions,
) -> Result<String, IntNearnessError>
    requires limit { options.most_splits ≡ 0 }
    requires nearness { options.nearness ≡ false }
    ensures { (line : List _) → IsReadOf line (Ok request.now) → IsAnsweredTo options line result }
{
    match answer_request(alloc, request) {
        Ok(answer) => Ok(answer),
        Err(IntOutlineError::CoordinateOutOfRange) => Err(IntNearnessError::CoordinateOutOfRange),
        Err(IntOutlineError::OutOfMemory) => Err(IntNearnessError::OutOfMemory),
    }
}

/// The reply to a line that holds no request, for this reason.
fn no_request(alloc: Global, reason: &Reason, options: LineOptions) -> Result<String, Failure>
    ensures { (line : List _) → HoldsNoRequest line → LiesIn line reason.now → IsWithin options.longest line
        → IsReplyTo options line (reply_text result) }
{
    if options.why {
        tell_why(alloc, reason)
    } else {
        Err(Failure::Unreadable)
    }
}

/// The reply that tells this reason. It fails only where memory is refused.
fn tell_why(alloc: Global, reason: &Reason) -> Result<String, Failure>
    ensures told { IfOk result (λ text. string_bytes text ≡ why_text (reason_text reason.now)) }
    ensures memory { IfErr result IsOfMemory }
{
    Ok(why_line(alloc, reason)?)
}

/// The reply to a line whose answer took more splits than these. It fails only where memory is refused.
fn too_many_splits(alloc: Global, most: u64) -> Result<String, Failure>
    ensures told { IfOk result (λ text. string_bytes text ≡ too_many_text most) }
    ensures memory { IfErr result IsOfMemory }
{
    Ok(too_many_line(alloc, most)?)
}

/// The reply to a line that has more bytes than these. It fails only where memory is refused.
fn too_long(alloc: Global, most: usize) -> Result<String, Failure>
    ensures told { IfOk result (λ text. string_bytes text ≡ too_long_text most) }
    ensures memory { IfErr result IsOfMemory }
{
    let text = format!(in alloc; "{{\"refused\":\"line is longer than {most} bytes\"}}\n")?;
    Ok(text)
}

/// Writes the reply and hands it on. Whatever comes of it, only a beginning of it was written.
pub(crate) fn write_reply<W: Write>(
    writer: &mut W,
    reply: &Result<String, Failure>,
) -> io::Result<()>
    ensures whole { OnOk result (Appends (W.contents writer.old) (W.contents writer.new) (reply_text reply.now)) }
    ensures beginning { AppendsBeginning (W.contents writer.old) (W.contents writer.new) (reply_text reply.now) }
{
    match reply {
        Ok(text) => write_line(writer, text.as_bytes()),
        Err(failure) => write_line(writer, failure.line().as_bytes()),
    }
}
