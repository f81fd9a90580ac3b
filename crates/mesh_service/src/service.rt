//! One run of the service, over any reader and writer.

ghost use Rattle.std.specs.Prelude.{◌≡◌, ◌↔◌, ◌⊎◌, List, string_bytes, OnOk, IfOk};
ghost use Rattle.std.specs.Io.KnownBytes.{Appends};
ghost use Rattle.std.specs.Ordering.{int_cmp};
ghost use Rattle.mesh_service.specs.Private.Told.{EndsAs, told_line, unread_status};
ghost use Rattle.mesh_service.specs.Reasons.{IsReadOf};
ghost use Rattle.mesh_service.specs.Requested.{requested_by};
ghost use Rattle.mesh_service.specs.Served.{IsAccepted, Answers};
ghost use Rattle.mesh_service.specs.Serving.{AppendsBeginning, IsResponse, IsRefused, Serves, TellsRefusal, status_of};

use crate::input::read_to_end;
use crate::line::request_line;
use crate::output::write_line;
use crate::text::{AnyRequest, ReadText, TextError, read_text};
use crate::told::tell;
use i_overlay_mesh::IntOutlineError;
use mesh_drawing::draw::without_limit;
use mesh_request::failure::Failure;
use std::alloc::Global;
use std::io;
use std::io::{Read, Write};

/// How a run ended.
#[derive(Debug, Clone, Copy, PartialEq, Eq)]
pub enum Status {
    /// The answer was written.
    Answered,
    /// The request was refused, or there was no memory for it, and the line of that was written.
    Refused,
    /// What was read is no request that is served, and the line of that was written.
    Unreadable,
    /// Reading failed, and the line of what is unreadable was written.
    Unread,
    /// Writing failed. A beginning of the line was written, which may be all of it or nothing.
    Unwritten,
}

impl Status {
    /// The exit status of the process: 0 for an answer; 1 where the request was refused, or writing failed; 2 for what
    /// is no request, or where reading failed.
    pub fn code(self) -> u8
        ensures answered { result ≡ 0 ↔ (self ≡ Status.Answered) }
        ensures refused { result ≡ 1 ↔ (self ≡ Status.Refused) ⊎ (self ≡ Status.Unwritten) }
        ensures unreadable { result ≡ 2 ↔ (self ≡ Status.Unreadable) ⊎ (self ≡ Status.Unread) }
    {
        match self {
            Status::Answered => 0,
            Status::Refused | Status::Unwritten => 1,
            Status::Unreadable | Status::Unread => 2,
        }
    }

    /// How a run ends whose answer, or the line of its failure, is written.
    pub fn of(answer: &Result<String, Failure>) -> Self
        ensures { result ≡ status_of answer.now }
    {
        match answer {
            Ok(_) => Status::Answered,
            Err(Failure::Refused(_)) => Status::Refused,
            Err(Failure::Unreadable) => Status::Unreadable,
        }
    }

    /// How a run ends that met this failure when it read, and whose line is written.
    fn of_unread(failure: Failure) -> Self
        ensures { result ≡ unread_status failure }
    {
        match failure {
            Failure::Unreadable => Status::Unread,
            Failure::Refused(_) => Status::Refused,
        }
    }
}

/// Reads a request to the reader's end and writes its answer, one line, or the line of a failure.
pub fn serve<R: Read, W: Write>(alloc: Global, reader: &mut R, writer: &mut W) -> Status
    ensures { Serves (R.remaining reader.old) (R.remaining reader.new) (W.contents writer.old) (W.contents writer.new)
        result }
{
    read_and_reply(alloc, reader, writer).status
}

/// `serve`, and then tells people on another stream why there is no answer, and which keys of the request are ignored.
/// Neither what is told nor whether the stream takes it changes the line or the status.
pub fn serve_told<R: Read, W: Write, E: Write>(
    alloc: Global,
    reader: &mut R,
    writer: &mut W,
    errors: &mut E,
) -> Status
    ensures { Serves (R.remaining reader.old) (R.remaining reader.new) (W.contents writer.old) (W.contents writer.new)
        result }
{
    let run = read_and_reply(alloc, reader, writer);
    let _ = tell(errors, &run.read, run.status);
    run.status
}

/// A run that has ended.
#[derive(Drop)]
struct Run {
    /// What was read.
    read: Result<ReadText, Failure>,
    /// How it ended.
    status: Status,
}

/// Reads a request and writes its line.
fn read_and_reply<R: Read, W: Write>(alloc: Global, reader: &mut R, writer: &mut W) -> Run
    ensures { Serves (R.remaining reader.old) (R.remaining reader.new) (W.contents writer.old) (W.contents writer.new)
        result.status }
{
    match read_to_end(alloc, reader) {
        Ok(request) => {
            let read = read_text(alloc, &request);
            let answer = answer(alloc, &read.request);
            let status = write_answer(writer, &answer, Status::of(&answer));
            Run {
                read: Ok(read),
                status,
            }
        }
        Err(failure) => {
            let status = write_answer(writer, &Err(failure), Status::of_unread(failure));
            Run {
                read: Err(failure),
                status,
            }
        }
    }
}

/// Writes an answer, or the line of the failure in its place, and tells how the run ends, which is so where all is
/// written.
fn write_answer<W: Write>(
    writer: &mut W,
    answer: &Result<String, Failure>,
    written: Status,
) -> Status
    ensures { EndsAs (W.contents writer.old) (W.contents writer.new) (told_line answer.now) written result }
{
    match print(writer, answer) {
        Ok(()) => written,
        Err(_) => Status::Unwritten,
    }
}

/// The line that answers a request. It is made as a whole, so that nothing is printed before memory is refused.
/// `Unreadable`: the bytes are no request that is served. `Refused` with `CoordinateOutOfRange`: what is to be drawn or
/// combined does not stay in the safe range; with `OutOfMemory`: memory was refused, and there was a byte.
pub fn respond(alloc: Global, request: &[u8]) -> Result<String, Failure>
    ensures response { IsResponse request.now result }
    ensures not_accepted { IsRefused request.now → TellsRefusal result }
{
    answer(alloc, &read_text(alloc, request).request)
}

/// The line that answers what was read of a text, or the failure in its place.
fn answer(alloc: Global, read: &Result<AnyRequest, TextError>) -> Result<String, Failure>
    ensures { (text : List _) → IsReadOf text read.now → IsResponse text result }
{
    match read {
        Ok(request) => Ok(answer_request(alloc, request)?),
        Err(error) => Err(Failure::from(*error)),
    }
}

/// The line that answers a request. `CoordinateOutOfRange`: what is to be drawn or combined does not stay in the safe
/// range. `OutOfMemory`: memory was refused.
pub fn answer_request(alloc: Global, request: &AnyRequest) -> Result<String, IntOutlineError>
    ensures answered { IfOk result (λ line. Answers int_cmp (requested_by request.now) (string_bytes line)) }
    ensures refused { result ≡ Err IntOutlineError.CoordinateOutOfRange ↔ ¬ IsAccepted (requested_by request.now) }
{
    match request_line(alloc, request, None) {
        Ok(line) => Ok(line),
        Err(error) => Err(without_limit(error)),
    }
}

fn print<W: Write>(writer: &mut W, answer: &Result<String, Failure>) -> io::Result<()>
    ensures whole { OnOk result (Appends (W.contents writer.old) (W.contents writer.new) (told_line answer.now)) }
    ensures beginning { AppendsBeginning (W.contents writer.old) (W.contents writer.new) (told_line answer.now) }
{
    match answer {
        Ok(line) => write_line(writer, line.as_bytes()),
        Err(failure) => write_line(writer, failure.line().as_bytes()),
    }
}
