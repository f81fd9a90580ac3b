//! All of what a reader gives.

ghost use Rattle.std.specs.Prelude.{◌≡◌, OnOk, IfOk, IfErr, IfSome};
ghost use Rattle.std.specs.Io.KnownBytes.{IsAtEnd};
ghost use Rattle.mesh_request.specs.Failures.{IsOfMemory};
ghost use Rattle.mesh_request.specs.Reading.{IsOfReading};
ghost use Rattle.mesh_service.specs.Private.Told.{TakesPart};
ghost use Rattle.mesh_service.specs.Serving.{HasBytes};

use mesh_request::failure::Failure;
use std::alloc::Global;
use std::io::{ErrorKind, Read};

/// How many bytes are read at once.
const CHUNK: usize = 4096;

/// The bytes that the reader has left, all of which are read. An error of its own makes them unreadable; memory is
/// wanted only where there was a byte, and a growth was refused.
pub fn read_to_end<R: Read>(alloc: Global, reader: &mut R) -> Result<Vec<u8>, Failure>
    ensures bytes { IfOk result (λ bytes. IfSome (R.remaining reader.old) (λ xs. bytes.items ≡ xs)) }
    ensures end { OnOk result (IsAtEnd (R.remaining reader.new)) }
    ensures err { IfErr result IsOfReading }
    ensures memory { IfErr result (λ e. IsOfMemory e → HasBytes (R.remaining reader.old)) }
{
    let mut bytes = Vec::new(alloc);
    for _ in 0..u64::MAX {
        if read_chunk(reader, &mut bytes)? {
            return Ok(bytes);
        }
    }
    Err(Failure::Unreadable)
}

/// Reads some bytes, and tells whether the reader's end is reached.
fn read_chunk<R: Read>(reader: &mut R, bytes: &mut Vec<u8>) -> Result<bool, Failure>
    ensures part { IfOk result
        (TakesPart (R.remaining reader.old) (R.remaining reader.new) bytes.old.items bytes.new.items) }
    ensures err { IfErr result IsOfReading }
    ensures memory { IfErr result (λ e. IsOfMemory e → HasBytes (R.remaining reader.old)) }
{
    let mut chunk = [0u8; CHUNK];
    match reader.read(&mut chunk) {
        Ok(count) => {
            bytes.extend_from_slice(&chunk[..count])?;
            Ok(count == 0)
        }
        Err(error) => {
            if error.kind() == ErrorKind::Interrupted {
                Ok(false)
            } else {
                Err(Failure::Unreadable)
            }
        }
    }
}
