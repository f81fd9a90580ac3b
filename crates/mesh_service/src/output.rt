//! One line for a writer.

ghost use Rattle.std.specs.Prelude.{OnOk};
ghost use Rattle.std.specs.Io.{WritesAtMost};
ghost use Rattle.std.specs.Io.KnownBytes.{Appends, WriteAppends};
ghost use Rattle.mesh_service.specs.Serving.{AppendsBeginning};

use std::io;
use std::io::{Error, ErrorKind, Write};

/// Writes the line and hands it on. Whatever comes of it, only a beginning of the line was written.
pub fn write_line<W: Write>(writer: &mut W, line: &[u8]) -> io::Result<()>
    ensures beginning { AppendsBeginning (W.contents writer.old) (W.contents writer.new) line.now }
    ensures whole { OnOk result (Appends (W.contents writer.old) (W.contents writer.new) line.now) }
{
    let mut rest = line;
    for _ in 0..u64::MAX {
        if rest.is_empty() {
            return writer.flush();
        }
        let count = write_some(writer, rest)?;
        rest = &rest[count..];
    }
    Err(Error::from(ErrorKind::Interrupted))
}

/// Writes some of the bytes, and tells how many: none where the writer was interrupted.
fn write_some<W: Write>(writer: &mut W, bytes: &[u8]) -> io::Result<usize>
    ensures bound { WritesAtMost result bytes.now }
    ensures bytes { WriteAppends (W.contents writer.old) (W.contents writer.new) result bytes.now }
{
    match writer.write(bytes) {
        Ok(0) => Err(Error::from(ErrorKind::WriteZero)),
        Ok(count) => Ok(count),
        Err(error) => {
            if error.kind() == ErrorKind::Interrupted {
                Ok(0)
            } else {
                Err(error)
            }
        }
    }
}
