//! Readers and writers that fail, are interrupted, or give and take byte by byte.

use crate::lines::{ANSWER, PLAIN, REQUEST, UNREADABLE, joined};
use mesh_line_service::options::LineOptions;
use mesh_line_service::service::{Ending, serve_lines};
use mesh_test_support::compared::expect_equal;
use std::io;
use std::io::{BufReader, Error, ErrorKind, Read, Write};
use std::test::Fail;

/// Gives the bytes one by one, with an interruption before each, and then ends, or fails.
#[derive(Drop)]
struct FailingReader<'a> {
    left: &'a [u8],
    interrupted: bool,
    end: Option<ErrorKind>,
}

impl Read for FailingReader<'_> {
    fn read(&mut self, buf: &mut [u8]) -> io::Result<usize> {
        self.interrupted = !self.interrupted;
        if self.interrupted {
            return Err(Error::from(ErrorKind::Interrupted));
        }
        match self.left.split_first() {
            Some((byte, left)) if !buf.is_empty() => {
                buf[0] = *byte;
                self.left = left;
                Ok(1)
            }
            _ => match self.end {
                Some(kind) => Err(Error::from(kind)),
                None => Ok(0),
            },
        }
    }
}

/// Each line that was read whole has its reply; what follows has none where reading fails.
#[test]
fn readers(rt: HostRuntime) -> Result<(), Fail> {
    let text = joined(rt.alloc(), &[REQUEST, b"\n\n{"])?;
    let whole = joined(rt.alloc(), &[ANSWER, UNREADABLE, UNREADABLE])?;
    let begun = joined(rt.alloc(), &[ANSWER, UNREADABLE])?;
    for (end, wanted, replies) in [
        (None, Ending::Served, &whole),
        (Some(ErrorKind::Other), Ending::Unread, &begun),
    ] {
        let reader = FailingReader {
            left: text.as_slice(),
            interrupted: false,
            end,
        };
        let mut reader = BufReader::new(rt.alloc(), reader)?;
        let mut writer = Vec::new(rt.alloc());
        let ending = serve_lines(rt.alloc(), &mut reader, &mut writer, &mut io::sink(), PLAIN);
        expect_equal(&ending, &wanted, &end)?;
        expect_equal(&writer, replies, &end)?;
    }
    Ok(())
}

/// A line that comes byte by byte is found too long.
#[test]
fn long_line_byte_by_byte(rt: HostRuntime) -> Result<(), Fail> {
    let text = joined(rt.alloc(), &[REQUEST, b"\n\n", REQUEST])?;
    let options = LineOptions {
        longest: Some(100),
        ..PLAIN
    };
    let reader = FailingReader {
        left: text.as_slice(),
        interrupted: false,
        end: None,
    };
    let mut reader = BufReader::new(rt.alloc(), reader)?;
    let mut writer = Vec::new(rt.alloc());
    let ending = serve_lines(
        rt.alloc(),
        &mut reader,
        &mut writer,
        &mut io::sink(),
        options,
    );
    expect_equal(&ending, &Ending::Served, &"bytes one by one")?;
    let refusal = b"{\"refused\":\"line is longer than 100 bytes\"}\n";
    let wanted = joined(rt.alloc(), &[refusal, UNREADABLE, refusal])?;
    expect_equal(&writer, &wanted, &"bytes one by one")
}

/// Takes so many bytes and then fails.
#[derive(Drop)]
struct FailingWriter {
    room: usize,
    taken: Vec<u8>,
}

impl Write for FailingWriter {
    fn write(&mut self, buf: &[u8]) -> io::Result<usize> {
        if self.room == 0 {
            return Err(Error::from(ErrorKind::BrokenPipe));
        }
        let count = buf.len().min(self.room);
        self.room -= count;
        self.taken.extend_from_slice(&buf[..count])?;
        Ok(count)
    }

    fn flush(&mut self) -> io::Result<()> {
        Ok(())
    }
}

/// Where writing fails, a beginning of the replies was written, and the run ends unwritten.
#[test]
fn writers(rt: HostRuntime) -> Result<(), Fail> {
    let text = joined(rt.alloc(), &[REQUEST, b"\n\n", REQUEST])?;
    let replies = joined(rt.alloc(), &[ANSWER, UNREADABLE, ANSWER])?;
    for room in [0, 1, 69, 70, 71, 95, 100, 164] {
        let mut reader = text.as_slice();
        let mut writer = FailingWriter {
            room,
            taken: Vec::new(rt.alloc()),
        };
        let ending = serve_lines(rt.alloc(), &mut reader, &mut writer, &mut io::sink(), PLAIN);
        expect_equal(&ending, &Ending::Unwritten, &room)?;
        expect_equal(
            &writer.taken.as_slice(),
            &&replies[..room.min(replies.len())],
            &room,
        )?;
    }
    Ok(())
}

/// Nothing that people are told changes the replies, though it cannot be written.
#[test]
fn failing_progress(rt: HostRuntime) -> Result<(), Fail> {
    let options = LineOptions {
        progress: true,
        ..PLAIN
    };
    let mut reader = REQUEST;
    let (mut writer, mut errors) = (
        Vec::new(rt.alloc()),
        FailingWriter {
            room: 3,
            taken: Vec::new(rt.alloc()),
        },
    );
    let ending = serve_lines(rt.alloc(), &mut reader, &mut writer, &mut errors, options);
    expect_equal(&ending, &Ending::Served, &"progress that cannot be told")?;
    expect_equal(&writer.as_slice(), &ANSWER, &"progress that cannot be told")
}
