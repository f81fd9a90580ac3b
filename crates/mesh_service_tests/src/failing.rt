//! Readers and writers that fail, are interrupted, or take byte by byte.

use mesh_service::service::{Status, serve};
use mesh_test_support::compared::expect_equal;
use std::alloc::Global;
use std::io;
use std::io::{Error, ErrorKind, Read, Write};
use std::test::Fail;

const REQUEST: &[u8] =
    br#"{"op":"outline","int":"i32","out":"edges","paths":[[[0,0],[8,0],[8,8],[0,8]]],"style":{"outer":0,"inner":0}}"#;

const ANSWER: &[u8] = b"{\"edges\":[[[[0,0],[8,0]],[[0,8],[0,0]],[[8,0],[8,8]],[[8,8],[0,8]]]]}\n";

const UNREADABLE: &[u8] = b"{\"unreadable\":\"request\"}\n";

/// Gives the bytes one by one, with an interruption before each, and then ends, or fails.
#[derive(Drop)]
struct FailingReader<'a> {
    left: &'a [u8],
    interrupted: bool,
    end: Option<ErrorKind>,
}

impl Read for FailingReader<'_> {
    fn read(&mut self, buf: &mut [u8]) -> io::Result<usize> {
        self.interrupted = !self.interrupted;
        if self.interrupted {
            return Err(Error::from(ErrorKind::Interrupted));
        }
        match self.left.split_first() {
            Some((byte, left)) if !buf.is_empty() => {
                buf[0] = *byte;
                self.left = left;
                Ok(1)
            }
            _ => match self.end {
                Some(kind) => Err(Error::from(kind)),
                None => Ok(0),
            },
        }
    }
}

/// An interrupted read is tried again; after any other failure the run ends unread, and not unreadable.
#[test]
fn readers(rt: HostRuntime) -> Result<(), Fail> {
    for (end, wanted, line) in [
        (None, Status::Answered, ANSWER),
        (Some(ErrorKind::Other), Status::Unread, UNREADABLE),
        (Some(ErrorKind::OutOfMemory), Status::Unread, UNREADABLE),
    ] {
        let mut reader = FailingReader {
            left: REQUEST,
            interrupted: false,
            end,
        };
        let mut writer = Vec::new(rt.alloc());
        let status = serve(rt.alloc(), &mut reader, &mut writer);
        expect_equal(&status, &wanted, &end)?;
        expect_equal(&writer.as_slice(), &line, &end)?;
    }
    Ok(())
}

/// Takes so many bytes and then fails.
#[derive(Drop)]
struct FailingWriter {
    room: usize,
}

impl Write for FailingWriter {
    fn write(&mut self, buf: &[u8]) -> io::Result<usize> {
        if self.room == 0 {
            return Err(Error::from(ErrorKind::BrokenPipe));
        }
        let count = buf.len().min(self.room);
        self.room -= count;
        Ok(count)
    }

    fn flush(&mut self) -> io::Result<()> {
        Ok(())
    }
}

/// Where writing fails, the run ends unwritten, whatever was to be written.
#[test]
fn writers(rt: HostRuntime) -> Result<(), Fail> {
    for (text, room, wanted) in [
        (REQUEST, 0, Status::Unwritten),
        (REQUEST, 1, Status::Unwritten),
        (REQUEST, 40, Status::Unwritten),
        (REQUEST, 70, Status::Answered),
        (b"{", 0, Status::Unwritten),
        (b"{", 24, Status::Unwritten),
        (b"{", 25, Status::Unreadable),
    ] {
        let mut reader = text;
        let status = serve(rt.alloc(), &mut reader, &mut FailingWriter { room });
        expect_equal(&status, &wanted, &(text, room))?;
    }
    Ok(())
}

/// Takes all bytes, and fails to hand them on.
#[derive(Drop)]
struct FailingFlush;

impl Write for FailingFlush {
    fn write(&mut self, buf: &[u8]) -> io::Result<usize> {
        Ok(buf.len())
    }

    fn flush(&mut self) -> io::Result<()> {
        Err(Error::from(ErrorKind::BrokenPipe))
    }
}

#[test]
fn failing_flush(rt: HostRuntime) -> Result<(), Fail> {
    let mut reader = REQUEST;
    let status = serve(rt.alloc(), &mut reader, &mut FailingFlush);
    expect_equal(&status, &Status::Unwritten, &"a flush")
}

/// A request that takes 70,000 reads and more, with an interruption before each, is read whole.
#[test]
fn slow_reader(rt: HostRuntime) -> Result<(), Fail> {
    let mut text = vec![in rt.alloc(); b' '; 70_000]?;
    text.extend_from_slice(REQUEST)?;
    let mut reader = FailingReader {
        left: text.as_slice(),
        interrupted: false,
        end: None,
    };
    let mut writer = Vec::new(rt.alloc());
    let status = serve(rt.alloc(), &mut reader, &mut writer);
    expect_equal(&status, &Status::Answered, &"70,000 blanks, byte by byte")?;
    expect_equal(&writer.as_slice(), &ANSWER, &"70,000 blanks, byte by byte")
}

/// Takes the bytes that are wanted one by one, with an interruption before each.
/// It takes no other byte, and does not fail there.
#[derive(Drop)]
struct SlowWriter<'a> {
    wanted: &'a [u8],
    interrupted: bool,
}

impl Write for SlowWriter<'_> {
    fn write(&mut self, buf: &[u8]) -> io::Result<usize> {
        self.interrupted = !self.interrupted;
        if self.interrupted {
            return Err(Error::from(ErrorKind::Interrupted));
        }
        match (buf.first(), self.wanted.split_first()) {
            (Some(byte), Some((next, left))) if byte == next => {
                self.wanted = left;
                Ok(1)
            }
            _ => Ok(0),
        }
    }

    fn flush(&mut self) -> io::Result<()> {
        Ok(())
    }
}

/// A line is written whole, byte by byte, with an interruption before each.
#[test]
fn slow_writer(rt: HostRuntime) -> Result<(), Fail> {
    let mut reader = REQUEST;
    let mut writer = SlowWriter {
        wanted: ANSWER,
        interrupted: false,
    };
    let status = serve(rt.alloc(), &mut reader, &mut writer);
    expect_equal(&status, &Status::Answered, &"a line, byte by byte")?;
    expect_equal(&writer.wanted.len(), &0, &"bytes that are not written")
}

/// Where a writer takes no byte more, and does not fail either, the run ends unwritten.
#[test]
fn full_writer(rt: HostRuntime) -> Result<(), Fail> {
    for wanted in [b"" as &[u8], b"{", b"{\"edges\":[[[[0,0],[8,0]],"] {
        let mut reader = REQUEST;
        let mut writer = SlowWriter {
            wanted,
            interrupted: false,
        };
        let status = serve(rt.alloc(), &mut reader, &mut writer);
        expect_equal(&status, &Status::Unwritten, &wanted)?;
        expect_equal(&writer.wanted.len(), &0, &wanted)?;
    }
    Ok(())
}

/// The item 1,500 times, with commas between, and what is before and after.
fn repeated(alloc: Global, before: &[u8], item: &[u8], after: &[u8]) -> Result<Vec<u8>, Fail> {
    let mut text = Vec::new(alloc);
    text.extend_from_slice(before)?;
    text.extend_from_slice(item)?;
    for _ in 1..1_500 {
        text.push(b',')?;
        text.extend_from_slice(item)?;
    }
    text.extend_from_slice(after)?;
    Ok(text)
}

/// A line that takes 85,000 writes and more is written whole.
#[test]
fn slow_writer_of_a_long_line(rt: HostRuntime) -> Result<(), Fail> {
    let request = repeated(
        rt.alloc(),
        br#"{"op":"outline","int":"i32","out":"edges","paths":["#,
        b"[[0,0],[8,0],[8,8],[0,8]]",
        br#"],"style":{"outer":0,"inner":0}}"#,
    )?;
    let answer = repeated(
        rt.alloc(),
        b"{\"edges\":[",
        b"[[[0,0],[8,0]],[[0,8],[0,0]],[[8,0],[8,8]],[[8,8],[0,8]]]",
        b"]}\n",
    )?;
    let mut reader = request.as_slice();
    let mut writer = SlowWriter {
        wanted: answer.as_slice(),
        interrupted: false,
    };
    let status = serve(rt.alloc(), &mut reader, &mut writer);
    expect_equal(&status, &Status::Answered, &"1,500 squares, byte by byte")?;
    expect_equal(&writer.wanted.len(), &0, &"bytes that are not written")
}
