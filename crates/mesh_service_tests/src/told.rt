//! What people are told beside the line: why there is no answer, and what of a request is ignored.

use crate::tables::booleans::notes::{COMBINATIONS_ANSWERED, COMBINATIONS_REFUSED};
use crate::tables::booleans::reasons::{BOOLEAN_REASONS, OPERAND_REASONS, ZONE_REASONS};
use crate::tables::notes::{ANSWERED, REFUSED};
use crate::tables::reasons::{
    KEY_REASONS, POINT_REASONS, STROKE_REASONS, STYLE_REASONS, TEXT_REASONS,
};
use mesh_service::service::{Status, serve, serve_told};
use mesh_test_support::compared::{expect_equal, expect_that};
use std::alloc::Global;
use std::io;
use std::io::{Error, ErrorKind, Write};
use std::test::Fail;

/// What comes of a run: how it ends, its line, and what people are told.
#[derive(Drop)]
struct Told {
    status: Status,
    line: Vec<u8>,
    told: Vec<u8>,
}

fn tell(alloc: Global, request: &[u8]) -> Told {
    let (mut reader, mut line, mut told) = (request, Vec::new(alloc), Vec::new(alloc));
    let status = serve_told(alloc, &mut reader, &mut line, &mut told);
    Told { status, line, told }
}

/// On each text of the table the run ends so, and tells what stands beside it; the line is that of `serve`.
fn expect_told(alloc: Global, table: &[(&str, &str)], status: Status) -> Result<(), Fail> {
    for (request, wanted) in table {
        let got = tell(alloc, request.as_bytes());
        expect_equal(&got.status, &status, request)?;
        expect_that(
            got.told.as_slice() == wanted.as_bytes(),
            &(request, str::from_utf8(&got.told)),
        )?;
        expect_same_line(alloc, request.as_bytes(), &got.line)?;
    }
    Ok(())
}

/// `serve` writes this line on the request.
fn expect_same_line(alloc: Global, request: &[u8], line: &Vec<u8>) -> Result<(), Fail> {
    let (mut reader, mut plain) = (request, Vec::new(alloc));
    let _ = serve(alloc, &mut reader, &mut plain);
    expect_equal(&plain, line, &request)
}

#[test]
fn reasons_of_texts(rt: HostRuntime) -> Result<(), Fail> {
    expect_told(rt.alloc(), TEXT_REASONS, Status::Unreadable)
}

#[test]
fn reasons_of_keys(rt: HostRuntime) -> Result<(), Fail> {
    expect_told(rt.alloc(), KEY_REASONS, Status::Unreadable)
}

#[test]
fn reasons_of_points(rt: HostRuntime) -> Result<(), Fail> {
    expect_told(rt.alloc(), POINT_REASONS, Status::Unreadable)
}

#[test]
fn reasons_of_styles(rt: HostRuntime) -> Result<(), Fail> {
    expect_told(rt.alloc(), STYLE_REASONS, Status::Unreadable)
}

#[test]
fn reasons_of_strokes(rt: HostRuntime) -> Result<(), Fail> {
    expect_told(rt.alloc(), STROKE_REASONS, Status::Unreadable)
}

#[test]
fn reasons_of_booleans(rt: HostRuntime) -> Result<(), Fail> {
    expect_told(rt.alloc(), BOOLEAN_REASONS, Status::Unreadable)
}

#[test]
fn reasons_of_operands(rt: HostRuntime) -> Result<(), Fail> {
    expect_told(rt.alloc(), OPERAND_REASONS, Status::Unreadable)
}

#[test]
fn reasons_of_zones(rt: HostRuntime) -> Result<(), Fail> {
    expect_told(rt.alloc(), ZONE_REASONS, Status::Unreadable)
}

#[test]
fn refusals_of_combinations(rt: HostRuntime) -> Result<(), Fail> {
    expect_told(rt.alloc(), COMBINATIONS_REFUSED, Status::Refused)
}

#[test]
fn warnings_of_combinations(rt: HostRuntime) -> Result<(), Fail> {
    expect_told(rt.alloc(), COMBINATIONS_ANSWERED, Status::Answered)
}

#[test]
fn refusals(rt: HostRuntime) -> Result<(), Fail> {
    expect_told(rt.alloc(), REFUSED, Status::Refused)
}

#[test]
fn warnings(rt: HostRuntime) -> Result<(), Fail> {
    expect_told(rt.alloc(), ANSWERED, Status::Answered)
}

/// Bytes that are no UTF-8 are told by their place.
#[test]
fn bytes_that_are_no_text(rt: HostRuntime) -> Result<(), Fail> {
    let got = tell(rt.alloc(), b"{\"a\":\n\"\xff\"}");
    expect_equal(
        &got.told.as_slice(),
        &b"line 2, column 2: invalid JSON\n".as_slice(),
        &"no UTF-8",
    )
}

/// Takes nothing.
#[derive(Drop)]
struct Closed;

impl Write for Closed {
    fn write(&mut self, _buf: &[u8]) -> io::Result<usize> {
        Err(Error::from(ErrorKind::BrokenPipe))
    }

    fn flush(&mut self) -> io::Result<()> {
        Err(Error::from(ErrorKind::BrokenPipe))
    }
}

/// Where nobody can be told of the texts of the table, the status and the line are as they are.
fn expect_untold(alloc: Global, table: &[(&str, &str)]) -> Result<(), Fail> {
    for (request, _) in table {
        let (mut reader, mut line) = (request.as_bytes(), Vec::new(alloc));
        let status = serve_told(alloc, &mut reader, &mut line, &mut Closed);
        let got = tell(alloc, request.as_bytes());
        expect_equal(&status, &got.status, request)?;
        expect_equal(&line, &got.line, request)?;
    }
    Ok(())
}

/// A stream for people that fails changes neither the status nor the line.
#[test]
fn failing_stream(rt: HostRuntime) -> Result<(), Fail> {
    expect_untold(rt.alloc(), KEY_REASONS)?;
    expect_untold(rt.alloc(), REFUSED)?;
    expect_untold(rt.alloc(), ANSWERED)
}
