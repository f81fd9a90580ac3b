//! Texts of several lines, and their replies.

use mesh_line_service::options::LineOptions;
use mesh_line_service::service::{Ending, serve_lines};
use mesh_test_support::compared::expect_equal;
use std::alloc::Global;
use std::io;
use std::test::Fail;

pub(crate) const REQUEST: &[u8] =
    br#"{"op":"outline","int":"i32","out":"edges","paths":[[[0,0],[8,0],[8,8],[0,8]]],"style":{"outer":0,"inner":0}}"#;

pub(crate) const ANSWER: &[u8] =
    b"{\"edges\":[[[[0,0],[8,0]],[[0,8],[0,0]],[[8,0],[8,8]],[[8,8],[0,8]]]]}\n";

/// A second request, and its answer: a path of two points has no edge.
pub(crate) const SECOND: &[u8] =
    br#"{"op":"outline","int":"i16","out":"edges","paths":[[[0,0],[8,0]]],"style":{"outer":0,"inner":0}}"#;

pub(crate) const SECOND_ANSWER: &[u8] = b"{\"edges\":[[]]}\n";

/// A request that is refused.
pub(crate) const REFUSED: &[u8] =
    br#"{"op":"outline","int":"i16","out":"edges","paths":[[[0,0],[16384,0],[0,8]]],"style":{"outer":0,"inner":0}}"#;

pub(crate) const REFUSAL: &[u8] =
    b"{\"refused\":\"mesh coordinate exceeds the integer engine range\"}\n";

pub(crate) const UNREADABLE: &[u8] = b"{\"unreadable\":\"request\"}\n";

pub(crate) const TOO_LONG: &[u8] = b"{\"refused\":\"line is longer than 4 bytes\"}\n";

pub(crate) const PLAIN: LineOptions = LineOptions {
    longest: None,
    most_splits: 0,
    nearness: false,
    why: false,
    progress: false,
};

/// The parts, one after the other.
pub(crate) fn joined(alloc: Global, parts: &[&[u8]]) -> Result<Vec<u8>, Fail> {
    let mut text = Vec::new(alloc);
    for part in parts {
        text.extend_from_slice(part)?;
    }
    Ok(text)
}

/// The replies to a text whose run ends served.
pub(crate) fn replies_to(
    alloc: Global,
    text: &[&[u8]],
    options: LineOptions,
) -> Result<Vec<u8>, Fail> {
    let text = joined(alloc, text)?;
    let (mut reader, mut writer) = (text.as_slice(), Vec::new(alloc));
    let ending = serve_lines(alloc, &mut reader, &mut writer, &mut io::sink(), options);
    expect_equal(&ending, &Ending::Served, &text)?;
    Ok(writer)
}

/// The text has these replies, and the run ends served.
pub(crate) fn expect_replies(
    alloc: Global,
    text: &[&[u8]],
    options: LineOptions,
    replies: &[&[u8]],
) -> Result<(), Fail> {
    let text = joined(alloc, text)?;
    let wanted = joined(alloc, replies)?;
    let (mut reader, mut writer) = (text.as_slice(), Vec::new(alloc));
    let ending = serve_lines(alloc, &mut reader, &mut writer, &mut io::sink(), options);
    expect_equal(&ending, &Ending::Served, &text)?;
    expect_equal(&str::from_utf8(&writer), &str::from_utf8(&wanted), &text)
}

/// One reply a line, in order; a last line needs no line feed, and an empty one is no request.
#[test]
fn lines(rt: HostRuntime) -> Result<(), Fail> {
    let cases: [(&[&[u8]], &[&[u8]]); 8] = [
        (&[], &[]),
        (&[b"\n"], &[UNREADABLE]),
        (&[REQUEST, b"\n"], &[ANSWER]),
        (&[REQUEST], &[ANSWER]),
        (
            &[REQUEST, b"\r\n", SECOND, b" \r\n"],
            &[ANSWER, SECOND_ANSWER],
        ),
        (
            &[REQUEST, b"\n{\n", SECOND],
            &[ANSWER, UNREADABLE, SECOND_ANSWER],
        ),
        (
            &[b"\n", SECOND, b"\n\n", REQUEST],
            &[UNREADABLE, SECOND_ANSWER, UNREADABLE, ANSWER],
        ),
        (
            &[REFUSED, b"\n", REQUEST, b"\n\xff\n"],
            &[REFUSAL, ANSWER, UNREADABLE],
        ),
    ];
    for (text, replies) in cases {
        expect_replies(rt.alloc(), text, PLAIN, replies)?;
    }
    Ok(())
}

/// A line that is too long is passed over to its line feed, and refused.
#[test]
fn long_lines(rt: HostRuntime) -> Result<(), Fail> {
    let options = LineOptions {
        longest: Some(4),
        ..PLAIN
    };
    let cases: [(&[&[u8]], &[&[u8]]); 5] = [
        (&[b"null"], &[UNREADABLE]),
        (&[b"null\n"], &[UNREADABLE]),
        (&[b"false"], &[TOO_LONG]),
        (&[b"\nfalse\n\n"], &[UNREADABLE, TOO_LONG, UNREADABLE]),
        (
            &[REQUEST, b"\ntrue\n", REQUEST],
            &[TOO_LONG, UNREADABLE, TOO_LONG],
        ),
    ];
    for (text, replies) in cases {
        expect_replies(rt.alloc(), text, options, replies)?;
    }
    Ok(())
}

/// As many bytes as lines may have are read as a request.
#[test]
fn longest_line(rt: HostRuntime) -> Result<(), Fail> {
    let options = LineOptions {
        longest: Some(REQUEST.len()),
        ..PLAIN
    };
    expect_replies(rt.alloc(), &[REQUEST, b"\n"], options, &[ANSWER])
}

/// People are told how many lines are done.
#[test]
fn progress(rt: HostRuntime) -> Result<(), Fail> {
    let options = LineOptions {
        progress: true,
        ..PLAIN
    };
    let text = joined(rt.alloc(), &[REQUEST, b"\n\n", SECOND])?;
    let (mut reader, mut writer, mut told) = (
        text.as_slice(),
        Vec::new(rt.alloc()),
        Vec::new(rt.alloc()),
    );
    let ending = serve_lines(rt.alloc(), &mut reader, &mut writer, &mut told, options);
    expect_equal(&ending, &Ending::Served, &text)?;
    expect_equal(
        &str::from_utf8(&told),
        &str::from_utf8(b"lines done: 1\nlines done: 2\nlines done: 3\n"),
        &text,
    )
}
