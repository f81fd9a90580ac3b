//! Lines that hold no request, and the reasons that are told of them.

use crate::lines::{ANSWER, PLAIN, REFUSAL, REFUSED, REQUEST, TOO_LONG, expect_replies};
use mesh_line_service::options::LineOptions;
use std::test::Fail;

const WHY: LineOptions = LineOptions { why: true, ..PLAIN };

const EMPTY: &[u8] = b"{\"unreadable\":\"request\",\"why\":\"the input is empty\"}\n";

/// Each line that holds no request is told its own reason, with the quotes in it escaped; other lines are as without.
#[test]
fn reasons(rt: HostRuntime) -> Result<(), Fail> {
    let cases: [(&[u8], &[u8]); 9] = [
        (b"\n", EMPTY),
        (b" \t\r\n", EMPTY),
        (
            b"[1,",
            b"{\"unreadable\":\"request\",\"why\":\"line 1, column 3: invalid JSON\"}\n",
        ),
        (
            b"\xef\xbb\xbf{}",
            b"{\"unreadable\":\"request\",\"why\":\"line 1, column 1: a byte order mark\"}\n",
        ),
        (
            b"{\"op\":\"dot\"}",
            b"{\"unreadable\":\"request\",\"why\":\"op: \\\"outline\\\", \\\"stroke\\\", \\\"variable_stroke\\\", \\\"boolean\\\", \\\"coverage\\\" or \\\"overlaps\\\" is needed\"}\n",
        ),
        (
            br#"{"op":"outline","int":"i16","out":"edges","paths":[[[0,0],[40000,0]]],"style":{"outer":0,"inner":0}}"#,
            b"{\"unreadable\":\"request\",\"why\":\"paths[0][1]: 40000 is no i16\"}\n",
        ),
        (
            br#"{"op":"outline","int":"i16","out":"edges","paths":[],"style":{"outer":0}}"#,
            b"{\"unreadable\":\"request\",\"why\":\"style: \\\"inner\\\" is missing\"}\n",
        ),
        (REQUEST, ANSWER),
        (REFUSED, REFUSAL),
    ];
    for (line, reply) in cases {
        expect_replies(rt.alloc(), &[line], WHY, &[reply])?;
    }
    Ok(())
}

/// Each reason is that of its own line, and places count from the beginning of the line.
#[test]
fn reasons_in_order(rt: HostRuntime) -> Result<(), Fail> {
    expect_replies(
        rt.alloc(),
        &[REQUEST, b"\n\n[1,\n", REQUEST, b"\n[1,2,"],
        WHY,
        &[
            ANSWER,
            EMPTY,
            b"{\"unreadable\":\"request\",\"why\":\"line 1, column 3: invalid JSON\"}\n",
            ANSWER,
            b"{\"unreadable\":\"request\",\"why\":\"line 1, column 5: invalid JSON\"}\n",
        ],
    )
}

/// A line that is too long is refused, and no reason told.
#[test]
fn long_lines(rt: HostRuntime) -> Result<(), Fail> {
    let options = LineOptions {
        longest: Some(4),
        ..WHY
    };
    expect_replies(rt.alloc(), &[REQUEST, b"\n\n"], options, &[TOO_LONG, EMPTY])
}
