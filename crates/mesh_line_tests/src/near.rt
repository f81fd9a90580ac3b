//! Lines whose answers tell their nearness.

use crate::limits::{HARD, least_limit};
use crate::lines::{PLAIN, REFUSAL, REFUSED, REQUEST, UNREADABLE, expect_replies, replies_to};
use mesh_line_service::options::LineOptions;
use mesh_test_support::compared::{expect_equal, expect_that};
use std::alloc::Global;
use std::test::Fail;

pub(crate) const NEAR: LineOptions = LineOptions {
    nearness: true,
    ..PLAIN
};

/// A drawing that rounding moves nothing of.
const SQUARE: &[u8] =
    br#"{"op":"stroke","int":"i32","out":"shapes","paths":[[[0,0],[8,0]]],"style":{"width":4}}"#;

/// Edges, which are listed as they are drawn.
const EDGES_ANSWER: &[u8] =
    b"{\"edges\":[[[[0,0],[8,0]],[[0,8],[0,0]],[[8,0],[8,8]],[[8,8],[0,8]]]],\"nearness\":0}\n";

/// What comes before the nearness.
const BEGINNING: &[u8] = b"{\"nearness\":";

/// An answer with its nearness in two parts: that number, and the answer without it.
pub(crate) fn parted(alloc: Global, reply: &[u8]) -> Result<(u64, Vec<u8>), Fail> {
    let Some(rest) = reply.strip_prefix(BEGINNING) else {
        return Err(Fail::new(format_args!("{reply:?}")));
    };
    let mut number: u64 = 0;
    let mut answer = Vec::from_slice(alloc, b"{")?;
    let mut told = false;
    for byte in rest {
        if told {
            answer.push(*byte)?;
        } else if *byte == b',' {
            told = true;
        } else {
            number = number
                .wrapping_mul(10)
                .wrapping_add(u64::from(byte.wrapping_sub(b'0')));
        }
    }
    Ok((number, answer))
}

/// An answer with its nearness is the plain one with a key more: above 0 where rounding bent what is drawn.
#[test]
fn one_key_more(rt: HostRuntime) -> Result<(), Fail> {
    for (request, is_bent) in [(SQUARE, false), (HARD, true)] {
        let (nearness, answer) = parted(rt.alloc(), &replies_to(rt.alloc(), &[request], NEAR)?)?;
        expect_equal(&(nearness > 0), &is_bent, &nearness)?;
        expect_that(nearness < 64 * 64, &nearness)?;
        expect_equal(
            &answer,
            &replies_to(rt.alloc(), &[request], PLAIN)?,
            &request,
        )?;
    }
    Ok(())
}

/// A drawing of which distances are asked for, and its answer with them and with its nearness.
const MEASURED: &[u8] =
    br#"{"op":"stroke","int":"i32","out":"shapes","paths":[[[0,0],[100,0]]],"style":{"width":20,"start":"square","end":"square"},"options":{"distances":true}}"#;

const MEASURED_ANSWER: &[u8] =
    b"{\"clearance2\":100,\"nearness\":0,\"reach2\":98,\"shapes\":[[[[-10,-10],[110,-10],[110,10],[-10,10]]]]}\n";

/// Distances stand beside the nearness.
#[test]
fn distances_beside_it(rt: HostRuntime) -> Result<(), Fail> {
    expect_replies(rt.alloc(), &[MEASURED], NEAR, &[MEASURED_ANSWER])
}

/// Each answer tells its own nearness, and other replies are as without.
#[test]
fn each_line_tells_its_own(rt: HostRuntime) -> Result<(), Fail> {
    let square = replies_to(rt.alloc(), &[SQUARE], NEAR)?;
    let hard = replies_to(rt.alloc(), &[HARD], NEAR)?;
    expect_replies(
        rt.alloc(),
        &[
            SQUARE, b"\n", HARD, b"\n", SQUARE, b"\n", REQUEST, b"\n", REFUSED, b"\n\n", HARD,
        ],
        NEAR,
        &[
            &square,
            &hard,
            &square,
            EDGES_ANSWER,
            REFUSAL,
            UNREADABLE,
            &hard,
        ],
    )
}

/// What is told of a line that is no JSON.
const NO_JSON: &[u8] = b"{\"unreadable\":\"request\",\"why\":\"line 1, column 1: invalid JSON\"}\n";

/// With a limit an answer tells the nearness that it tells without one.
#[test]
fn nearness_within_a_limit(rt: HostRuntime) -> Result<(), Fail> {
    let square = replies_to(rt.alloc(), &[SQUARE], NEAR)?;
    let hard = replies_to(rt.alloc(), &[HARD], NEAR)?;
    let options = LineOptions {
        most_splits: least_limit(rt.alloc())?,
        why: true,
        ..NEAR
    };
    expect_replies(
        rt.alloc(),
        &[HARD, b"\n[\n", SQUARE],
        options,
        &[&hard, NO_JSON, &square],
    )
}

/// A drawing that takes more splits than a limit is refused where nearness is asked too.
#[test]
fn nearness_past_a_limit(rt: HostRuntime) -> Result<(), Fail> {
    let square = replies_to(rt.alloc(), &[SQUARE], NEAR)?;
    let options = LineOptions {
        most_splits: 1,
        why: true,
        ..NEAR
    };
    expect_replies(
        rt.alloc(),
        &[HARD, b"\n[\n", SQUARE],
        options,
        &[
            b"{\"refused\":\"splitting took more than 1 splits\"}\n",
            NO_JSON,
            &square,
        ],
    )
}
