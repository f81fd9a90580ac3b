//! Lines for what is made of operands: booleans, coverages and overlaps.

use crate::limits::limited;
use crate::lines::{ANSWER, PLAIN, REFUSAL, REQUEST, expect_replies, replies_to};
use crate::near::{NEAR, parted};
use mesh_line_service::options::LineOptions;
use mesh_test_support::compared::{expect_equal, expect_that};
use std::test::Fail;

const UNION: &[u8] =
    br#"{"op":"boolean","int":"i32","out":"shapes","rule":"union","subject":[[[0,0],[4,0],[4,4],[0,4]]],"clip":[[[2,2],[6,2],[6,6],[2,6]]]}"#;

const UNION_ANSWER: &[u8] = b"{\"shapes\":[[[[0,0],[4,0],[4,2],[6,2],[6,6],[2,6],[2,4],[0,4]]]]}\n";

const COVERAGE: &[u8] =
    br#"{"op":"coverage","int":"i16","out":"shapes","zones":[[[[0,0],[4,0],[4,4],[0,4]]],[[[2,2],[6,2],[6,6],[2,6]]]],"least":2}"#;

const COVERAGE_ANSWER: &[u8] = b"{\"shapes\":[[[[2,2],[4,2],[4,4],[2,4]]]]}\n";

const OVERLAPS: &[u8] =
    br#"{"op":"overlaps","int":"i16","out":"shapes","zones":[[[[0,0],[4,0],[4,4],[0,4]]],[[[2,2],[6,2],[6,6],[2,6]]]]}"#;

const OVERLAPS_ANSWER: &[u8] = b"{\"overlaps\":[[0,1,[[[[2,2],[4,2],[4,4],[2,4]]]]]]}\n";

/// A crossing that rounding moves.
const BENT: &[u8] =
    br#"{"op":"boolean","int":"i32","out":"shapes","rule":"intersect","subject":[[[0,0],[5,0],[5,3]]],"clip":[[[3,0],[7,0],[7,4],[3,4]]]}"#;

/// An operand that the rule does not look at leaves the safe range.
const OUT_OF_RANGE: &[u8] =
    br#"{"op":"boolean","int":"i16","out":"shapes","rule":"subject","subject":[],"clip":[[[16384,0]]]}"#;

/// Requests of each kind stand beside one another.
#[test]
fn each_kind(rt: HostRuntime) -> Result<(), Fail> {
    expect_replies(
        rt.alloc(),
        &[
            UNION,
            b"\n",
            REQUEST,
            b"\n",
            COVERAGE,
            b"\n",
            OUT_OF_RANGE,
            b"\n",
            OVERLAPS,
        ],
        PLAIN,
        &[
            UNION_ANSWER,
            ANSWER,
            COVERAGE_ANSWER,
            REFUSAL,
            OVERLAPS_ANSWER,
        ],
    )
}

/// Where rounding bends nothing, the nearness is 0. What is refused without a nearness is refused with one.
#[test]
fn exact_answers(rt: HostRuntime) -> Result<(), Fail> {
    expect_replies(
        rt.alloc(),
        &[UNION, b"\n", COVERAGE, b"\n", OUT_OF_RANGE, b"\n", OVERLAPS],
        NEAR,
        &[
            b"{\"nearness\":0,\"shapes\":[[[[0,0],[4,0],[4,2],[6,2],[6,6],[2,6],[2,4],[0,4]]]]}\n",
            b"{\"nearness\":0,\"shapes\":[[[[2,2],[4,2],[4,4],[2,4]]]]}\n",
            REFUSAL,
            b"{\"nearness\":0,\"overlaps\":[[0,1,[[[[2,2],[4,2],[4,4],[2,4]]]]]]}\n",
        ],
    )
}

/// Where a crossing is rounded, the answer tells so, and is else the plain one.
#[test]
fn bent_answer(rt: HostRuntime) -> Result<(), Fail> {
    let (nearness, answer) = parted(rt.alloc(), &replies_to(rt.alloc(), &[BENT], NEAR)?)?;
    expect_that(0 < nearness && nearness < 64 * 64, &nearness)?;
    expect_equal(&answer, &replies_to(rt.alloc(), &[BENT], PLAIN)?, &BENT)
}

/// A combination that takes more splits than a limit is refused; with many it is answered as without a limit.
#[test]
fn limits_of_combinations(rt: HostRuntime) -> Result<(), Fail> {
    let refusal: &[u8] = b"{\"refused\":\"splitting took more than 1 splits\"}\n";
    let text: [&[u8]; 5] = [UNION, b"\n", COVERAGE, b"\n", OVERLAPS];
    expect_replies(rt.alloc(), &text, limited(1), &[refusal, refusal, refusal])?;
    expect_replies(
        rt.alloc(),
        &text,
        limited(4096),
        &[UNION_ANSWER, COVERAGE_ANSWER, OVERLAPS_ANSWER],
    )
}

/// The reason of a line is that of its operand.
#[test]
fn reasons_of_combinations(rt: HostRuntime) -> Result<(), Fail> {
    let options = LineOptions { why: true, ..PLAIN };
    expect_replies(
        rt.alloc(),
        &[
            br#"{"op":"overlaps","int":"i16","out":"shapes","zones":[[],{"op":"stroke","paths":[]}]}"#,
            b"\n{\"op\":\"boolean\"}\n",
            UNION,
        ],
        options,
        &[
            b"{\"unreadable\":\"request\",\"why\":\"zones[1]: \\\"style\\\" is missing\"}\n",
            b"{\"unreadable\":\"request\",\"why\":\"\\\"int\\\" is missing\"}\n",
            UNION_ANSWER,
        ],
    )
}
