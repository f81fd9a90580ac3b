//! Lines whose drawings may take so many splits.

use crate::lines::{
    ANSWER, PLAIN, REFUSAL, REFUSED, REQUEST, UNREADABLE, expect_replies, joined, replies_to,
};
use mesh_line_service::options::LineOptions;
use mesh_test_support::compared::{expect_equal, expect_that};
use std::alloc::Global;
use std::test::Fail;

/// A contour whose crossings move one step after the other along a line, by rounding.
pub(crate) const HARD: &[u8] =
    br#"{"op":"outline","int":"i16","out":"shapes","paths":[[[42,81],[2,0],[41,80],[1,-2]]],"style":{"outer":0,"inner":0}}"#;

/// More splits than it takes.
const MANY: u64 = 4096;

/// With this limit, and else as by default.
pub(crate) fn limited(most_splits: u64) -> LineOptions {
    LineOptions {
        most_splits,
        ..PLAIN
    }
}

/// What is told where a drawing takes more splits than a limit.
fn refusal(alloc: Global, most: u64) -> Result<Vec<u8>, Fail> {
    let text = format!(in alloc; "{{\"refused\":\"splitting took more than {most} splits\"}}\n")?;
    Ok(Vec::from_slice(alloc, text.as_bytes())?)
}

/// The least limit with which it is answered.
pub(crate) fn least_limit(alloc: Global) -> Result<u64, Fail> {
    let answer = replies_to(alloc, &[HARD], PLAIN)?;
    for most in 1..MANY {
        if replies_to(alloc, &[HARD], limited(most))? == answer {
            return Ok(most);
        }
        expect_equal(
            &replies_to(alloc, &[HARD], limited(most))?,
            &refusal(alloc, most)?,
            &most,
        )?;
    }
    Err(Fail::new(format_args!("no limit below {MANY} serves")))
}

/// A drawing is refused below some limit, and from there on answered as without one.
#[test]
fn limits(rt: HostRuntime) -> Result<(), Fail> {
    let answer = replies_to(rt.alloc(), &[HARD], PLAIN)?;
    let least = least_limit(rt.alloc())?;
    expect_that(1 < least, &least)?;
    for most in [least.saturating_add(1), MANY, u64::MAX] {
        expect_equal(
            &replies_to(rt.alloc(), &[HARD], limited(most))?,
            &answer,
            &most,
        )?;
    }
    Ok(())
}

/// Each drawing may take as many splits as the limit, whatever those before it took; other replies are as without one.
#[test]
fn each_line_is_limited(rt: HostRuntime) -> Result<(), Fail> {
    let answer = replies_to(rt.alloc(), &[HARD], PLAIN)?;
    expect_replies(
        rt.alloc(),
        &[HARD, b"\n", HARD, b"\n\n", REQUEST, b"\n", REFUSED],
        limited(least_limit(rt.alloc())?),
        &[&answer, &answer, UNREADABLE, ANSWER, REFUSAL],
    )
}

/// A limit, reasons and a bound on lines go together.
#[test]
fn limit_with_others(rt: HostRuntime) -> Result<(), Fail> {
    let options = LineOptions {
        longest: Some(120),
        why: true,
        ..limited(1)
    };
    let long = joined(rt.alloc(), &[HARD, b"       \n"])?;
    expect_replies(
        rt.alloc(),
        &[HARD, b"\n\n", REQUEST, b"\n", &long],
        options,
        &[
            b"{\"refused\":\"splitting took more than 1 splits\"}\n",
            b"{\"unreadable\":\"request\",\"why\":\"the input is empty\"}\n",
            ANSWER,
            b"{\"refused\":\"line is longer than 120 bytes\"}\n",
        ],
    )
}
