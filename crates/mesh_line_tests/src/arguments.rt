//! The words of a command line, and what they ask.

use crate::lines::PLAIN;
use mesh_line_service::arguments::{Asked, USAGE, read_words};
use mesh_line_service::options::LineOptions;
use mesh_test_support::compared::expect_equal;
use std::alloc::Global;
use std::test::Fail;

/// These words, which one blank parts, ask this.
fn expect_asked(alloc: Global, words: &str, wanted: Option<Asked>) -> Result<(), Fail> {
    let mut list = Vec::new(alloc);
    for word in words.split_whitespace() {
        list.push(word.to_string(alloc)?)?;
    }
    expect_equal(&read_words(&list), &wanted, &words)
}

/// Each argument alone, and several together, in any order; of one that stands twice the last counts.
#[test]
fn known_words(rt: HostRuntime) -> Result<(), Fail> {
    let longest = LineOptions {
        longest: Some(100),
        ..PLAIN
    };
    let most_splits = LineOptions {
        most_splits: 1,
        ..PLAIN
    };
    let nearness = LineOptions {
        nearness: true,
        ..PLAIN
    };
    let why = LineOptions { why: true, ..PLAIN };
    let progress = LineOptions {
        progress: true,
        ..PLAIN
    };
    let all = LineOptions {
        longest: Some(100),
        most_splits: u64::MAX,
        nearness: true,
        why: true,
        progress: true,
    };
    for (words, wanted) in [
        ("", PLAIN),
        ("--longest 100", longest),
        ("--longest 7 --longest 100", longest),
        ("--most-splits 1", most_splits),
        ("--nearness", nearness),
        ("--why", why),
        ("--progress", progress),
        (
            "--progress --longest 100 --most-splits 18446744073709551615 --nearness --why",
            all,
        ),
        (
            "--nearness --most-splits 18446744073709551615 --why --progress --longest 100",
            all,
        ),
    ] {
        expect_asked(rt.alloc(), words, Some(Asked::Lines(wanted)))?;
    }
    expect_asked(rt.alloc(), "--why --help", Some(Asked::Help))?;
    expect_asked(rt.alloc(), "--version", Some(Asked::Version))
}

/// A word that is not known, and a number that is missing, is none, or does not fit, ask nothing.
#[test]
fn wrong_words(rt: HostRuntime) -> Result<(), Fail> {
    for words in [
        "--longest",
        "--longest x",
        "--longest -1",
        "--longest 18446744073709551616",
        "--longest --why",
        "--most-splits",
        "--most-splits 0",
        "--most-splits x",
        "--most-splits -1",
        "--most-splits 18446744073709551616",
        "--most-splits --why",
        "--nearness 1",
        "--why 1",
        "--whys",
        "why",
        "-",
    ] {
        expect_asked(rt.alloc(), words, None)?;
    }
    Ok(())
}

/// Each argument is named where it is said how the program is used.
#[test]
fn usage(_rt: HostRuntime) -> Result<(), Fail> {
    for word in [
        "--longest N",
        "--most-splits N",
        "--nearness",
        "--why",
        "--progress",
        "--help",
        "--version",
    ] {
        expect_equal(&USAGE.contains(word), &true, &word)?;
    }
    Ok(())
}
