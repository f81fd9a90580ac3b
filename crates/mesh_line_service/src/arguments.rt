//! The arguments of a program that replies to lines.

ghost use Rattle.std.specs.Prelude.{◌≡◌, [], Some};
ghost use Rattle.mesh_line_service.specs.Arguments.{as_by_default};

use crate::options::LineOptions;

/// What is told where it is asked, or where an argument is none that is known.
pub const USAGE: &str = "usage: mesh_lines [--longest N] [--most-splits N] [--nearness] [--why]\n\
    \x20                 [--progress]\n\
    Each line of standard input is a request in JSON, such as\n\
    {\"op\":\"outline\",\"int\":\"i32\",\"out\":\"shapes\",\"paths\":[[[0,0],[100,0],[0,100]]],\
    \"style\":{\"outer\":10,\"inner\":10}}\n\
    and each line of standard output the answer to it, in the same order.\n\n\
    \x20 --longest N      refuse lines of more than N bytes\n\
    \x20 --most-splits N  refuse requests that take more than N splits, from 1 to 2^64-1\n\
    \x20 --nearness       tell how far from drawn or combined edges an answer may be wrong\n\
    \x20 --why            tell why a line holds no request\n\
    \x20 --progress       tell on standard error how many lines are done\n\
    \x20 --help           print this, and end\n\
    \x20 --version        print the version, and end\n";

/// What the program is asked to do.
#[derive(Debug, Clone, Copy, PartialEq, Eq)]
pub enum Asked {
    /// To reply to lines.
    Lines(LineOptions),
    /// To say how it is used.
    Help,
    /// To say which version it is.
    Version,
}

/// What these words ask; `None` where one is not known, or lacks its number.
pub fn read_words(words: &[String]) -> Option<Asked>
    ensures { words.now ≡ [] → result ≡ Some (Asked.Lines as_by_default) }
{
    let mut options = LineOptions {
        longest: None,
        most_splits: 0,
        nearness: false,
        why: false,
        progress: false,
    };
    if words.is_empty() {
        return Some(Asked::Lines(options));
    }
    let mut asked = None;
    let mut wanted = None;
    for word in words {
        let word = word.as_str();
        if let Some(number) = wanted {
            options = with_number(options, number, word)?;
            wanted = None;
            continue;
        }
        match word {
            "--longest" => wanted = Some(Number::Longest),
            "--most-splits" => wanted = Some(Number::MostSplits),
            "--nearness" => options.nearness = true,
            "--why" => options.why = true,
            "--progress" => options.progress = true,
            "--help" => asked = Some(Asked::Help),
            "--version" => asked = Some(Asked::Version),
            _ => return None,
        }
    }
    if wanted.is_some() {
        return None;
    }
    Some(asked.unwrap_or(Asked::Lines(options)))
}

/// What the next word is the number of.
#[derive(Debug, Clone, Copy, PartialEq, Eq)]
enum Number {
    Longest,
    MostSplits,
}

/// The options with the number that a word is; `None` where it is none, or does not fit.
fn with_number(mut options: LineOptions, number: Number, word: &str) -> Option<LineOptions> {
    match number {
        Number::Longest => options.longest = Some(word.parse::<usize>().ok()?),
        Number::MostSplits => {
            // 0 would set no limit.
            options.most_splits = word.parse::<u64>().ok().filter(|most| *most > 0)?;
        }
    }
    Some(options)
}
