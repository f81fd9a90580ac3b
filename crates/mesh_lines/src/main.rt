//! Answers requests for polygon offsetting line by line: each line of standard input is a request in JSON, and each
//! line of standard output the answer to it, in the same order.
#![tactic(auto)]

use mesh_line_service::arguments::{Asked, USAGE, read_words};
use mesh_line_service::options::LineOptions;
use mesh_line_service::service::serve_lines;
use std::io::{BufReader, Write};
use std::process::ExitCode;
use std::{env, io};

const VERSION: &str = "mesh_lines 1.2.0\n";

fn main(rt: HostRuntime) -> ExitCode {
    let ended = match read_arguments(&rt) {
        Ok(Some(Asked::Lines(options))) => serve(&rt, options),
        Ok(Some(Asked::Help)) => print(&rt, USAGE),
        Ok(Some(Asked::Version)) => print(&rt, VERSION),
        Ok(None) => rt.stderr().write_all(USAGE.as_bytes()).map(|_| 2),
        Err(error) => Err(error),
    };
    match ended {
        Ok(code) => ExitCode::from(code),
        Err(error) => {
            let _ = writeln!(rt.stderr(), "{error}");
            ExitCode::from(1)
        }
    }
}

/// What the arguments ask; `None` where one is not known, or lacks its number.
fn read_arguments(rt: &HostRuntime) -> io::Result<Option<Asked>> {
    let mut words = Vec::new(rt.alloc());
    for word in env::args(rt)?.skip(1) {
        words.push(word)?;
    }
    Ok(read_words(&words))
}

/// Replies to each line of standard input. The exit status says how that ended.
fn serve(rt: &HostRuntime, options: LineOptions) -> io::Result<u8> {
    let mut reader = BufReader::new(rt.alloc(), rt.stdin())?;
    let mut errors = rt.stderr();
    let ending = serve_lines(
        rt.alloc(),
        &mut reader,
        &mut rt.stdout(),
        &mut errors,
        options,
    );
    Ok(ending.code())
}

/// Prints a text. The exit status is that of a run which did what was asked.
fn print(rt: &HostRuntime, text: &str) -> io::Result<u8> {
    rt.stdout().write_all(text.as_bytes())?;
    Ok(0)
}
