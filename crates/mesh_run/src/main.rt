//! Reads one request for polygon offsetting as JSON and writes one line of answer. What people want to know beside it,
//! as why a text is no request, stands on standard error.
#![tactic(auto)]

pub use mesh_service::service;
use service::serve_told;
use std::io::Write;
use std::process::ExitCode;
use std::{env, io};

/// What is told where there are arguments.
const USAGE: &str =
    "mesh_run takes no arguments: it reads one request in JSON from standard input, such as\n\
    {\"op\":\"outline\",\"int\":\"i32\",\"out\":\"shapes\",\"paths\":[[[0,0],[100,0],[0,100]]],\
    \"style\":{\"outer\":10,\"inner\":10}}\n";

fn main(rt: HostRuntime) -> ExitCode {
    let _ = tell_usage(&rt);
    let mut errors = rt.stderr();
    let status = serve_told(rt.alloc(), &mut rt.stdin(), &mut rt.stdout(), &mut errors);
    ExitCode::from(status.code())
}

/// Tells how the program is used, where it is given arguments. They change nothing else.
fn tell_usage(rt: &HostRuntime) -> io::Result<()> {
    if env::args(rt)?.nth(1).is_some() {
        rt.stderr().write_all(USAGE.as_bytes())?;
    }
    Ok(())
}
