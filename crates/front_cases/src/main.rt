//! Prints what the crates that a build begins with make of small inputs, a row for each: names and faults, tokens,
//! paths and files of projects, and files. The file `stdout` has what must be printed.
#![tactic(auto)]

mod base;
mod files;
mod host;
mod paths;
mod print;
mod projects;
mod tokens;

use elm_files::{HostSink, Sink};
use std::alloc::{AllocError, Global};
use std::io;
use std::process::ExitCode;

/// Prints the rows, and returns 0, or 1 if memory ran out or the host failed.
fn main(rt: HostRuntime) -> ExitCode {
    let mut out = HostSink::new(rt.stdout());
    match rows_and_host(rt) {
        Ok(text) => match out.put(text.as_bytes()) {
            Ok(()) => ExitCode::from(0),
            Err(_) => ExitCode::from(1),
        },
        Err(_) => ExitCode::from(1),
    }
}

/// The rows, those of the files of the host last.
fn rows_and_host(rt: HostRuntime) -> io::Result<String> {
    let mut out = String::new(rt.alloc());
    rows(rt.alloc(), &mut out)?;
    host::rows(rt, &mut out)?;
    Ok(out)
}

/// Adds the rows of values.
fn rows(alloc: Global, out: &mut String) -> Result<(), AllocError> {
    base::rows(alloc, out)?;
    tokens::rows(alloc, out)?;
    paths::rows(alloc, out)?;
    projects::rows(alloc, out)?;
    files::rows(alloc, out)
}
