//! Runs outputs with their inputs, and prints the lines of each run: a test of all that runs an output.
//!
//! After the name of the program stand three words for each run: the path of the output, the path of its inputs, and
//! the fuel. bench/run_cases.mjs writes them, and what node sends of each.
#![tactic(auto)]

mod program;

use crate::program::run_all;
use elm_files::{HostFiles, HostSink};
use std::process::ExitCode;
use std::rt::Env;
use std::{env, io};

/// Runs what the words of the process name, and returns 0, or 1 if a word or a file was not read.
fn main(rt: HostRuntime) -> ExitCode {
    let alloc = rt.alloc();
    let mut out = HostSink::new(rt.stdout());
    let Ok((words, root, runtime)) = given(&rt) else {
        return ExitCode::from(1);
    };
    let mut files = HostFiles::new(runtime, root);
    match run_all(alloc, &words, &mut files, &mut out) {
        Ok(()) => ExitCode::from(0),
        Err(_) => ExitCode::from(1),
    }
}

/// The words, the folder and the runtime of the process.
fn given<R: Env + AllocGlobal + Clone>(rt: &R) -> io::Result<(Vec<String>, String, R)> {
    let mut words = Vec::new(rt.alloc());
    for word in env::args(rt)? {
        words.push(word)?;
    }
    let root = String::from_str(rt.alloc(), ".")?;
    Ok((words, root, rt.clone()?))
}
