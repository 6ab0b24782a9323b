//! Builds projects that show what a phase of the compiler says: faults of texts, names and patterns, the types of values,
//! and the lines of declarations.
//!
//! After the name of the program stand the paths of scripts. The crate `case_scripts` says what their lines mean.
#![tactic(auto)]

use case_scripts::run_all;
use elm_files::{HostFiles, HostSink};
use std::process::ExitCode;
use std::rt::Env;
use std::{env, io};

/// Runs the scripts that the words of the process name, and returns 0, or 1 if one was not read or has another line.
fn main(rt: HostRuntime) -> ExitCode {
    let alloc = rt.alloc();
    let mut out = HostSink::new(rt.stdout());
    let Ok((words, root, runtime)) = given(&rt) else {
        return ExitCode::from(1);
    };
    let mut files = HostFiles::new(runtime, root);
    match run_all(&rt, alloc, &words, &mut files, &mut out) {
        Ok(()) => ExitCode::from(0),
        Err(_) => ExitCode::from(1),
    }
}

/// The words, the folder and the runtime of the process.
fn given<R: Env + AllocGlobal + Clone>(rt: &R) -> io::Result<(Vec<String>, String, R)> {
    let mut words = Vec::new(rt.alloc());
    for word in env::args(rt)? {
        words.push(word)?;
    }
    let root = String::from_str(rt.alloc(), ".")?;
    Ok((words, root, rt.clone()?))
}
