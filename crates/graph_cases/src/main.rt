//! Prints the import graphs of projects: a test of the crates that read heads and build graphs, on whole projects.
//!
//! Each word is `FOLDER:ENTRY`: a project's file is in FOLDER, and ENTRY is the path of a module below it. For each word
//! it prints the word, and then the modules in order, a line for each: its name, its path, and the names of the modules
//! of the project that it imports, in written order. For a project that is refused it prints the line of the fault in
//! place of the modules.
#![tactic(auto)]

mod lines;
mod names;
mod program;

use crate::program::run;
use elm_files::HostSink;
use std::process::ExitCode;
use std::rt::Env;
use std::{env, io};

/// Prints the graph of each project that a word of the process names, and returns 0, or 1 if a file or a word was not
/// read.
fn main(rt: HostRuntime) -> ExitCode {
    let mut out = HostSink::new(rt.stdout());
    let Ok(words) = words(&rt) else {
        return ExitCode::from(1);
    };
    match run(&rt, &words, &mut out) {
        Ok(()) => ExitCode::from(0),
        Err(_) => ExitCode::from(1),
    }
}

/// The words of the process.
fn words<R: Env + AllocGlobal>(rt: &R) -> io::Result<Vec<String>> {
    let mut words = Vec::new(rt.alloc());
    for word in env::args(rt)? {
        words.push(word)?;
    }
    Ok(words)
}
