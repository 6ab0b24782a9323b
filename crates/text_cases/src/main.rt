//! Reads programs of one line, and prints what was read: a test of the texts of outputs.
//!
//! After the name of the program stand the paths of files. Each line of a file is the expression of a program's line, or
//! `@N OPEN MIDDLE CLOSE`: the middle, with the two parts around it N times; or `# EXPRESSION`, of which every
//! fifth shorter text of the program is read as well.
#![tactic(auto)]

mod cases;
mod program;

use crate::program::check_all;
use elm_files::{HostFiles, HostSink};
use std::process::ExitCode;
use std::rt::Env;
use std::{env, io};

/// Reads the files that the words of the process name, and returns 0, or 1 if a file was not read.
fn main(rt: HostRuntime) -> ExitCode {
    let alloc = rt.alloc();
    let mut out = HostSink::new(rt.stdout());
    let Ok((words, root, runtime)) = given(&rt) else {
        return ExitCode::from(1);
    };
    let mut files = HostFiles::new(runtime, root);
    match check_all(alloc, &words, &mut files, &mut out) {
        Ok(()) => ExitCode::from(0),
        Err(_) => ExitCode::from(1),
    }
}

/// The words, the folder and the runtime of the process.
fn given<R: Env + AllocGlobal + Clone>(rt: &R) -> io::Result<(Vec<String>, String, R)> {
    let mut words = Vec::new(rt.alloc());
    for word in env::args(rt)? {
        words.push(word)?;
    }
    let root = String::from_str(rt.alloc(), ".")?;
    Ok((words, root, rt.clone()?))
}
