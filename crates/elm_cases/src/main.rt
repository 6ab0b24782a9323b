//! Reads whole modules, and prints their trees back as texts.
//!
//! The words `check` and `read` say what is done with the words after them, each the path of a text:
//!
//! - `check`: the text is read, its tree is printed back as a text, and the tokens of the two are compared. The line is
//!   the path and `ok`, or what is wrong.
//! - `read`: the text is read, and nothing is printed or compared.
#![tactic(auto)]

mod checking;
mod exprs;
mod modules;
mod page;
mod patterns;
mod program;
mod types;

use crate::program::run;
use elm_files::{HostFiles, HostSink};
use std::process::ExitCode;
use std::rt::Env;
use std::{env, io};

/// Reads or checks the texts that the words of the process name, and returns 0, or 1 if a file was not read.
fn main(rt: HostRuntime) -> ExitCode {
    let alloc = rt.alloc();
    let mut out = HostSink::new(rt.stdout());
    let Ok((words, root, runtime)) = given(&rt) else {
        return ExitCode::from(1);
    };
    let mut files = HostFiles::new(runtime, root);
    match run(alloc, &words, &mut files, &mut out) {
        Ok(()) => ExitCode::from(0),
        Err(_) => ExitCode::from(1),
    }
}

/// The words, the folder and the runtime of the process.
fn given<R: Env + AllocGlobal + Clone>(rt: &R) -> io::Result<(Vec<String>, String, R)> {
    let mut words = Vec::new(rt.alloc());
    for word in env::args(rt)? {
        words.push(word)?;
    }
    let root = String::from_str(rt.alloc(), ".")?;
    Ok((words, root, rt.clone()?))
}
