//! The loop over the words.

use crate::checking::{Outcome, checked, is_read};
use elm_files::{FileError, Files, Got, Sink};
use std::alloc::{AllocError, Global};

/// The most bytes of a text.
const MOST: u64 = 4194304;

/// Does what the words say, after the name of the program, and prints the lines.
pub fn run<F: Files, O: Sink>(
    alloc: Global,
    words: &[String],
    files: &mut F,
    out: &mut O,
) -> Result<(), FileError> {
    let mut prints = true;
    for word in words.iter().skip(1) {
        match word.as_str() {
            "check" => prints = true,
            "read" => prints = false,
            path => out.put(&line_of(alloc, files, path, prints)?)?,
        }
    }
    Ok(())
}

/// The line for the text at a path.
fn line_of<F: Files>(
    alloc: Global,
    files: &mut F,
    path: &str,
    prints: bool,
) -> Result<Vec<u8>, FileError> {
    match files.read(path, MOST)? {
        Got::Bytes(text) => {
            let outcome = if prints {
                checked(alloc, &text)?
            } else {
                is_read(alloc, &text)?
            };
            Ok(outcome_line(alloc, path, outcome)?)
        }
        Got::TooLong => Ok(said(alloc, path, "too long")?),
        Got::Absent => Ok(said(alloc, path, "absent")?),
    }
}

/// The line of an outcome.
fn outcome_line(alloc: Global, path: &str, outcome: Outcome) -> Result<Vec<u8>, AllocError> {
    match outcome {
        Outcome::Same => said(alloc, path, "ok"),
        Outcome::FewerBrackets(count) => {
            let told = format!(in alloc; "ok, without {count} brackets")?;
            said(alloc, path, &told)
        }
        Outcome::OtherTokens => said(alloc, path, "the tree has other words than the text"),
        Outcome::OtherTree => said(alloc, path, "the printed tree is another tree"),
        Outcome::Unreadable => said(alloc, path, "the printed tree is not read"),
        Outcome::Refused => said(alloc, path, "the text is not read"),
    }
}

/// A line that says something of a text.
fn said(alloc: Global, path: &str, told: &str) -> Result<Vec<u8>, AllocError> {
    let line = format!(in alloc; "{path}: {told}\n")?;
    Ok(line.into_bytes())
}
