//! The loops over the scripts and their lines.
//!
//! Each line of a script is of one of these forms.
//!
//! - `# TITLE` begins a case, in which there is no file.
//! - `+ PATH` makes the file PATH, which is empty. `- PATH` names a file that is absent.
//! - `|TEXT` adds a line to the file made last, and `:TEXT` adds a text without a line feed. `*N TEXT` adds the text
//!   N times. `<NAME` adds what the file NAME beside the scripts holds.
//! - `! files N` lets call N of the next command on files fail, counted from 0. `! out N` and `! err N` do the same for
//!   its calls on standard output and standard error.
//! - `$ WORDS` runs the command of these words, with one space between two, over the files that the case has named.
//!   `$` alone stands for no words. What the command leaves in these files stays for the lines that follow.
//! - `? PATH` asks for a file that the case has named. `= PATH TEXT` asks for its lines that begin with TEXT.
//!
//! Titles, commands and questions are printed. After a command stand its status and what it put on standard output (`1`)
//! and standard error (`2`), and after a question what the file holds, or that it is absent. These texts are written by
//! `|` and `:` as in scripts. A file that begins with `head.js` and ends with `tail.js`, the fixed texts of an output, is
//! written with `<` for them.

use crate::case::{Case, Ran};
use crate::line::{Line, line_of};
use crate::page::{put_line, put_lines, put_text};
use elm_files::{FileError, Files, Got, Sink};
use std::alloc::{AllocError, Global};
use std::str::from_utf8;
use std::sync::Wait;
use std::thread::Threads;

/// The most bytes of a file.
const MOST: u64 = 4194304;

/// The fixed texts of an output.
#[derive(Drop)]
struct Fixed {
    head: Vec<u8>,
    tail: Vec<u8>,
}

/// Runs the scripts at the paths after the first word.
pub fn run_all<R: Threads + Wait + Sync, F: Files, O: Sink>(
    rt: &R,
    alloc: Global,
    words: &[String],
    files: &mut F,
    out: &mut O,
) -> Result<(), FileError> {
    let fixed = Fixed {
        head: bytes_of(files, "head.js")?,
        tail: bytes_of(files, "tail.js")?,
    };
    for path in words.iter().skip(1) {
        let script = bytes_of(files, path)?;
        let Ok(script) = from_utf8(&script) else {
            return Err(FileError::Failed);
        };
        run_script(rt, alloc, script, &fixed, files, out)?;
    }
    Ok(())
}

/// The bytes of a file.
fn bytes_of<F: Files>(files: &mut F, path: &str) -> Result<Vec<u8>, FileError> {
    match files.read(path, MOST)? {
        Got::Bytes(bytes) => Ok(bytes),
        Got::Absent | Got::TooLong => Err(FileError::Failed),
    }
}

/// Runs the lines of a script, of which the empty ones say nothing.
fn run_script<R: Threads + Wait + Sync, F: Files, O: Sink>(
    rt: &R,
    alloc: Global,
    script: &str,
    fixed: &Fixed,
    files: &mut F,
    out: &mut O,
) -> Result<(), FileError> {
    let mut case = Case::new(alloc);
    for text in script.split('\n') {
        if !text.is_empty() {
            let Some(line) = line_of(text) else {
                return Err(FileError::Failed);
            };
            if let Line::Copied(name) = line {
                case.add(&bytes_of(files, name)?)?;
            } else {
                let page = page_of(rt, alloc, &mut case, text, line, fixed)?;
                out.put(&page)?;
            }
        }
    }
    Ok(())
}

/// Does what a line says, and returns what is printed then.
fn page_of<R: Threads + Wait + Sync>(
    rt: &R,
    alloc: Global,
    case: &mut Case,
    text: &str,
    line: Line<'_>,
    fixed: &Fixed,
) -> Result<Vec<u8>, FileError> {
    let mut page = Vec::new(alloc);
    match line {
        Line::Title => {
            *case = Case::new(alloc);
            put_line(&mut page, text.as_bytes())?;
        }
        Line::Made(path) => case.make(path)?,
        Line::Absent(path) => case.remove(path)?,
        Line::Whole(text) => {
            case.add(text.as_bytes())?;
            case.add(b"\n")?;
        }
        Line::Part(text) => case.add(text.as_bytes())?,
        Line::Repeated(count, text) => {
            for _ in 0..count {
                case.add(text.as_bytes())?;
            }
        }
        Line::Copied(_) => (),
        Line::Fails(calls, number) => case.fail(calls, number)?,
        Line::Command(words) => {
            put_line(&mut page, text.as_bytes())?;
            put_run(alloc, &mut page, &case.run(rt, words)?)?;
        }
        Line::Question(path) => {
            let Some(bytes) = case.file(path) else {
                return Err(FileError::Failed);
            };
            put_line(&mut page, text.as_bytes())?;
            put_file(&mut page, bytes, fixed)?;
        }
        Line::Lines(path, start) => {
            put_line(&mut page, text.as_bytes())?;
            put_some(&mut page, case.file(path), start)?;
        }
    }
    Ok(page)
}

/// Adds what a command printed.
fn put_run(alloc: Global, page: &mut Vec<u8>, ran: &Ran) -> Result<(), AllocError> {
    let status = ran.status;
    let line = format!(in alloc; "status {status}")?;
    put_line(page, line.as_bytes())?;
    put_text(page, b"1", ran.out.bytes())?;
    put_text(page, b"2", ran.err.bytes())
}

/// Adds what a file holds.
fn put_file(page: &mut Vec<u8>, bytes: Option<&[u8]>, fixed: &Fixed) -> Result<(), AllocError> {
    match bytes {
        None => put_line(page, b"absent"),
        Some(bytes) => match body_of(bytes, fixed) {
            Some(body) => {
                put_line(page, b"<head.js")?;
                put_text(page, b"", body)?;
                put_line(page, b"<tail.js")
            }
            None => put_text(page, b"", bytes),
        },
    }
}

/// Adds the lines of a file that begin with `start`.
fn put_some(page: &mut Vec<u8>, file: Option<Option<&[u8]>>, start: &str) -> Result<(), FileError> {
    match file {
        None => Err(FileError::Failed),
        Some(None) => Ok(put_line(page, b"absent")?),
        Some(Some(bytes)) => Ok(put_lines(page, bytes, start.as_bytes())?),
    }
}

/// What stands between the fixed texts.
fn body_of<'a>(bytes: &'a [u8], fixed: &Fixed) -> Option<&'a [u8]> {
    bytes
        .strip_prefix(fixed.head.as_slice())?
        .strip_suffix(fixed.tail.as_slice())
}
