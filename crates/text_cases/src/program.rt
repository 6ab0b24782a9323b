//! The loops over the files and their lines.

use crate::cases::verdict;
use elm_files::{FileError, Files, Got, Sink};
use std::alloc::Global;

/// The most bytes of a file.
const MOST: u64 = 4194304;

/// Checks the lines of each file, and prints each line after its verdict.
pub fn check_all<F: Files, O: Sink>(
    alloc: Global,
    words: &[String],
    files: &mut F,
    out: &mut O,
) -> Result<(), FileError> {
    for path in words.iter().skip(1) {
        match files.read(path, MOST)? {
            Got::Bytes(bytes) => check_lines(alloc, &bytes, out)?,
            Got::Absent | Got::TooLong => return Err(FileError::Failed),
        }
    }
    Ok(())
}

/// Checks lines.
fn check_lines<O: Sink>(alloc: Global, bytes: &[u8], out: &mut O) -> Result<(), FileError> {
    for line in bytes.split(|byte| *byte == b'\n') {
        if !line.is_empty() {
            let said = verdict(alloc, line)?;
            out.put(said.as_bytes())?;
            out.put(line)?;
            out.put(b"\n")?;
        }
    }
    Ok(())
}
