//! What is printed of commands and files.

use std::alloc::AllocError;

/// Adds a line.
pub fn put_line(page: &mut Vec<u8>, line: &[u8]) -> Result<(), AllocError> {
    page.extend_from_slice(line)?;
    page.extend_from_slice(b"\n")
}

/// Adds each line of a text after the mark and `|`, and what follows its last line feed after the mark and `:`.
pub fn put_text(page: &mut Vec<u8>, mark: &[u8], text: &[u8]) -> Result<(), AllocError> {
    let mut line = None;
    for next in text.split(|byte| *byte == b'\n') {
        if let Some(whole) = line {
            put_piece(page, mark, b"|", whole)?;
        }
        line = Some(next);
    }
    match line {
        Some(rest) if !rest.is_empty() => put_piece(page, mark, b":", rest),
        _ => Ok(()),
    }
}

/// Adds the lines of a text that begin with `start`, each after `|`.
pub fn put_lines(page: &mut Vec<u8>, text: &[u8], start: &[u8]) -> Result<(), AllocError> {
    for line in text.split(|byte| *byte == b'\n') {
        if line.starts_with(start) {
            put_piece(page, b"", b"|", line)?;
        }
    }
    Ok(())
}

/// Adds a line of three parts.
fn put_piece(page: &mut Vec<u8>, mark: &[u8], form: &[u8], text: &[u8]) -> Result<(), AllocError> {
    page.extend_from_slice(mark)?;
    page.extend_from_slice(form)?;
    put_line(page, text)
}
