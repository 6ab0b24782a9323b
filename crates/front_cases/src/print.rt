//! How rows are printed.

use std::alloc::AllocError;
use std::fmt::Debug;
use std::str::from_utf8;

/// Adds a row: its name, and a value.
pub fn show<T: Debug>(out: &mut String, row: &str, value: &T) -> Result<(), AllocError> {
    writeln!(out, "{row}: {value:?}")
}

/// Adds a row: its name, and a text.
pub fn show_text(out: &mut String, row: &str, text: &[u8]) -> Result<(), AllocError> {
    write!(out, "{row}: ")?;
    add_text(out, text)?;
    out.push('\n')
}

/// Adds a text.
pub fn add_text(out: &mut String, text: &[u8]) -> Result<(), AllocError> {
    match from_utf8(text) {
        Ok(text) => out.push_str(text),
        Err(_) => out.push_str("no UTF-8"),
    }
}
