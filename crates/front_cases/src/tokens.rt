//! Texts and their tokens, and the values of literals.

ghost use Rattle.std.specs.Prelude.{◌≤◌, length, IfOk};

use crate::print::{add_text, show};
use elm_lexer::{Token, literal_units, tokens};
use std::alloc::{AllocError, Global};

/// Texts: of layouts, numbers, names, dots and signs, and literals.
const TEXTS: [&str; 5] = [
    "if x -- \t\u{e9}\n  {- \u{e9}{- -}\u{e9}\t-}a=Platform.worker\r\n-- end",
    "0x1F 9007199254740991 1. 0",
    "b\u{e9} A\u{e9}.b\u{fc}1 X\u{540d}=a\u{663} e\u{301}x y",
    "r.x .y 0x1e-3 1. ..a 1.x",
    "\"\t\" '\"' '\\'' '\\u{1F600}' \"\"\"a\"b\n\"\"\" \"\" 'é'",
];

/// The most bytes of a text.
const MOST: usize = 4_194_304;

/// Adds the tokens of each text, and the values of four literals.
pub fn rows(alloc: Global, out: &mut String) -> Result<(), AllocError> {
    for text in TEXTS {
        if text.len() <= MOST {
            let found = found_in(alloc, text.as_bytes())?;
            add_tokens(&found, out)?;
        }
    }
    values(alloc, out)
}

/// The tokens of a text, and none of a text that has a fault.
pub fn found_in<'a>(alloc: Global, text: &'a [u8]) -> Result<Vec<Token<'a>>, AllocError>
    requires { length text.now ≤ 4194304 }
    ensures { IfOk result (λ v. length v.items ≤ 4194304) }
{
    match tokens(alloc, text) {
        Ok(found) => Ok(found),
        Err(_) => Ok(Vec::new(alloc)),
    }
}

/// Adds how many tokens there are, and each of them.
fn add_tokens(found: &Vec<Token<'_>>, out: &mut String) -> Result<(), AllocError> {
    show(out, "tokens", &found.len())?;
    for token in found {
        add_token(token, out)?;
    }
    Ok(())
}

/// Adds a token: its kind, its place, whether space stands before it and after it, and its text.
fn add_token(token: &Token<'_>, out: &mut String) -> Result<(), AllocError> {
    write!(
        out,
        "{:?} {}:{} ",
        token.kind, token.start.row, token.start.column
    )?;
    write!(out, "{} {} ", token.space_before, token.space_after)?;
    add_text(out, token.text)?;
    out.push('\n')
}

/// Adds the units of four literals.
fn values(alloc: Global, out: &mut String) -> Result<(), AllocError> {
    let units = literal_units(alloc, b"\"a\\n\\r\\t\\\"\\'\\\\\"")?;
    show(out, "escapes", &units.as_slice())?;
    let units = literal_units(alloc, b"\"\"\"\\u{1f600}\r\n\\u{D800}\"u\"\"\"")?;
    show(out, "lines", &units.as_slice())?;
    let units = literal_units(alloc, b"\"\"")?;
    show(out, "nothing", &units.as_slice())?;
    let units = literal_units(alloc, b"'\\u{10FFFF}'")?;
    show(out, "the last character", &units.as_slice())
}
