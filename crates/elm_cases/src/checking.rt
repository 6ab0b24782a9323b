//! A text against the text of its tree.

ghost use Rattle.std.specs.Prelude.{◌≤◌, length};

use crate::modules::module_text;
use elm_lexer::{Kind, TextError, Token};
use elm_parser::{Parsed, parse_text};
use std::alloc::{AllocError, Global};

/// The most bytes of a text.
const MOST: usize = 4194304;

/// What was found of a text.
#[derive(Clone, Copy)]
pub enum Outcome {
    /// The text of its tree has the same tokens.
    Same,
    /// The text of its tree has the same tokens but for so many parentheses, which are not needed.
    FewerBrackets(usize),
    /// The text of its tree has other tokens.
    OtherTokens,
    /// The text of its tree has a tree with another text.
    OtherTree,
    /// The text of its tree is not read, or is too long.
    Unreadable,
    /// The text is not read.
    Refused,
}

/// A text that was read.
#[derive(Drop)]
struct Reading {
    /// How many tokens it has.
    count: usize,
    /// The tokens, one a line.
    words: Vec<u8>,
    /// The same without parentheses.
    bare: Vec<u8>,
    /// The text of its tree.
    printed: Vec<u8>,
}

impl Reading {
    /// What is told of a text that was read.
    fn of(alloc: Global, parsed: &Parsed<'_>) -> Result<Reading, AllocError> {
        let printed = module_text(alloc, &parsed.tokens, &parsed.module)?;
        Ok(Reading {
            count: parsed.tokens.len(),
            words: words(alloc, &parsed.tokens, true)?,
            bare: words(alloc, &parsed.tokens, false)?,
            printed,
        })
    }

    /// Nothing is told.
    fn empty(alloc: Global) -> Reading {
        Reading {
            count: 0,
            words: Vec::new(alloc),
            bare: Vec::new(alloc),
            printed: Vec::new(alloc),
        }
    }

    /// What is told of a text that was read: nothing, unless `prints` says so.
    fn told(alloc: Global, parsed: &Parsed<'_>, prints: bool) -> Result<Reading, AllocError> {
        if prints {
            Reading::of(alloc, parsed)
        } else {
            Ok(Reading::empty(alloc))
        }
    }
}

/// Reads a text. None: it has a fault.
fn read_text(alloc: Global, text: &[u8], prints: bool) -> Result<Option<Reading>, AllocError>
    requires { length text.now ≤ 4194304 }
{
    match parse_text(alloc, text) {
        Ok(parsed) => Ok(Some(Reading::told(alloc, &parsed, prints)?)),
        Err(TextError::Fault(_)) => Ok(None),
        Err(TextError::NoMemory) => Err(AllocError),
    }
}

/// Reads a text.
pub fn is_read(alloc: Global, text: &[u8]) -> Result<Outcome, AllocError>
    requires { length text.now ≤ 4194304 }
{
    match read_text(alloc, text, false)? {
        Some(_) => Ok(Outcome::Same),
        None => Ok(Outcome::Refused),
    }
}

/// Reads a text, prints its tree, reads that and prints it again. The printed text must have the tokens of the text,
/// and the second printed text must be the same as the first.
pub fn checked(alloc: Global, text: &[u8]) -> Result<Outcome, AllocError>
    requires { length text.now ≤ 4194304 }
{
    match read_text(alloc, text, true)? {
        Some(first) => printed_outcome(alloc, &first),
        None => Ok(Outcome::Refused),
    }
}

/// The outcome of a text that was read.
fn printed_outcome(alloc: Global, first: &Reading) -> Result<Outcome, AllocError> {
    if first.printed.len() > MOST {
        return Ok(Outcome::Unreadable);
    }
    match read_text(alloc, &first.printed, true)? {
        Some(second) => Ok(compared(first, &second)),
        None => Ok(Outcome::Unreadable),
    }
}

/// The outcome of a text, of which `second` is read of the text of the tree of `first`.
fn compared(first: &Reading, second: &Reading) -> Outcome {
    if second.printed != first.printed {
        Outcome::OtherTree
    } else if second.words == first.words {
        Outcome::Same
    } else if second.bare == first.bare {
        Outcome::FewerBrackets(first.count.saturating_sub(second.count))
    } else {
        Outcome::OtherTokens
    }
}

/// The texts of the tokens, one a line, with parentheses or without.
fn words(alloc: Global, tokens: &[Token<'_>], brackets: bool) -> Result<Vec<u8>, AllocError> {
    let mut text = Vec::new(alloc);
    for token in tokens {
        if brackets || !is_bracket(token.kind) {
            text.extend_from_slice(token.text)?;
            text.push(b'\n')?;
        }
    }
    Ok(text)
}

/// Whether a token is a parenthesis.
fn is_bracket(kind: Kind) -> bool {
    kind == Kind::OpenParen || kind == Kind::CloseParen
}
