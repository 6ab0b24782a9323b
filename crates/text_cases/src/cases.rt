//! Programs of one line, read and printed back.

use elm_base::position::Pos;
use js_printer::print;
use js_scope::{Refusal, read};
use js_tree::runtime::{HEAD, TAIL};
use std::alloc::{AllocError, Global};

/// The most bytes of a text.
const MOST: usize = 67_108_864;

/// The line of `_main` of the programs.
const MAIN: &[u8] =
    br##"const _main={"name":"Main","program":Main$a,"flags":_dAny(),"ins":{},"outs":{"out":0}};
"##;

/// What was read of a text.
#[derive(Drop)]
enum Read {
    /// A program of so many nodes, which is printed as the same text.
    Same(usize),
    /// A program that is printed as another text.
    Other,
    /// None: the text stops to be one at this place.
    Refused(Pos),
}

/// What is said of a line of a file.
pub fn verdict(alloc: Global, line: &[u8]) -> Result<String, AllocError> {
    match line {
        [b'@', rest @ ..] => said(alloc, &repeated(alloc, rest)?),
        [b'#', b' ', rest @ ..] => said_of_each(alloc, rest),
        _ => said(alloc, line),
    }
}

/// The text of the program whose line declares the expression.
fn program(alloc: Global, expression: &[u8]) -> Result<Vec<u8>, AllocError> {
    let mut text = Vec::from_slice(alloc, HEAD)?;
    text.extend_from_slice(b"const Main$a=")?;
    text.extend_from_slice(expression)?;
    text.extend_from_slice(b";\n")?;
    text.extend_from_slice(MAIN)?;
    text.extend_from_slice(TAIL)?;
    Ok(text)
}

/// The expression that the words `N OPEN MIDDLE CLOSE` write. What is not of this form is read as it is.
fn repeated(alloc: Global, line: &[u8]) -> Result<Vec<u8>, AllocError> {
    let mut words = line.split(|byte| *byte == b' ');
    let parts = (words.next(), words.next(), words.next(), words.next());
    let (Some(count), Some(open), Some(middle), Some(close)) = parts else {
        return Vec::from_slice(alloc, line);
    };
    let times = number(count);
    let mut text = Vec::new(alloc);
    for _ in 0..times {
        text.extend_from_slice(open)?;
    }
    text.extend_from_slice(middle)?;
    for _ in 0..times {
        text.extend_from_slice(close)?;
    }
    Ok(text)
}

/// The number that digits spell.
fn number(digits: &[u8]) -> u32 {
    let mut value = 0u32;
    for digit in digits {
        value = value
            .saturating_mul(10)
            .saturating_add(u32::from(digit.saturating_sub(b'0')));
    }
    value
}

/// What is said of an expression.
fn said(alloc: Global, expression: &[u8]) -> Result<String, AllocError> {
    let text = program(alloc, expression)?;
    match read_back(alloc, &text)? {
        Read::Same(nodes) => format!(in alloc; "{nodes} nodes: "),
        Read::Other => format!(in alloc; "printed otherwise: "),
        Read::Refused(place) => {
            let row = place.row.saturating_sub(rows(HEAD));
            let column = place.column;
            format!(in alloc; "refused at {row}:{column}: ")
        }
    }
}

/// What is said of an expression, and of every fifth shorter text of its program.
fn said_of_each(alloc: Global, expression: &[u8]) -> Result<String, AllocError> {
    let text = program(alloc, expression)?;
    if ends_each(alloc, &text)? {
        format!(in alloc; "shorter texts are refused at their ends: ")
    } else {
        format!(in alloc; "a shorter text is not refused at its end: ")
    }
}

/// Whether a text is refused at a place.
fn is_refused_at(alloc: Global, text: &[u8], place: Pos) -> Result<bool, AllocError> {
    match read_back(alloc, text)? {
        Read::Refused(found) => Ok(found == place),
        _ => Ok(false),
    }
}

/// Whether every fifth shorter text is refused at its end.
fn ends_each(alloc: Global, text: &[u8]) -> Result<bool, AllocError> {
    let mut place = Pos { row: 1, column: 1 };
    for (length, byte) in text.iter().enumerate() {
        if length % 5 == 0 && !is_refused_at(alloc, &text[..length], place)? {
            return Ok(false);
        }
        place = after(place, *byte);
    }
    Ok(true)
}

/// The place after a byte.
fn after(place: Pos, byte: u8) -> Pos {
    if byte == b'\n' {
        Pos {
            row: place.row.saturating_add(1),
            column: 1,
        }
    } else {
        Pos {
            row: place.row,
            column: place.column.saturating_add(1),
        }
    }
}

/// How many line feeds are in a text.
fn rows(text: &[u8]) -> u32 {
    let mut rows = 0u32;
    for byte in text {
        if *byte == b'\n' {
            rows = rows.saturating_add(1);
        }
    }
    rows
}

/// Reads a text, and prints what was read.
fn read_back(alloc: Global, text: &[u8]) -> Result<Read, AllocError> {
    if text.len() > MOST {
        return Ok(Read::Other);
    }
    match read(alloc, text) {
        Ok(trees) => {
            if print(alloc, &trees)?.as_slice() == text {
                Ok(Read::Same(trees.len()))
            } else {
                Ok(Read::Other)
            }
        }
        Err(Refusal::At(place)) => Ok(Read::Refused(place)),
        Err(Refusal::NoMemory) => Err(AllocError),
    }
}
