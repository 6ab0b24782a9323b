//! The text of the inputs of a run.

ghost use Rattle.std.specs.Prelude.{◌≡◌, ◌≤◌, IfOk, length, map, option_map};
ghost use Rattle.js_code.specs.View.{field_view, fields_of};
ghost use Rattle.js_code.specs.Ports.{names_of};
ghost use Rattle.run_files.specs.Given.{given, input_of};
ghost use Rattle.run_files.specs.View.{given_view, input_view};
ghost use Rattle.run_files.specs.Lines.{Reads, ReadsAll};

use crate::cuts::{cut_blank, cut_line};
use elm_base::text::Text;
use elm_base::units::{Units, text_units};
use js_code::code::Field;
use js_code::program::has_name;
use std::alloc::{AllocError, Global};
use wire_value::{Wire, read};

/// An input: a port's name, and a value.
#[derive(Drop)]
pub struct Input {
    pub port: Units,
    pub value: Wire,
}

/// What a text of inputs gives. Rows are counted from 1.
#[derive(Drop)]
pub enum Given {
    /// The line of this row is not of its form, and no line before it is refused.
    BadLine(u32),
    /// The line of this row names this port, which the program does not have, and no line before it is refused.
    UnknownPort(u32, Text),
    /// The flags, and the inputs.
    Inputs(Wire, Vec<Input>),
}

/// What a line gives.
#[derive(Drop)]
enum Line {
    Bad,
    Unknown(Text),
    Good(Input),
}

/// What the lines after the first give.
#[derive(Drop)]
enum Rest {
    Bad(u32),
    Unknown(u32, Text),
    Good(Vec<Input>),
}

/// The input of a line `PORT JSON`, if it is one.
fn read_input(alloc: Global, line: &[u8]) -> Result<Option<Input>, AllocError>
    ensures { IfOk result (λ found. option_map input_view found ≡ input_of line.now) }
{
    let Some((port, json)) = cut_blank(line) else {
        return Ok(None);
    };
    let Ok(port) = str::from_utf8(port) else {
        return Ok(None);
    };
    if port.is_empty() {
        return Ok(None);
    }
    let Some(value) = read(alloc, json)? else {
        return Ok(None);
    };
    let port = text_units(alloc, port)?;
    Ok(Some(Input { port, value }))
}

/// What a line gives, at the incoming ports.
fn read_line(alloc: Global, line: &[u8], ins: &[Field]) -> Result<Line, AllocError>
    ensures { IfOk result (λ found. Reads (names_of (fields_of (map field_view ins.now))) line.now found) }
{
    let Some(input) = read_input(alloc, line)? else {
        return Ok(Line::Bad);
    };
    if has_name(ins, input.port.as_slice()) {
        return Ok(Line::Good(input));
    }
    match cut_blank(line) {
        Some((port, _)) => Ok(Line::Unknown(Text::copy(alloc, port)?)),
        // This does not happen: the line of an input has a space.
        None => Ok(Line::Bad),
    }
}

/// What the lines after the first give.
fn read_lines(alloc: Global, text: &[u8], ins: &[Field]) -> Result<Rest, AllocError>
    requires { length text.now ≤ 4194304 }
    ensures { IfOk result (λ rest. ReadsAll (names_of (fields_of (map field_view ins.now))) text.now rest) }
{
    let mut inputs = Vec::new(alloc);
    let mut rest = text;
    let mut row = 2;
    while let Some((line, behind)) = cut_line(rest) {
        match read_line(alloc, line, ins)? {
            Line::Bad => return Ok(Rest::Bad(row)),
            Line::Unknown(port) => return Ok(Rest::Unknown(row, port)),
            Line::Good(input) => inputs.push(input)?,
        }
        rest = behind;
        row += 1;
    }
    Ok(Rest::Good(inputs))
}

/// What the text of the inputs of a run gives to a program with these incoming ports: a line with the flags in JSON,
/// and then a line `PORT JSON` for each input. (RFC 8259.)
///
/// `text` is the whole text. Each of its bytes is looked at twice at most before JSON is read. The error is out of
/// memory.
pub fn read_inputs(alloc: Global, text: &[u8], ins: &[Field]) -> Result<Given, AllocError>
    requires { length text.now ≤ 4194304 }
    ensures { IfOk result (λ g. given_view g ≡ given (names_of (fields_of (map field_view ins.now))) text.now) }
{
    let Some((line, rest)) = cut_line(text) else {
        return Ok(Given::BadLine(1));
    };
    let Some(flags) = read(alloc, line)? else {
        return Ok(Given::BadLine(1));
    };
    match read_lines(alloc, rest, ins)? {
        Rest::Bad(row) => Ok(Given::BadLine(row)),
        Rest::Unknown(row, port) => Ok(Given::UnknownPort(row, port)),
        Rest::Good(inputs) => Ok(Given::Inputs(flags, inputs)),
    }
}
