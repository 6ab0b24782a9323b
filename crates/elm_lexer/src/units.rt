//! The values of texts and characters.

ghost use Rattle.std.specs.Prelude.{◌≡◌, ◌≤◌, ◌+◌, ◌++◌, length, IfOk, OnOk};
ghost use Rattle.std.specs.Str.{IsUtf8, chars};
ghost use Rattle.elm_lexer.specs.Literals.{literal_body, code_units, more_code, escaped_char, units_at, reading_after};
ghost use Rattle.elm_lexer.specs.Literals.{literal_units, SpellsLiteral};
ghost use Rattle.std.specs.Char.Escape.{encode_utf16};

use crate::characters::is_hex_digit;
use crate::kind::digit_value;
use crate::literal::begins_lines;
use crate::reading::Reading;
use elm_base::units::Units;
use std::alloc::{AllocError, Global};
use std::str::from_utf8;

/// What stands between the quotes of a literal.
fn literal_body(literal: &[u8]) -> &[u8]
    requires { 2 ≤ length literal.now }
    ensures { result.now ≡ literal_body literal.now }
{
    if 6 <= literal.len() && begins_lines(literal) {
        &literal[3..literal.len() - 3]
    } else {
        &literal[1..literal.len() - 1]
    }
}

/// Adds the units of a character.
fn push_char(units: &mut Vec<u16>, character: char) -> Result<(), AllocError>
    ensures { OnOk result (units.new.items ≡ units.old.items ++ encode_utf16 character) }
{
    let mut pair = [0; 2];
    units.extend_from_slice(character.encode_utf16(&mut pair))
}

/// Adds the units of a code point or of a surrogate, and none where the code is past both.
fn push_code(units: &mut Vec<u16>, code: u32) -> Result<(), AllocError>
    ensures { OnOk result (units.new.items ≡ units.old.items ++ code_units code) }
{
    if code < 0x10000 {
        units.push(code as u16)?;
        return Ok(());
    }
    match char::from_u32(code) {
        Some(character) => push_char(units, character),
        None => Ok(()),
    }
}

/// The code with one more digit; any other character leaves it.
fn more_code(code: u32, c: char) -> u32
    ensures { result ≡ more_code code c }
{
    let Ok(byte) = u8::try_from(u32::from(c)) else {
        return code;
    };
    if is_hex_digit(byte) && code <= 0x10FFFF {
        code * 16 + digit_value(byte) as u32
    } else {
        code
    }
}

/// What the character after a backslash stands for.
fn escaped_char(c: char) -> char
    ensures { result ≡ escaped_char c }
{
    if c == 'n' {
        '\n'
    } else if c == 'r' {
        '\r'
    } else if c == 't' {
        '\t'
    } else {
        c
    }
}

/// Adds the units that one more character of a literal stands for.
fn push_at(units: &mut Vec<u16>, reading: Reading, c: char) -> Result<(), AllocError>
    ensures { OnOk result (units.new.items ≡ units.old.items ++ units_at reading c) }
{
    match reading {
        Reading::Plain => {
            if c == '\\' {
                Ok(())
            } else {
                push_char(units, c)
            }
        }
        Reading::Escape => {
            if c == 'u' {
                Ok(())
            } else {
                push_char(units, escaped_char(c))
            }
        }
        Reading::Code(code) => {
            if c == '}' {
                push_code(units, code)
            } else {
                Ok(())
            }
        }
    }
}

/// What is being read after one more character of a literal.
fn reading_after(reading: Reading, c: char) -> Reading
    ensures { result ≡ reading_after reading c }
{
    match reading {
        Reading::Plain => {
            if c == '\\' {
                Reading::Escape
            } else {
                Reading::Plain
            }
        }
        Reading::Escape => {
            if c == 'u' {
                Reading::Code(0)
            } else {
                Reading::Plain
            }
        }
        Reading::Code(code) => {
            if c == '}' {
                Reading::Plain
            } else {
                Reading::Code(more_code(code, c))
            }
        }
    }
}

/// The value of a text or a character: its UTF-16 units, lone surrogates included.
///
/// `literal` is the text of a token of the kind `Text` or `Char`. In a text of several lines, line feeds and carriage
/// returns are kept as they are.
pub fn literal_units(alloc: Global, literal: &[u8]) -> Result<Units, AllocError>
    requires { SpellsLiteral literal.now }
    ensures { IfOk result (λ units. units ≡ literal_units literal.now) }
{
    let mut units = Vec::new(alloc);
    let Ok(body) = from_utf8(literal_body(literal)) else {
        return Ok(Units::from_vec(units));
    };
    let mut reading = Reading::Plain;
    for c in body.chars() {
        push_at(&mut units, reading, c)?;
        reading = reading_after(reading, c);
    }
    Ok(Units::from_vec(units))
}
