//! Texts in quotes, all in ASCII, as JSON and the JavaScript of an output spell them alike. (RFC 8259, 7; ECMA-262,
//! 12.9.4.)

ghost use Rattle.std.specs.Prelude.{◌≡◌, ◌<◌, ◌++◌, OnOk};
ghost use Rattle.elm_base.specs.Quoted as spelled;

use std::alloc::AllocError;

/// A digit of base 16.
fn hex_digit(digit: u16) -> u8
    requires { digit < 16 }
    ensures { result ≡ spelled.hex_digit digit }
{
    if digit < 10 {
        digit as u8 + b'0'
    } else {
        digit as u8 + (b'A' - 10)
    }
}

/// Adds four digits of base 16.
pub fn write_hex4(text: &mut Vec<u8>, unit: u16) -> Result<(), AllocError>
    ensures { OnOk result (text.new.items ≡ text.old.items ++ spelled.hex4 unit) }
{
    text.push(hex_digit(unit / 4096 % 16))?;
    text.push(hex_digit(unit / 256 % 16))?;
    text.push(hex_digit(unit / 16 % 16))?;
    text.push(hex_digit(unit % 16))?;
    Ok(())
}

/// Adds a unit inside of a text.
fn write_unit(text: &mut Vec<u8>, unit: u16) -> Result<(), AllocError>
    ensures { OnOk result (text.new.items ≡ text.old.items ++ spelled.unit_text unit) }
{
    match unit {
        0x22 | 0x5C => text.extend_from_slice(&[b'\\', unit as u8])?,
        0x20..=0x7E => text.push(unit as u8)?,
        _ => {
            text.extend_from_slice(b"\\u")?;
            write_hex4(text, unit)?;
        }
    }
    Ok(())
}

/// Adds a text, by its UTF-16 units, in its quotes.
pub fn write_text(text: &mut Vec<u8>, units: &[u16]) -> Result<(), AllocError>
    ensures { OnOk result (text.new.items ≡ text.old.items ++ spelled.text_text units.now) }
{
    text.push(b'"')?;
    for unit in units {
        write_unit(text, *unit)?;
    }
    text.push(b'"')?;
    Ok(())
}
