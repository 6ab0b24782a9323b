//! Numbers and names.

ghost use Rattle.std.specs.Prelude.{◌≡◌, [], ◌++◌, OnOk, if◌then◌else◌, codes};
ghost use Rattle.js_tree.specs.Text as spelled;
ghost use Rattle.js_tree.specs.Postorder.{name_view};

use elm_base::quoted::write_hex4;
use itoa::Buffer;
use js_tree::tree::Name;
use std::alloc::AllocError;

/// Adds an integer, a negative one in brackets.
pub fn write_int(text: &mut Vec<u8>, value: i64) -> Result<(), AllocError>
    ensures { OnOk result (text.new.items ≡ text.old.items ++ spelled.int_text value) }
{
    let mut buffer = Buffer::new();
    let digits = buffer.format(value).as_bytes();
    if value < 0 {
        text.push(b'(')?;
        text.extend_from_slice(digits)?;
        text.push(b')')?;
    } else {
        text.extend_from_slice(digits)?;
    }
    Ok(())
}

/// Adds a unit inside of a name.
fn write_name_unit(text: &mut Vec<u8>, unit: u16) -> Result<(), AllocError>
    ensures { OnOk result (text.new.items ≡ text.old.items ++ spelled.name_unit unit) }
{
    match unit {
        // A point.
        0x2E => text.push(b'$')?,
        // A letter, a digit or `_`.
        0x41..=0x5A | 0x61..=0x7A | 0x30..=0x39 | 0x5F => text.push(unit as u8)?,
        _ => {
            text.extend_from_slice(b"$$")?;
            write_hex4(text, unit)?;
        }
    }
    Ok(())
}

fn write_name_units(text: &mut Vec<u8>, units: &[u16]) -> Result<(), AllocError>
    ensures { OnOk result (text.new.items ≡ text.old.items ++ spelled.name_units units.now) }
{
    for unit in units {
        write_name_unit(text, *unit)?;
    }
    Ok(())
}

/// Adds the comma before an element of a list, but for the first.
pub fn write_comma(text: &mut Vec<u8>, is_first: bool) -> Result<(), AllocError>
    ensures { OnOk result (text.new.items ≡ text.old.items ++ (if is_first then [] else codes ",")) }
{
    if !is_first {
        text.push(b',')?;
    }
    Ok(())
}

/// Adds a name.
pub fn write_name(text: &mut Vec<u8>, name: &Name) -> Result<(), AllocError>
    ensures { OnOk result (text.new.items ≡ text.old.items ++ spelled.name_text (name_view name.now)) }
{
    match name {
        Name::Top { module, name } => {
            write_name_units(text, module.as_slice())?;
            text.push(b'$')?;
            write_name_units(text, name.as_slice())
        }
        Name::Local(name) => {
            text.push(b'$')?;
            write_name_units(text, name.as_slice())
        }
        Name::Made(number) => {
            let mut buffer = Buffer::new();
            text.extend_from_slice(b"$$")?;
            text.extend_from_slice(buffer.format(*number).as_bytes())
        }
    }
}
