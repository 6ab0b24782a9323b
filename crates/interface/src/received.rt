//! Interfaces of their texts.

ghost use Rattle.std.specs.Prelude.{◌≡◌, IfOk, IfNone, IfSome};
ghost use Rattle.interface.specs.Formats.{whole};
ghost use Rattle.interface.specs.Interface as spec;
ghost use Rattle.interface.specs.Reading.{Gives};
ghost use Rattle.interface.specs.Text.{interface_format, text_of, Fits, OneText};
ghost use Rattle.interface.specs.View.{interface_view};

use crate::error::ReadError;
use crate::forms::lists::list_at;
use crate::input::Input;
use crate::offered::Interface;
use std::alloc::{AllocError, Global};

/// The interface that the bytes are the text of.
#[tactic(auto, unfolding(crate::specs::Text::interface_format, crate::specs::Text::values_format, crate::specs::Text::unions_format, crate::specs::Text::aliases_format,))]
fn read(alloc: Global, bytes: &[u8]) -> Result<Interface, ReadError>
    ensures { Gives interface_view result (whole interface_format bytes.now) }
{
    let mut input = Input { rest: bytes };
    let values = list_at(alloc, &mut input)?;
    let unions = list_at(alloc, &mut input)?;
    let aliases = list_at(alloc, &mut input)?;
    if !input.rest.is_empty() {
        return Err(ReadError::Refused);
    }
    let text = Vec::from_slice(alloc, bytes)?;
    Ok(Interface {
        values,
        unions,
        aliases,
        text,
    })
}

/// The interface whose text is `bytes`, or `None` where no interface has that text. The error means that memory ran
/// out.
pub fn from_text(alloc: Global, bytes: &[u8]) -> Result<Option<Interface>, AllocError>
    ensures found { IfOk result (λ found. IfSome found (λ i. text_of (interface_view i) ≡ bytes.now)) }
    ensures fits { IfOk result (λ found. IfSome found (λ i. Fits (interface_view i))) }
    ensures none { IfOk result (λ found. IfNone found
        ((i : spec.Interface) → Fits i → text_of i ≡ bytes.now → ⊥)) }
{
    match read(alloc, bytes) {
        Ok(interface) => Ok(Some(interface)),
        Err(error) => match error {
            ReadError::Refused => Ok(None),
            ReadError::NoMemory => Err(AllocError),
        },
    }
}

/// Two interfaces of one text are the same.
pub fn one_text()
    ensures { OneText }
{}
