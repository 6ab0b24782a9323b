//! The text of a type.

ghost use Rattle.std.specs.Prelude.{◌≡◌, IfOk};
ghost use Rattle.elm_type.specs.View.{scheme_view};
ghost use Rattle.elm_type.specs.Text.{type_text, utf8};

use crate::naming::names_of;
use crate::rename;
use crate::scheme::Scheme;
use crate::writing::write;
use std::alloc::{AllocError, Global};

/// The text of the type of a scheme, in UTF-8, as Elm writes types. In order of appearance each variable has the first
/// name of its class that no rigid constant and no variable before it has: a to z, a1 and so on, or the name of the
/// class, then that name with 1, 2 and so on. The error means that memory ran out.
pub fn type_text(alloc: Global, scheme: &Scheme) -> Result<Vec<u8>, AllocError>
    ensures { IfOk result (λ text. text.items ≡ utf8 (type_text (scheme_view scheme.now))) }
{
    let ordered = rename(alloc, scheme)?;
    let names = names_of(alloc, &ordered)?;
    let units = write(alloc, &ordered.ty, &names)?;
    let text = String::from_utf16_lossy(alloc, &units)?;
    Ok(text.into_bytes())
}
