//! Why a text was not read.

ghost use Rattle.std.specs.Prelude.{◌≡◌};
ghost use Rattle.elm_lexer.specs.declared.error.TextError.TheVariants.{NoMemory};

use elm_base::fault::Code;
use elm_base::position::Pos;
use std::alloc::{AllocError, AllocFailed};

/// The fault of a text: it has no tokens, or its tokens spell no module.
#[derive(Clone, Copy, Debug)]
pub struct TextFault<'a> {
    /// What kind of fault it is.
    pub code: Code,
    /// Where it stands.
    pub place: Pos,
    /// What the fault says of the text, empty where its kind says all.
    pub detail: &'a [u8],
}

/// Why a text was not read.
#[derive(Clone, Copy, Debug)]
pub enum TextError<'a> {
    /// Memory ran out.
    NoMemory,
    /// The text has a fault.
    Fault(TextFault<'a>),
}

impl<'a, T: Drop> From<AllocFailed<T>> for TextError<'a> {
    ghost from_gives = { λ _ e. e ≡ NoMemory };

    fn from(_failed: AllocFailed<T>) -> TextError<'a> {
        TextError::NoMemory
    }
}

impl<'a> From<AllocError> for TextError<'a> {
    ghost from_gives = { λ _ e. e ≡ NoMemory };

    fn from(_error: AllocError) -> TextError<'a> {
        TextError::NoMemory
    }
}
