//! What a text begins with.

use crate::token::Kind;
use elm_base::fault::Code;

/// What a text begins with, where that is no gap.
#[derive(Clone, Copy, Debug)]
pub(crate) enum First {
    /// A token of this kind, and how many bytes it has.
    Token(Kind, usize),
    /// A fault, how many bytes of the text stand before it, and how many of them it names.
    Fault(Code, usize, usize),
}
