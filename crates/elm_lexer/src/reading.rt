//! States of the reader of texts and characters.

/// What is being read of a literal.
#[derive(Clone, Copy, Debug)]
pub(crate) enum Reading {
    /// Characters that stand for themselves.
    Plain,
    /// What follows a backslash.
    Escape,
    /// A code in braces, whose digits so far spell this.
    Code(u32),
}
