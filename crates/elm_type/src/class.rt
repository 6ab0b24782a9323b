//! Classes of types.

/// What a type variable may stand for. (Elm guide: types, constrained type variables.)
#[derive(Clone, Copy, Debug, PartialEq, Eq)]
pub enum Class {
    /// Every type.
    Any,
    /// Whole numbers.
    Number,
    /// Numbers, characters, texts, and lists and tuples of comparable types.
    Comparable,
    /// Texts and lists.
    Appendable,
    /// Texts, and lists of comparable types.
    CompAppend,
}
