//! The parts of numbers.

/// What a number has had so far.
#[derive(Clone, Copy, Debug)]
pub(crate) enum Part {
    /// Digits.
    Whole,
    /// Digits, a point and digits.
    Fraction,
    /// Digits, perhaps a point and digits, and an `e` or `E`.
    Exponent,
    /// Anything else.
    Other,
}
