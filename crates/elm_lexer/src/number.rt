//! Numbers with a point or an exponent.

ghost use Rattle.std.specs.Prelude.{◌≡◌};
ghost use Rattle.std.specs.List.{list_all};
ghost use Rattle.elm_lexer.specs.Characters.{is_digit};
ghost use Rattle.elm_lexer.specs.Numbers.{after_digits, are_digits, begins_digit, is_end, is_exponent, is_float};
ghost use Rattle.elm_lexer.specs.Numbers.{is_fraction, is_signed};

use crate::characters::{is_digit, is_exponent_letter, is_sign};

fn begins_digit(text: &[u8]) -> bool
    ensures { result ≡ begins_digit text.now }
{
    match text {
        [c, ..] => is_digit(char::from(*c)),
        [] => false,
    }
}

/// What follows the digits that the text begins with.
fn after_digits(text: &[u8]) -> &[u8]
    ensures { result.now ≡ after_digits text.now }
{
    let mut rest = text;
    while let [c, after @ ..] = rest {
        if !is_digit(char::from(*c)) {
            return rest;
        }
        rest = after;
    }
    rest
}

/// Digits alone, or nothing.
pub(crate) fn has_digits_alone(text: &[u8]) -> bool
    ensures { result ≡ list_all is_digit text.now }
{
    text.iter().all(|c| is_digit(char::from(*c)))
}

/// One digit or more.
fn are_digits(text: &[u8]) -> bool
    ensures { result ≡ are_digits text.now }
{
    match text {
        [c, after @ ..] => is_digit(char::from(*c)) && has_digits_alone(after),
        [] => false,
    }
}

/// Digits, which may have a sign.
fn is_signed(text: &[u8]) -> bool
    ensures { result ≡ is_signed text.now }
{
    match text {
        [c, after @ ..] => {
            if is_sign(char::from(*c)) {
                are_digits(after)
            } else {
                are_digits(text)
            }
        }
        [] => false,
    }
}

/// `e` or `E`, and digits that may have a sign.
fn is_exponent(text: &[u8]) -> bool
    ensures { result ≡ is_exponent text.now }
{
    match text {
        [c, after @ ..] => is_exponent_letter(char::from(*c)) && is_signed(after),
        [] => false,
    }
}

/// Nothing, or an exponent.
fn is_end(text: &[u8]) -> bool
    ensures { result ≡ is_end text.now }
{
    match text {
        [_, ..] => is_exponent(text),
        [] => true,
    }
}

/// A point and digits, or an exponent, or both.
fn is_fraction(text: &[u8]) -> bool
    ensures { result ≡ is_fraction text.now }
{
    match text {
        [c, after @ ..] => {
            if *c == b'.' {
                begins_digit(after) && is_end(after_digits(after))
            } else {
                is_exponent(text)
            }
        }
        [] => false,
    }
}

/// A number with a point or an exponent: `1.5`, `1e3`, `1.5e-3`.
pub(crate) fn is_float(number: &[u8]) -> bool
    ensures { result ≡ is_float number.now }
{
    begins_digit(number) && is_fraction(after_digits(number))
}
