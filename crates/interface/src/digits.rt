//! Numbers.

ghost use Rattle.std.specs.Prelude.{◌≡◌, ◌≤◌, [], ◌∷◌, ◌++◌, IfSome, IfOk, OnOk, decimal};
ghost use Rattle.interface.specs.Formats.{with_digit, digit_of, digits_at, zero_at, number_at};
ghost use Rattle.interface.specs.Reading.{Gives};

use crate::error::ReadError;
use crate::input::Input;
use itoa::Buffer;
use std::alloc::AllocError;

/// Adds a number.
pub(crate) fn put_number(out: &mut Vec<u8>, value: u64) -> Result<(), AllocError>
    ensures { OnOk result (out.new.items ≡ out.old.items ++ (decimal value ++ 32 ∷ [])) }
{
    let mut buffer = Buffer::new();
    out.extend_from_slice(buffer.format(value).as_bytes())?;
    out.push(b' ')?;
    Ok(())
}

/// The number with one more digit, unless that is more than the most.
fn with_digit(most: u64, value: u64, digit: u64) -> Option<u64>
    ensures digit { result ≡ with_digit most value digit }
    ensures within { IfSome result (λ next. next ≤ most) }
{
    match value.checked_mul(10) {
        None => None,
        Some(tens) => match tens.checked_add(digit) {
            None => None,
            Some(next) => { if most < next { None } else { Some(next) } }
        },
    }
}

/// The number with the digit that the byte is.
fn digit_of(most: u64, value: u64, byte: u8) -> Option<u64>
    ensures digit { result ≡ digit_of most value byte }
    ensures within { IfSome result (λ next. next ≤ most) }
{
    if byte >= 48 && byte < 58 {
        with_digit(most, value, u64::from(byte - 48))
    } else {
        None
    }
}

/// The number of these first digits, up to the space.
#[tactic(auto, unfolding(crate::specs::Formats::digits_at))]
fn digits_at(bytes: &[u8], most: u64, first: u64) -> Result<(u64, &[u8]), ReadError>
    requires { first ≤ most }
    ensures digits { Gives (λ x. (x.0, x.1.now)) result (digits_at most first bytes.now) }
    ensures within { IfOk result (λ x. x.0 ≤ most) }
{
    let mut value = first;
    let mut rest = bytes;
    while let [byte, after @ ..] = rest {
        if *byte == b' ' {
            return Ok((value, after));
        }
        match digit_of(most, value, *byte) {
            None => return Err(ReadError::Refused),
            Some(next) => {
                value = next;
                rest = after;
            }
        }
    }
    Err(ReadError::Refused)
}

/// The space after a zero.
fn zero_at(bytes: &[u8]) -> Result<(u64, &[u8]), ReadError>
    ensures zero { Gives (λ x. (x.0, x.1.now)) result (zero_at bytes.now) }
    ensures within { IfOk result (λ x. x.0 ≡ 0) }
{
    match bytes {
        [] => Err(ReadError::Refused),
        [byte, rest @ ..] => {
            if *byte == b' ' {
                Ok((0, rest))
            } else {
                Err(ReadError::Refused)
            }
        }
    }
}

/// The number that the bytes begin with, which is no more than the most, and the rest of them.
#[tactic(auto, unfolding(crate::specs::Formats::number_at))]
fn number_at(bytes: &[u8], most: u64) -> Result<(u64, &[u8]), ReadError>
    ensures number { Gives (λ x. (x.0, x.1.now)) result (number_at most bytes.now) }
    ensures within { IfOk result (λ x. x.0 ≤ most) }
{
    match bytes {
        [] => Err(ReadError::Refused),
        [byte, rest @ ..] => {
            if *byte == 48 {
                return zero_at(rest);
            }
            match digit_of(most, 0, *byte) {
                None => Err(ReadError::Refused),
                Some(value) => digits_at(rest, most, value),
            }
        }
    }
}

/// Takes the number that the input begins with, which is no more than the most.
pub(crate) fn take_number(input: &mut Input, most: u64) -> Result<u64, ReadError>
    ensures number { Gives (λ x. (x, input.new.rest.now)) result (number_at most input.old.rest.now) }
    ensures within { IfOk result (λ x. x ≤ most) }
{
    match number_at(input.rest, most) {
        Ok((value, rest)) => {
            input.rest = rest;
            Ok(value)
        }
        Err(error) => Err(error),
    }
}
