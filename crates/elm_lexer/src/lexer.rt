//! The loop over a text.

ghost use Rattle.std.specs.Prelude.{◌≡◌, ℕ, ◌+◌, ◌<◌, ◌≤◌, ◌^◌, List, length, map, IfOk, IfErr};
ghost use Rattle.elm_lexer.specs.Tokens.{Token as PlainToken, Tokens, HasFault, fault_at};
ghost use Rattle.elm_lexer.specs.View.{token_view, place_view, fault_view, IfFault};

use crate::error::{TextError, TextFault};
use crate::first::First;
use crate::firsts::first_in;
use crate::gap::{after_gap, begins_gap};
use crate::place::place_after;
use crate::token::Token;
use elm_base::fault::Code;
use elm_base::position::Pos;
use std::alloc::Global;
use std::str::from_utf8;

/// The fault that stands after `before` bytes of the text, which begins at `place`, and names its first `detail` bytes.
fn fault_at(place: Pos, text: &[u8], code: Code, before: usize, detail: usize) -> TextFault<'_>
    requires row { place.row + length text.now < 2 ^ 32 }
    requires column { place.column + length text.now < 2 ^ 32 }
    requires before { before ≤ length text.now }
    requires detail { detail ≤ length text.now }
    ensures { fault_view result ≡ fault_at (place_view place) text.now code before detail }
{
    TextFault {
        code,
        place: place_after(place, &text[..before]),
        detail: &text[..detail],
    }
}

/// The tokens of a text, in order, or its fault. (Elm syntax reference: comments, literals, reserved words.)
///
/// `text` is the bytes of a module's file, at most 4 MiB of them. `alloc` is where the list is kept; the tokens
/// themselves are ranges of the text. The error is the fault of the text, which then has no token list, or out of
/// memory.
pub fn tokens<'a>(alloc: Global, text: &'a [u8]) -> Result<Vec<Token<'a>>, TextError<'a>>
    requires { length text.now ≤ 4194304 }
    ensures found { IfOk result (λ v. Tokens text.now (map token_view v.items)) }
    ensures count { IfOk result (λ v. length v.items ≤ length text.now) }
    ensures only { IfOk result (λ v. (ts : List PlainToken) → Tokens text.now ts → ts ≡ map token_view v.items) }
    ensures fault { IfErr result (λ e. IfFault e (λ f. HasFault text.now f)) }
    ensures none { IfErr result (λ e. IfFault e (λ _. (ts : List PlainToken) → Tokens text.now ts → ⊥)) }
{
    let mut place = Pos { row: 1, column: 1 };
    let Ok(whole) = from_utf8(text) else {
        return Err(TextError::Fault(fault_at(place, text, Code::NotUtf8, 0, 0)));
    };
    let mut found = Vec::new(alloc);
    let mut rest = whole;
    let mut touched = false;
    while !rest.is_empty() {
        let bytes = rest.as_bytes();
        if begins_gap(bytes) {
            let Some(after) = after_gap(bytes) else {
                return Err(TextError::Fault(fault_at(place, bytes, Code::Unclosed, 0, 0)));
            };
            let length = bytes.len() - after.len();
            place = place_after(place, &bytes[..length]);
            rest = &rest[length..];
            touched = true;
        } else {
            match first_in(rest) {
                First::Fault(code, before, detail) => {
                    return Err(TextError::Fault(fault_at(place, bytes, code, before, detail)));
                }
                First::Token(kind, length) => {
                    let (piece, after) = bytes.split_at(length);
                    found.push(Token {
                        kind,
                        text: piece,
                        start: place,
                        space_before: touched,
                        space_after: begins_gap(after),
                    })?;
                    place = place_after(place, piece);
                    rest = &rest[length..];
                    touched = false;
                }
            }
        }
    }
    Ok(found)
}
