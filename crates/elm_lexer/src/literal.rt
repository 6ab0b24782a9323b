//! Texts and characters between quotes.

ghost use Rattle.std.specs.Prelude.{◌≡◌, ◌≤◌, ◌<◌, ◌+◌, ◌^◌, false, length, not, ◌&&◌, IsTrue, IfSome, codes};
ghost use Rattle.elm_lexer.specs.Characters.{is_among};
ghost use Rattle.elm_lexer.specs.Literals.{begins_literal, begins_lines, escapes, closes, line_length, lines_length};
ghost use Rattle.elm_lexer.specs.Literals.{literal_length, ends_code, begins_code, begins_escape, bad_escape, is_quote};
ghost use Rattle.elm_lexer.specs.Literals.{is_code_and_quote, is_escape_and_quote, is_rest_and_quote, is_character};
ghost use Rattle.elm_lexer.specs.Literals.{begins_text, is_tab, literal_kind};

use crate::characters::{is_continuing, is_hex_digit};
use crate::kind::digit_value;
use crate::token::Kind;

/// Whether the text begins with a quote.
pub(crate) fn begins_literal(text: &[u8]) -> bool
    ensures { result ≡ begins_literal text.now }
{
    match text {
        [c, ..] => *c == b'"' || *c == b'\'',
        [] => false,
    }
}

/// Whether the text begins with `"""`.
pub(crate) fn begins_lines(text: &[u8]) -> bool
    ensures value { result ≡ begins_lines text.now }
    ensures long { IsTrue result → 3 ≤ length text.now }
{
    match text {
        [a, b, c, ..] => *a == b'"' && *b == b'"' && *c == b'"',
        _ => false,
    }
}

/// Whether `c` is a backslash that escapes what follows.
fn escapes(escaped: bool, c: u8) -> bool
    ensures { result ≡ escapes escaped c }
{
    !escaped && c == b'\\'
}

/// Whether `c` is the quote that ends a literal.
fn closes(quote: u8, escaped: bool, c: u8) -> bool
    ensures { result ≡ closes quote escaped c }
{
    !escaped && c == quote
}

/// The length of the literal of one line that `quote` opens before the text, with both quotes.
fn line_length(quote: u8, text: &[u8]) -> Option<usize>
    requires { length text.now < 2 ^ 32 }
    ensures value { result ≡ line_length quote false 1 text.now }
    ensures within { IfSome result (λ n. n ≤ 1 + length text.now) }
{
    let mut count = 1;
    let mut escaped = false;
    let mut rest = text;
    while let [c, after @ ..] = rest {
        if *c == b'\n' {
            return None;
        }
        count += 1;
        if closes(quote, escaped, *c) {
            return Some(count);
        }
        escaped = escapes(escaped, *c);
        rest = after;
    }
    None
}

/// Whether a literal of several lines ends here.
fn closes_lines(escaped: bool, text: &[u8]) -> bool
    ensures value { result ≡ (not escaped && begins_lines text.now) }
    ensures long { IsTrue result → 3 ≤ length text.now }
{
    !escaped && begins_lines(text)
}

/// The length of the literal of several lines that is open before the text, with its quotes.
fn lines_length(text: &[u8]) -> Option<usize>
    requires { length text.now < 2 ^ 32 }
    ensures value { result ≡ lines_length false 3 text.now }
    ensures within { IfSome result (λ n. n ≤ 3 + length text.now) }
{
    let mut count = 3;
    let mut escaped = false;
    let mut rest = text;
    while let [c, after @ ..] = rest {
        if closes_lines(escaped, rest) {
            return Some(count + 3);
        }
        count += 1;
        escaped = escapes(escaped, *c);
        rest = after;
    }
    None
}

/// The length of the literal that the text begins with, or nothing where it has no end.
pub(crate) fn literal_length(text: &[u8]) -> Option<usize>
    requires { length text.now < 2 ^ 32 }
    ensures value { result ≡ literal_length text.now }
    ensures within { IfSome result (λ n. n ≤ length text.now) }
{
    let [c, after @ ..] = text else {
        return None;
    };
    if begins_lines(text) {
        lines_length(&text[3..])
    } else {
        line_length(*c, after)
    }
}

/// Whether the text goes on with the 4 to 6 hexadecimal digits of a code, and its brace.
fn ends_code(text: &[u8]) -> bool
    ensures { result ≡ ends_code 0 0 text.now }
{
    let mut count: u32 = 0;
    let mut value = 0;
    let mut rest = text;
    while let [c, after @ ..] = rest {
        if !is_hex_digit(*c) {
            return *c == b'}' && 4 <= count;
        }
        if 6 <= count {
            return false;
        }
        count += 1;
        value = value * 16 + digit_value(*c);
        if value > 0x10FFFF {
            return false;
        }
        rest = after;
    }
    false
}

fn begins_code(text: &[u8]) -> bool
    ensures { result ≡ begins_code text.now }
{
    match text {
        [c, after @ ..] => *c == b'{' && ends_code(after),
        [] => false,
    }
}

/// Whether `c` alone is an escape, after a backslash.
fn is_short_escape(c: u8) -> bool
    ensures { result ≡ is_among (codes "nrt\"'\\") c }
{
    c == b'n' || c == b'r' || c == b't' || c == b'"' || c == b'\'' || c == b'\\'
}

/// Whether the text, which follows a backslash, begins with an escape.
fn begins_escape(text: &[u8]) -> bool
    ensures { result ≡ begins_escape text.now }
{
    match text {
        [c, after @ ..] => is_short_escape(*c) || (*c == b'u' && begins_code(after)),
        [] => false,
    }
}

/// Whether a backslash stands before the text, and the text begins with no escape.
fn is_bad_escape(escaped: bool, text: &[u8]) -> bool
    ensures { result ≡ (escaped && not (begins_escape text.now)) }
{
    escaped && !begins_escape(text)
}

/// How many bytes of the literal stand before its first backslash that begins no escape, if it has one.
pub(crate) fn bad_escape(literal: &[u8]) -> Option<usize>
    ensures value { result ≡ bad_escape false 0 literal.now }
    ensures within { IfSome result (λ n. n ≤ length literal.now) }
{
    let mut count = 0;
    let mut escaped = false;
    let mut rest = literal;
    while let [c, after @ ..] = rest {
        escaped = escapes(escaped, *c);
        if is_bad_escape(escaped, after) {
            return Some(count);
        }
        count += 1;
        rest = after;
    }
    None
}

fn is_quote(text: &[u8]) -> bool
    ensures { result ≡ is_quote text.now }
{
    match text {
        [_] => true,
        _ => false,
    }
}

fn is_code_and_quote(text: &[u8]) -> bool
    ensures { result ≡ is_code_and_quote text.now }
{
    let mut rest = text;
    while let [c, after @ ..] = rest {
        if *c == b'}' {
            return is_quote(after);
        }
        rest = after;
    }
    false
}

fn is_escape_and_quote(text: &[u8]) -> bool
    ensures { result ≡ is_escape_and_quote text.now }
{
    match text {
        [c, after @ ..] => {
            if *c == b'u' {
                is_code_and_quote(after)
            } else {
                is_quote(after)
            }
        }
        [] => false,
    }
}

fn is_rest_and_quote(text: &[u8]) -> bool
    ensures { result ≡ is_rest_and_quote text.now }
{
    let mut rest = text;
    while let [c, after @ ..] = rest {
        if !is_continuing(*c) {
            return is_quote(rest);
        }
        rest = after;
    }
    false
}

/// Whether one character or one escape stands between the quotes.
fn is_character(literal: &[u8]) -> bool
    ensures { result ≡ is_character literal.now }
{
    match literal {
        [_, c, after @ ..] => {
            if *c == b'\\' {
                is_escape_and_quote(after)
            } else {
                is_rest_and_quote(after)
            }
        }
        _ => false,
    }
}

/// Whether the literal is a text, and no character.
pub(crate) fn begins_text(literal: &[u8]) -> bool
    ensures { result ≡ begins_text literal.now }
{
    match literal {
        [c, ..] => *c == b'"',
        [] => false,
    }
}

/// Whether the literal is the character of a tab.
pub(crate) fn is_tab(literal: &[u8]) -> bool
    ensures value { result ≡ is_tab literal.now }
    ensures long { IsTrue result → 2 ≤ length literal.now }
{
    match literal {
        [quote, c, after @ ..] => *quote == b'\'' && *c == b'\t' && is_quote(after),
        _ => false,
    }
}

/// What the literal is, or nothing where it is not a token.
pub(crate) fn literal_kind(literal: &[u8]) -> Option<Kind>
    ensures { result ≡ literal_kind literal.now }
{
    let [c, ..] = literal else {
        return None;
    };
    if *c == b'"' {
        Some(Kind::Text)
    } else if is_character(literal) {
        Some(Kind::Char)
    } else {
        None
    }
}
