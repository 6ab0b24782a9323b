//! What a text begins with, found.

ghost use Rattle.std.specs.Prelude.{◌≡◌, false, ◌<◌, ◌≤◌, ◌^◌, length};
ghost use Rattle.std.specs.Str.{chars};
ghost use Rattle.elm_lexer.specs.Kinds.{kind_of as the_kind};
ghost use Rattle.elm_lexer.specs.Literals.{bad_escape as the_escape, literal_kind as the_literal_kind};
ghost use Rattle.elm_lexer.specs.Firsts.{piece_first, stray_code, kind_first, good_first, bad_first, escape_first};
ghost use Rattle.elm_lexer.specs.Firsts.{literal_first, IsWithin, first_in};

use crate::first::First;
use crate::kind::{detail_length, fault_of, kind_of};
use crate::literal::{
    bad_escape, begins_literal, begins_text, is_tab, literal_kind, literal_length,
};
use crate::piece::piece_length;
use elm_base::fault::Code;

/// What a piece is: a token, or the fault of one that is none.
fn piece_first(piece: &[u8]) -> First
    ensures value { result ≡ piece_first piece.now (the_kind piece.now) }
    ensures within { IsWithin result (length piece.now) }
{
    match kind_of(piece) {
        Some(kind) => First::Token(kind, piece.len()),
        None => First::Fault(fault_of(piece), 0, detail_length(piece)),
    }
}

/// The fault of a character that begins nothing.
fn stray_code(text: &[u8]) -> Code
    ensures { result ≡ stray_code text.now }
{
    match text {
        [b'\t', ..] => Code::Tab,
        _ => Code::Syntax,
    }
}

/// What a literal is whose escapes are good.
fn kind_first(literal: &[u8]) -> First
    ensures value { result ≡ kind_first literal.now (the_literal_kind literal.now) }
    ensures within { IsWithin result (length literal.now) }
{
    match literal_kind(literal) {
        Some(kind) => First::Token(kind, literal.len()),
        None => First::Fault(Code::Syntax, 0, 0),
    }
}

/// What a literal is whose escapes are good. The tab has a fault of its own.
fn good_first(literal: &[u8]) -> First
    ensures value { result ≡ good_first literal.now }
    ensures within { IsWithin result (length literal.now) }
{
    if is_tab(literal) {
        First::Fault(Code::Tab, 1, 0)
    } else {
        kind_first(literal)
    }
}

/// What a literal is whose first bad escape stands after `before` bytes.
fn bad_first(literal: &[u8], before: usize) -> First
    requires { before ≤ length literal.now }
    ensures value { result ≡ bad_first literal.now before }
    ensures within { IsWithin result (length literal.now) }
{
    if begins_text(literal) || before == 1 {
        First::Fault(Code::BadEscape, before, 0)
    } else {
        First::Fault(Code::Syntax, 0, 0)
    }
}

/// What a literal is that has an end.
fn escape_first(literal: &[u8]) -> First
    ensures value { result ≡ escape_first literal.now (the_escape false 0 literal.now) }
    ensures within { IsWithin result (length literal.now) }
{
    match bad_escape(literal) {
        Some(before) => bad_first(literal, before),
        None => good_first(literal),
    }
}

/// What a text is that begins with a quote.
fn literal_first(text: &[u8]) -> First
    requires { length text.now < 2 ^ 32 }
    ensures value { result ≡ literal_first text.now }
    ensures within { IsWithin result (length text.now) }
{
    match literal_length(text) {
        Some(length) => escape_first(&text[..length]),
        None => First::Fault(Code::Unclosed, 0, 0),
    }
}

/// What the text begins with, where that is no gap.
pub(crate) fn first_in(text: &str) -> First
    requires { length text.now < 2 ^ 32 }
    ensures value { result ≡ first_in text.now }
    ensures within { IsWithin result (length text.now) }
{
    let bytes = text.as_bytes();
    if begins_literal(bytes) {
        return literal_first(bytes);
    }
    let length = piece_length(text);
    if length == 0 {
        First::Fault(stray_code(bytes), 0, 0)
    } else {
        piece_first(&bytes[..length])
    }
}
