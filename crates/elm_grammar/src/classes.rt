//! The class of each token of a text.

ghost use Rattle.std.specs.Prelude.{◌≡◌, ◌^◌, ◌<◌, length, map, IfOk};
ghost use Rattle.std.specs.Str.{bytes_eq};
ghost use Rattle.elm_lexer.specs.View.{token_view};
ghost use Rattle.elm_grammar.specs.Classes.{ends_operand, name_class, field_class, minus_class, operator_class};
ghost use Rattle.elm_grammar.specs.Classes.{plain_class, word_class, class_by, classed};

use elm_lexer::token::{Kind, Token};
use parse_machine::table::Token as Classed;
use std::alloc::{AllocError, Global};

const NAME: u8 = 0;

const ALIAS: u8 = 1;

const UPPER: u8 = 2;

const QUALIFIED: u8 = 3;

const QUALIFIED_UPPER: u8 = 4;

const NUMBER: u8 = 5;

const TEXT: u8 = 6;

const ACCESSOR: u8 = 7;

const ACCESS: u8 = 8;

const UNDERSCORE: u8 = 9;

const OPERATOR: u8 = 10;

const CONS: u8 = 11;

const MINUS_TIGHT: u8 = 12;

const MINUS_PREFIX: u8 = 13;

const MINUS_APART: u8 = 14;

const OPEN_PAREN: u8 = 15;

const CLOSE_PAREN: u8 = 16;

const OPEN_SQUARE: u8 = 17;

const CLOSE_SQUARE: u8 = 18;

const OPEN_BRACE: u8 = 19;

const CLOSE_BRACE: u8 = 20;

const COMMA: u8 = 21;

const EQUALS: u8 = 22;

const ARROW: u8 = 23;

const COLON: u8 = 24;

const BAR: u8 = 25;

const DOTS: u8 = 26;

const BACKSLASH: u8 = 27;

const IF: u8 = 28;

const THEN: u8 = 29;

const ELSE: u8 = 30;

const CASE: u8 = 31;

const OF: u8 = 32;

const LET: u8 = 33;

const IN: u8 = 34;

const TYPE: u8 = 35;

const MODULE: u8 = 36;

const IMPORT: u8 = 37;

const EXPOSING: u8 = 38;

const AS: u8 = 39;

const PORT: u8 = 40;

const OTHER: u8 = 41;

fn is(text: &[u8], word: &str) -> bool
    ensures { result ≡ bytes_eq text.now word.now }
{
    text == word.as_bytes()
}

/// Whether an access can follow directly after a token of the class `before`.
fn ends_operand(before: u8) -> bool
    ensures { result ≡ ends_operand before }
{
    before == NAME
        || before == QUALIFIED
        || before == CLOSE_PAREN
        || before == CLOSE_BRACE
        || before == ACCESS
}

fn name_class(before: u8, text: &[u8]) -> u8
    ensures { result ≡ name_class before text.now }
{
    if before == TYPE && is(text, "alias") {
        ALIAS
    } else {
        NAME
    }
}

fn field_class(before: u8, spaced: bool) -> u8
    ensures { result ≡ field_class before spaced }
{
    if !spaced && ends_operand(before) {
        ACCESS
    } else {
        ACCESSOR
    }
}

fn minus_class(spaced_before: bool, spaced_after: bool) -> u8
    ensures { result ≡ minus_class spaced_before spaced_after }
{
    if spaced_after {
        MINUS_APART
    } else if spaced_before {
        MINUS_PREFIX
    } else {
        MINUS_TIGHT
    }
}

fn operator_class(token: Token<'_>) -> u8
    ensures { result ≡ operator_class (token_view token.entry) }
{
    if is(token.text, "-") {
        minus_class(token.space_before, token.space_after)
    } else if is(token.text, "::") {
        CONS
    } else {
        OPERATOR
    }
}

/// The class of a token that its kind alone tells.
fn plain_class(kind: Kind) -> u8
    ensures { result ≡ plain_class kind }
{
    match kind {
        Kind::UpperName => UPPER,
        Kind::QualifiedLower => QUALIFIED,
        Kind::QualifiedUpper => QUALIFIED_UPPER,
        Kind::Int(_) => NUMBER,
        Kind::Text | Kind::Char => TEXT,
        Kind::Underscore => UNDERSCORE,
        Kind::OpenParen => OPEN_PAREN,
        Kind::CloseParen => CLOSE_PAREN,
        Kind::OpenBracket => OPEN_SQUARE,
        Kind::CloseBracket => CLOSE_SQUARE,
        Kind::OpenBrace => OPEN_BRACE,
        Kind::CloseBrace => CLOSE_BRACE,
        Kind::Comma => COMMA,
        Kind::Equals => EQUALS,
        Kind::Arrow => ARROW,
        Kind::Colon => COLON,
        Kind::Bar => BAR,
        Kind::Dots => DOTS,
        Kind::Backslash => BACKSLASH,
        _ => word_class(kind),
    }
}

/// The class of a reserved word.
fn word_class(kind: Kind) -> u8
    ensures { result ≡ word_class kind }
{
    match kind {
        Kind::If => IF,
        Kind::Then => THEN,
        Kind::Else => ELSE,
        Kind::Case => CASE,
        Kind::Of => OF,
        Kind::Let => LET,
        Kind::In => IN,
        Kind::Type => TYPE,
        Kind::Module => MODULE,
        Kind::Import => IMPORT,
        Kind::Exposing => EXPOSING,
        Kind::As => AS,
        Kind::Port => PORT,
        _ => OTHER,
    }
}

/// The class of a token after one of the class `before`.
fn class_of(token: Token<'_>, before: u8) -> u8
    ensures { result ≡ class_by token.entry.kind before (token_view token.entry) }
{
    match token.kind {
        Kind::LowerName => name_class(before, token.text),
        Kind::Field => field_class(before, token.space_before),
        Kind::Operator => operator_class(token),
        kind => plain_class(kind),
    }
}

/// The tokens of a text as the grammar sees them.
pub fn classed(alloc: Global, tokens: &[Token<'_>]) -> Result<Vec<Classed>, AllocError>
    requires { length tokens.now < 2 ^ 32 }
    ensures { IfOk result (λ v. v.items ≡ classed (map token_view tokens.now)) }
{
    let mut classes = Vec::new(alloc);
    let mut before = OTHER;
    for (index, token) in tokens.iter().enumerate() {
        before = class_of(*token, before);
        classes.push(Classed {
            class: before,
            column: token.start.column,
            index: index as u32,
        })?;
    }
    Ok(classes)
}
