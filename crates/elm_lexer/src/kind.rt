//! What a piece is, if it is a token, and what is wrong with it otherwise.

ghost use Rattle.std.specs.Prelude.{◌≡◌, ◌≤◌, ◌<◌, IsTrue, ◌||◌, length, option_and_then};
ghost use Rattle.std.specs.List.{list_all};
ghost use Rattle.std.specs.Str.{bytes_eq};
ghost use Rattle.elm_lexer.specs.Characters.{is_hex_digit};
ghost use Rattle.elm_lexer.specs.Numbers.{is_float};
ghost use Rattle.elm_lexer.specs.Kinds.{begins_upper, begins_field, kind_in, reserved_kinds, marks, operators};
ghost use Rattle.elm_lexer.specs.Kinds.{last_word, name_kind, is_decimal, is_hexadecimal, digit_value, number_from};
ghost use Rattle.elm_lexer.specs.Kinds.{number_value, int_of, field_kind, kind_of, is_integer, fault_of, detail_of};
ghost use Rattle.elm_lexer.specs.declared.token.Kind.TheVariants.{Backslash, Operator};

use crate::characters::{
    is_digit, is_hex_digit, is_letter, is_lower, is_mark, is_operator_char, is_upper,
};
use crate::number::{has_digits_alone, is_float};
use crate::token::Kind;
use elm_base::fault::Code;

/// The greatest integer: 2 to the 53rd, less one.
const GREATEST: u64 = 9007199254740991;

fn is(piece: &[u8], text: &str) -> bool
    ensures { result ≡ bytes_eq piece.now text.now }
{
    piece == text.as_bytes()
}

fn word_kind(word: &[u8], other: Kind) -> Kind
    ensures { result ≡ kind_in reserved_kinds word.now other }
{
    if is(word, "if") {
        Kind::If
    } else if is(word, "then") {
        Kind::Then
    } else if is(word, "else") {
        Kind::Else
    } else if is(word, "case") {
        Kind::Case
    } else if is(word, "of") {
        Kind::Of
    } else if is(word, "let") {
        Kind::Let
    } else if is(word, "in") {
        Kind::In
    } else if is(word, "type") {
        Kind::Type
    } else if is(word, "module") {
        Kind::Module
    } else if is(word, "where") {
        Kind::Where
    } else if is(word, "import") {
        Kind::Import
    } else if is(word, "exposing") {
        Kind::Exposing
    } else if is(word, "as") {
        Kind::As
    } else if is(word, "port") {
        Kind::Port
    } else {
        other
    }
}

fn mark_kind(mark: &[u8]) -> Kind
    ensures { result ≡ kind_in marks mark.now Backslash }
{
    if is(mark, "(") {
        Kind::OpenParen
    } else if is(mark, ")") {
        Kind::CloseParen
    } else if is(mark, "{") {
        Kind::OpenBrace
    } else if is(mark, "}") {
        Kind::CloseBrace
    } else if is(mark, "[") {
        Kind::OpenBracket
    } else if is(mark, "]") {
        Kind::CloseBracket
    } else if is(mark, ",") {
        Kind::Comma
    } else {
        Kind::Backslash
    }
}

fn operator_kind(operator: &[u8]) -> Kind
    ensures { result ≡ kind_in operators operator.now Operator }
{
    if is(operator, "=") {
        Kind::Equals
    } else if is(operator, "->") {
        Kind::Arrow
    } else if is(operator, ":") {
        Kind::Colon
    } else if is(operator, "|") {
        Kind::Bar
    } else if is(operator, "..") {
        Kind::Dots
    } else if is(operator, ".") {
        Kind::Dot
    } else {
        Kind::Operator
    }
}

fn begins_upper(name: &[u8]) -> bool
    ensures { result ≡ begins_upper name.now }
{
    match name {
        [c, ..] => is_upper(char::from(*c)),
        [] => false,
    }
}

/// The last word of a name.
fn last_word(name: &[u8]) -> &[u8]
    ensures { result.now ≡ last_word name.now name.now }
{
    let mut word = name;
    let mut rest = name;
    while let [c, after @ ..] = rest {
        if *c == b'.' {
            word = after;
        }
        rest = after;
    }
    word
}

fn name_kind(name: &[u8]) -> Kind
    ensures { result ≡ name_kind name.now }
{
    if name.contains(&b'.') {
        if begins_upper(last_word(name)) {
            Kind::QualifiedUpper
        } else {
            Kind::QualifiedLower
        }
    } else if begins_upper(name) {
        word_kind(name, Kind::UpperName)
    } else {
        word_kind(name, Kind::LowerName)
    }
}

fn are_hex_digits(digits: &[u8]) -> bool
    ensures { result ≡ list_all is_hex_digit digits.now }
{
    digits.iter().all(|c| is_hex_digit(*c))
}

fn is_decimal(number: &[u8]) -> bool
    ensures { result ≡ is_decimal number.now }
{
    match number {
        [c, after @ ..] => b'1' <= *c && *c <= b'9' && has_digits_alone(after),
        [] => false,
    }
}

fn is_hexadecimal(number: &[u8]) -> bool
    ensures { result ≡ is_hexadecimal number.now }
{
    match number {
        [b'0', b'x', digits @ ..] => !digits.is_empty() && are_hex_digits(digits),
        _ => false,
    }
}

pub(crate) fn digit_value(c: u8) -> u64
    requires { IsTrue (is_hex_digit c) }
    ensures value { result ≡ digit_value c }
    ensures small { result < 16 }
{
    let digit = char::from(c);
    if is_digit(digit) {
        u64::from(c - b'0')
    } else if is_upper(digit) {
        u64::from(c - b'A') + 10
    } else {
        u64::from(c - b'a') + 10
    }
}

/// The number that the digits spell in the base, as a token, if it is not too great.
fn int(base: u64, digits: &[u8]) -> Option<Kind>
    requires base { base ≤ 16 }
    requires one { 1 ≤ base }
    requires digits { IsTrue (list_all is_hex_digit digits.now) }
    ensures { result ≡ int_of (number_from base 0 digits.now) }
{
    let mut value = 0;
    let mut rest = digits;
    while let [c, after @ ..] = rest {
        value = value * base + digit_value(*c);
        if value > GREATEST {
            return None;
        }
        rest = after;
    }
    Some(Kind::Int(value))
}

fn number_kind(number: &[u8]) -> Option<Kind>
    ensures { result ≡ option_and_then int_of (number_value number.now) }
{
    if is(number, "0") {
        Some(Kind::Int(0))
    } else if is_decimal(number) {
        int(10, number)
    } else if is_hexadecimal(number) {
        int(16, &number[2..])
    } else {
        None
    }
}

/// Whether the text begins with a point and a lower-case letter.
fn begins_field(text: &[u8]) -> bool
    ensures { result ≡ begins_field text.now }
{
    match text {
        [b'.', c, ..] => is_lower(char::from(*c)),
        _ => false,
    }
}

/// What a point and a word are.
fn field_kind(word: &[u8]) -> Option<Kind>
    ensures { result ≡ field_kind word.now }
{
    match word_kind(word, Kind::LowerName) {
        Kind::LowerName => Some(Kind::Field),
        _ => None,
    }
}

/// What the piece is, or nothing where it is not a token.
pub(crate) fn kind_of(piece: &[u8]) -> Option<Kind>
    ensures { result ≡ kind_of piece.now }
{
    let [c, after @ ..] = piece else {
        return None;
    };
    let first = char::from(*c);
    if is_letter(first) {
        Some(name_kind(piece))
    } else if is_digit(first) {
        number_kind(piece)
    } else if first == '_' {
        if after.is_empty() {
            Some(Kind::Underscore)
        } else {
            None
        }
    } else if begins_field(piece) {
        field_kind(after)
    } else if is_mark(first) {
        Some(mark_kind(piece))
    } else if is_operator_char(first) {
        Some(operator_kind(piece))
    } else {
        None
    }
}

/// Whether the piece is a number without a point and without an exponent.
fn is_integer(number: &[u8]) -> bool
    ensures { result ≡ is_integer number.now }
{
    is(number, "0") || is_decimal(number) || is_hexadecimal(number)
}

/// What is wrong with a piece that is not a token.
pub(crate) fn fault_of(piece: &[u8]) -> Code
    ensures { result ≡ fault_of piece.now }
{
    if is_float(piece) {
        Code::FloatLiteral
    } else if is_integer(piece) {
        Code::IntTooLarge
    } else {
        Code::Syntax
    }
}

/// Whether the piece is a number, of whatever kind.
fn is_number(piece: &[u8]) -> bool
    ensures { result ≡ (is_float piece.now || is_integer piece.now) }
{
    is_float(piece) || is_integer(piece)
}

/// How many bytes of the piece its fault names: all of a number's, and none otherwise.
pub(crate) fn detail_length(piece: &[u8]) -> usize
    ensures value { result ≡ length (detail_of piece.now) }
    ensures within { result ≤ length piece.now }
{
    if is_number(piece) { piece.len() } else { 0 }
}
