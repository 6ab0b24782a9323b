//! What a character is to tokens.

ghost use Rattle.std.specs.Prelude.{◌≡◌};
ghost use Rattle.elm_lexer.specs.Characters.{is_white, is_upper, is_letter, is_digit, is_hex_digit, is_operator_char};
ghost use Rattle.elm_lexer.specs.Characters.{is_mark, is_lower, is_sign, is_exponent_letter, is_continuing};

/// A space, a line feed or a carriage return.
pub(crate) fn is_white(c: u8) -> bool
    ensures { result ≡ is_white c }
{
    c == b' ' || c == b'\n' || c == b'\r'
}

/// `A` to `Z`.
pub(crate) fn is_upper(c: char) -> bool
    ensures { result ≡ is_upper c }
{
    'A' <= c && c <= 'Z'
}

/// `a` to `z`.
pub(crate) fn is_lower(c: char) -> bool
    ensures { result ≡ is_lower c }
{
    'a' <= c && c <= 'z'
}

/// `A` to `Z` and `a` to `z`.
pub(crate) fn is_letter(c: char) -> bool
    ensures { result ≡ is_letter c }
{
    ('A' <= c && c <= 'Z') || ('a' <= c && c <= 'z')
}

/// `0` to `9`.
pub(crate) fn is_digit(c: char) -> bool
    ensures { result ≡ is_digit c }
{
    '0' <= c && c <= '9'
}

/// `0` to `9`, `A` to `F` and `a` to `f`.
pub(crate) fn is_hex_digit(c: u8) -> bool
    ensures { result ≡ is_hex_digit c }
{
    is_digit(char::from(c)) || (b'A' <= c && c <= b'F') || (b'a' <= c && c <= b'f')
}

/// A character that operators are made of.
pub(crate) fn is_operator_char(c: char) -> bool
    ensures { result ≡ is_operator_char c }
{
    c == '+'
        || c == '-'
        || c == '/'
        || c == '*'
        || c == '='
        || c == '.'
        || c == '<'
        || c == '>'
        || c == ':'
        || c == '&'
        || c == '|'
        || c == '^'
        || c == '?'
        || c == '%'
        || c == '!'
}

/// Parentheses, braces, brackets, the comma and the backslash.
pub(crate) fn is_mark(c: char) -> bool
    ensures { result ≡ is_mark c }
{
    c == '(' || c == ')' || c == '{' || c == '}' || c == '[' || c == ']' || c == ',' || c == '\\'
}

/// The signs of an exponent.
pub(crate) fn is_sign(c: char) -> bool
    ensures { result ≡ is_sign c }
{
    c == '+' || c == '-'
}

/// The letters that begin an exponent.
pub(crate) fn is_exponent_letter(c: char) -> bool
    ensures { result ≡ is_exponent_letter c }
{
    c == 'e' || c == 'E'
}

/// A byte that goes on with a character of more than one byte.
pub(crate) fn is_continuing(c: u8) -> bool
    ensures { result ≡ is_continuing c }
{
    128 <= c && c <= 191
}
