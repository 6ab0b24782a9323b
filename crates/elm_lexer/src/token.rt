//! What a text is cut into.

use elm_base::position::Pos;

/// What a token is. (Elm syntax reference: literals, reserved words, operators.)
#[derive(Clone, Copy, Debug, PartialEq, Eq)]
pub enum Kind {
    /// The reserved word `if`; the others follow.
    If,
    Then,
    Else,
    Case,
    Of,
    Let,
    In,
    Type,
    Module,
    Where,
    Import,
    Exposing,
    As,
    Port,
    /// A name that begins with a lower-case letter.
    LowerName,
    /// A name that begins with an upper-case letter.
    UpperName,
    /// Names joined by points, the last of them lower case: `Platform.worker`.
    QualifiedLower,
    /// Names joined by points, the last of them upper case: `Platform.Cmd`.
    QualifiedUpper,
    /// An integer, decimal or hexadecimal, of at most 2 to the 53rd, less one.
    Int(u64),
    /// A text, `".."` or `"""..."""`.
    Text,
    /// A character, `'a'`.
    Char,
    Underscore,
    OpenParen,
    CloseParen,
    OpenBrace,
    CloseBrace,
    OpenBracket,
    CloseBracket,
    Comma,
    Backslash,
    Equals,
    Arrow,
    Colon,
    Bar,
    Dot,
    Dots,
    /// A point and a lower-case word: `.x`.
    Field,
    /// Any other run of operator characters.
    Operator,
}

/// A token: a range of the text, no copy.
#[derive(Clone, Copy, Debug)]
pub struct Token<'a> {
    pub kind: Kind,
    pub text: &'a [u8],
    /// Where its first character stands.
    pub start: Pos,
    /// White space or a comment stands right before it.
    pub space_before: bool,
    /// White space or a comment stands right after it.
    pub space_after: bool,
}
