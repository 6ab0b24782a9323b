//! The values of literals, and patterns of one word.

ghost use Rattle.std.specs.Prelude.{◌≡◌, pos, IfOk};
ghost use Rattle.elm_lexer.specs.declared.token.Kind.TheVariants.{Int, Char, Text};
ghost use Rattle.elm_tree.specs.View.{token_view, place_view};
ghost use Rattle.elm_tree.specs.Turns.{tokens_view};
ghost use Rattle.elm_tree.specs.Words.{char_of, text_of, negative_of, pattern_of};
ghost use Rattle.elm_tree.specs.Tree as tree;
ghost use Rattle.elm_canon.specs.View.{pattern_view};
ghost use Rattle.canon_env.specs.Naming as naming;
ghost use Rattle.canon_env.specs.Patterns as spec;
ghost use Rattle.canon_expr.specs.Literals.{AreLiterals, IsSafe};

use crate::parts::{kind_at, located};
use canon_env::import::word_name;
use elm_canon::tree::{Literal, Pattern};
use elm_lexer::literal_units;
use elm_lexer::token::{Kind, Token};
use elm_tree::tree::Word;
use elm_tree::turns::text_at;
use std::alloc::{AllocError, Global};

/// The character that the word `word` is. `word` is a character among the tokens `tokens`, as the lexer makes them.
/// The error means that memory ran out.
pub fn char_at(alloc: Global, tokens: &[Token<'_>], word: Word) -> Result<Literal, AllocError>
    requires literals { AreLiterals (tokens_view tokens.now) }
    requires kind { (token_view (tokens_view tokens.now) word).kind ≡ Char }
    ensures { IfOk result (λ l. l ≡ spec.literal_of (char_of (token_view (tokens_view tokens.now) word))) }
{
    Ok(Literal::Char(literal_units(alloc, text_at(tokens, word))?))
}

/// The text that the word `word` is. `word` is a text among the tokens `tokens`, as the lexer makes them. The error
/// means that memory ran out.
pub fn text_value_at(alloc: Global, tokens: &[Token<'_>], word: Word) -> Result<Literal, AllocError>
    requires literals { AreLiterals (tokens_view tokens.now) }
    requires kind { (token_view (tokens_view tokens.now) word).kind ≡ Text }
    ensures { IfOk result (λ l. l ≡ spec.literal_of (text_of (token_view (tokens_view tokens.now) word))) }
{
    Ok(Literal::Text(literal_units(alloc, text_at(tokens, word))?))
}

/// A number, which is safe.
fn number(value: u64) -> i64
    requires { IsSafe (Int value) }
    ensures { result ≡ pos value }
{
    value as i64
}

/// A number as a literal.
pub(crate) fn int_literal(value: u64) -> Literal
    requires { IsSafe (Int value) }
    ensures { result ≡ spec.literal_of (tree.IntL (pos value)) }
{
    Literal::Int(number(value))
}

/// The negative of the number that the word `word` is, or of 0.
fn negative_at(tokens: &[Token<'_>], word: Word) -> Literal
    requires { AreLiterals (tokens_view tokens.now) }
    ensures { result ≡ spec.literal_of (negative_of (token_view (tokens_view tokens.now) word)) }
{
    match kind_at(tokens, word) {
        Kind::Int(value) => Literal::Int(-number(value)),
        _ => Literal::Int(0),
    }
}

/// The pattern of one word.
pub(crate) fn one_word(
    alloc: Global,
    tokens: &[Token<'_>],
    word: Word,
) -> Result<Pattern, AllocError>
    requires { AreLiterals (tokens_view tokens.now) }
    ensures { IfOk result (λ p. (w : naming.World) → pattern_view p
        ≡ spec.pattern_of w (pattern_of (token_view (tokens_view tokens.now) word))) }
{
    match kind_at(tokens, word) {
        Kind::Underscore => located(alloc, tokens, word, Pattern::Anything),
        Kind::Int(value) => located(alloc, tokens, word, Pattern::Exactly(int_literal(value))),
        Kind::Char => {
            let value = char_at(alloc, tokens, word)?;
            located(alloc, tokens, word, Pattern::Exactly(value))
        }
        Kind::Text => {
            let value = text_value_at(alloc, tokens, word)?;
            located(alloc, tokens, word, Pattern::Exactly(value))
        }
        _ => {
            let name = word_name(alloc, tokens, word)?;
            located(alloc, tokens, word, Pattern::Named(name))
        }
    }
}

/// The pattern of a negative number, by its sign and the number.
pub(crate) fn negative(
    alloc: Global,
    tokens: &[Token<'_>],
    sign: Word,
    word: Word,
) -> Result<Pattern, AllocError>
    requires { AreLiterals (tokens_view tokens.now) }
    ensures { IfOk result (λ p. (w : naming.World) → pattern_view p
        ≡ spec.pattern_of w (tree.Exactly (place_view (tokens_view tokens.now) sign)
        (negative_of (token_view (tokens_view tokens.now) word)))) }
{
    located(
        alloc,
        tokens,
        sign,
        Pattern::Exactly(negative_at(tokens, word)),
    )
}
