//! Pieces of patterns.

ghost use Rattle.std.specs.Prelude.{◌≡◌, IfOk};
ghost use Rattle.elm_tree.specs.View.{token_view, place_view};
ghost use Rattle.elm_tree.specs.Turns.{tokens_view};
ghost use Rattle.elm_canon.specs.Tree as canon;
ghost use Rattle.elm_canon.specs.View.{pattern_view, patterns_view};
ghost use Rattle.canon_env.specs.Patterns as spec;

use canon_env::finding::place_at;
use elm_base::names::Name;
use elm_canon::tree::Pattern;
use elm_lexer::token::{Kind, Token};
use elm_tree::tree::Word;
use std::alloc::{AllocError, Global};

/// The kind of the token that a word is. Past the tokens stands an empty name.
pub(crate) fn kind_at(tokens: &[Token<'_>], word: Word) -> Kind
    ensures { result ≡ (token_view (tokens_view tokens.now) word).kind }
{
    match tokens.get(word.index as usize) {
        Some(token) => token.kind,
        None => Kind::LowerName,
    }
}

/// A pattern that begins at a word.
pub(crate) fn located(
    alloc: Global,
    tokens: &[Token<'_>],
    first: Word,
    pattern: Pattern,
) -> Result<Pattern, AllocError>
    ensures { IfOk result (λ p. pattern_view p
        ≡ canon.LocatedPattern (place_view (tokens_view tokens.now) first) (pattern_view pattern)) }
{
    Ok(Pattern::Located(place_at(tokens, first), Box::new(alloc, pattern)?))
}

/// The record pattern of these fields. Without a field it matches anything.
pub(crate) fn fields(names: Vec<Name>) -> Pattern
    ensures { pattern_view result ≡ spec.fields_of names.items }
{
    if names.len() == 0 {
        Pattern::Anything
    } else {
        Pattern::Fields(names)
    }
}

/// Items before the rest of a list, which is the last part.
pub(crate) fn items(alloc: Global, parts: Vec<Pattern>) -> Result<Pattern, AllocError>
    ensures { IfOk result (λ p. pattern_view p ≡ spec.items_of (patterns_view parts.items)) }
{
    let mut parts = parts;
    match parts.pop() {
        Some(rest) => Ok(Pattern::Items(parts, Box::new(alloc, rest)?)),
        None => Ok(Pattern::Anything),
    }
}
