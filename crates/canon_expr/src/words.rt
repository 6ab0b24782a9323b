//! The names that patterns bind.

ghost use Rattle.std.specs.Prelude.{◌≡◌, ◌++◌, IfOk, OnOk};
ghost use Rattle.elm_tree.specs.View.{token_view, words_view, pattern_view, patterns_view};
ghost use Rattle.elm_tree.specs.Turns.{tokens_view};
ghost use Rattle.elm_tree.specs.Words.{pattern_of};
ghost use Rattle.canon_env.specs.Patterns as spec;

use crate::items::put;
use crate::parts::kind_at;
use elm_lexer::token::{Kind, Token};
use elm_tree::tree::{Pattern, Word};
use std::alloc::{AllocError, Global};

/// Adds the name that a pattern of one word binds, if it is a name.
fn push_word(tokens: &[Token<'_>], word: Word, words: &mut Vec<Word>) -> Result<(), AllocError>
    ensures { OnOk result (words_view (tokens_view tokens.now) words.new.items
        ≡ words_view (tokens_view tokens.now) words.old.items
        ++ spec.words_of (pattern_of (token_view (tokens_view tokens.now) word))) }
{
    match kind_at(tokens, word) {
        Kind::Underscore => Ok(()),
        Kind::Int(_) => Ok(()),
        Kind::Char => Ok(()),
        Kind::Text => Ok(()),
        _ => {
            put(words, word)?;
            Ok(())
        }
    }
}

/// Adds words after others.
fn push_each(added: &[Word], words: &mut Vec<Word>) -> Result<(), AllocError>
    ensures { OnOk result (words.new.items ≡ words.old.items ++ added.now) }
{
    for word in added {
        put(words, *word)?;
    }
    Ok(())
}

/// Adds the names that a pattern binds.
#[cycle(words)]
fn push_words(
    tokens: &[Token<'_>],
    pattern: &Pattern,
    words: &mut Vec<Word>,
) -> Result<(), AllocError>
    ensures { OnOk result (words_view (tokens_view tokens.now) words.new.items
        ≡ words_view (tokens_view tokens.now) words.old.items
        ++ spec.words_of (pattern_view (tokens_view tokens.now) pattern.now)) }
{
    match pattern {
        Pattern::OneWord(word) => push_word(tokens, *word, words),
        Pattern::Negative(_, _) => Ok(()),
        Pattern::Construct(_, parts) => push_all(tokens, parts, words),
        Pattern::Cons(_, parts) => push_all(tokens, parts, words),
        Pattern::List(_, parts) => push_all(tokens, parts, words),
        Pattern::Tuple(_, parts) => push_all(tokens, parts, words),
        Pattern::Fields(_, names) => push_each(names, words),
        Pattern::As(_, inner, name) => {
            push_words(tokens, inner, words)?;
            put(words, *name)?;
            Ok(())
        }
    }
}

/// Adds the names that patterns bind, in turn.
#[cycle(words)]
fn push_all(
    tokens: &[Token<'_>],
    patterns: &[Pattern],
    words: &mut Vec<Word>,
) -> Result<(), AllocError>
    ensures { OnOk result (words_view (tokens_view tokens.now) words.new.items
        ≡ words_view (tokens_view tokens.now) words.old.items
        ++ spec.words_of_all (patterns_view (tokens_view tokens.now) patterns.now)) }
{
    for pattern in patterns {
        push_words(tokens, pattern, words)?;
    }
    Ok(())
}

/// The names that the pattern `pattern` binds, from left to right. `pattern` is of the text of the tokens `tokens`.
/// The error means that memory ran out.
pub fn words_of(
    alloc: Global,
    tokens: &[Token<'_>],
    pattern: &Pattern,
) -> Result<Vec<Word>, AllocError>
    ensures { IfOk result (λ v. words_view (tokens_view tokens.now) v.items
        ≡ spec.words_of (pattern_view (tokens_view tokens.now) pattern.now)) }
{
    let mut words = Vec::new(alloc);
    push_words(tokens, pattern, &mut words)?;
    Ok(words)
}

/// The names that the patterns `patterns` bind, from left to right. The patterns are of the text of the tokens
/// `tokens`. The error means that memory ran out.
pub fn words_of_all(
    alloc: Global,
    tokens: &[Token<'_>],
    patterns: &[Pattern],
) -> Result<Vec<Word>, AllocError>
    ensures { IfOk result (λ v. words_view (tokens_view tokens.now) v.items
        ≡ spec.words_of_all (patterns_view (tokens_view tokens.now) patterns.now)) }
{
    let mut words = Vec::new(alloc);
    push_all(tokens, patterns, &mut words)?;
    Ok(words)
}
