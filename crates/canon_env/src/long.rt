//! Names with the module that is written before them.

ghost use Rattle.std.specs.Prelude.{◌≡◌, ◌-◌, length, take, IfOk};
ghost use Rattle.elm_lexer.specs.Kinds.{last_word};
ghost use Rattle.elm_tree.specs.Tree.{written_with};
ghost use Rattle.elm_tree.specs.View.{long_view};
ghost use Rattle.elm_tree.specs.Turns.{tokens_view};
ghost use Rattle.canon_env.specs.Naming.{spelled, qualifier_of, own_name};
ghost use Rattle.canon_env.specs.Sites.{at_long};

use crate::finding::{Finding, place_at};
use elm_base::fault::Code;
use elm_base::names::Name;
use elm_base::text::Text;
use elm_lexer::token::Token;
use elm_tree::tree::Word;
use elm_tree::turns::text_at;
use std::alloc::{AllocError, Global};

/// A name with the module that is written before it.
#[derive(Drop)]
pub struct Long {
    /// The module, or the empty name where none is written.
    pub qualifier: Name,
    pub name: Name,
}

/// The text of a name: that before its last point, and that after it.
#[derive(Clone, Copy)]
pub struct Parts<'a> {
    /// The module, or nothing where there is no point.
    pub qualifier: &'a [u8],
    /// The name in that module.
    pub text: &'a [u8],
}

/// The last word of a name.
fn last_word(name: &[u8]) -> &[u8]
    ensures { result.now ≡ last_word name.now name.now }
{
    let mut word = name;
    let mut rest = name;
    while let [c, after @ ..] = rest {
        if *c == b'.' {
            word = after;
        }
        rest = after;
    }
    word
}

/// The parts of the text of a name.
pub fn parts_of(text: &[u8]) -> Parts<'_>
    ensures qualifier { result.qualifier.now
        ≡ take (length text.now - length (last_word text.now text.now) - 1) text.now }
    ensures text { result.text.now ≡ last_word text.now text.now }
{
    let word = last_word(text);
    let before = text.len().saturating_sub(word.len()).saturating_sub(1);
    Parts {
        qualifier: &text[..before],
        text: word,
    }
}

/// The name that a text spells. The error means that memory ran out.
#[tactic(auto, unfolding(crate::specs::Naming::spelled))]
pub fn spelled(alloc: Global, text: &[u8]) -> Result<Name, AllocError>
    ensures { IfOk result (λ name. name ≡ spelled text.now) }
{
    let text = String::from_utf8_lossy(alloc, text)?;
    Name::of_text(alloc, text.as_str())
}

/// The name that the word `word` spells in the text of the tokens `tokens`, with the module that is written before it.
/// The error means that memory ran out.
pub fn long_name(alloc: Global, tokens: &[Token<'_>], word: Word) -> Result<Long, AllocError>
    ensures qualifier { IfOk result (λ l. l.qualifier ≡ qualifier_of (long_view (tokens_view tokens.now) word)) }
    ensures name { IfOk result (λ l. l.name ≡ own_name (long_view (tokens_view tokens.now) word)) }
{
    let parts = parts_of(text_at(tokens, word));
    Ok(Long {
        qualifier: spelled(alloc, parts.qualifier)?,
        name: spelled(alloc, parts.text)?,
    })
}

/// A name as it is written.
fn written(alloc: Global, qualifier: &[u8], text: &[u8]) -> Result<Text, AllocError>
    ensures { IfOk result (λ t. t ≡ written_with qualifier.now text.now) }
{
    if qualifier.is_empty() {
        return Text::copy(alloc, text);
    }
    let mut bytes = Vec::from_slice(alloc, qualifier)?;
    bytes.push(b'.')?;
    bytes.extend_from_slice(text)?;
    Ok(Text::from_vec(bytes))
}

/// The fault of the kind `code` at the word `word`, which its line names with the module that is written before it.
/// The error means that memory ran out.
pub fn finding_long(
    alloc: Global,
    tokens: &[Token<'_>],
    code: Code,
    word: Word,
) -> Result<Finding, AllocError>
    ensures { IfOk result (λ f. f ≡ at_long code (long_view (tokens_view tokens.now) word)) }
{
    let parts = parts_of(text_at(tokens, word));
    Ok(Finding {
        code,
        place: place_at(tokens, word),
        detail: written(alloc, parts.qualifier, parts.text)?,
    })
}
