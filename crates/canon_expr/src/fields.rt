//! Fields of records.

ghost use Rattle.std.specs.Prelude.{◌≡◌, [], ◌∷◌, List, map, drop, IfOk, OnOk};
ghost use Rattle.elm_lexer.specs.Tokens as lexed;
ghost use Rattle.elm_tree.specs.Tree as tree;
ghost use Rattle.elm_tree.specs.View as tree_view;
ghost use Rattle.elm_tree.specs.View.{place_view, part_view, words_view, fields_view};
ghost use Rattle.elm_tree.specs.Words.{field_of};
ghost use Rattle.elm_tree.specs.Turns.{tokens_view};
ghost use Rattle.elm_canon.specs.View.{expr_view};
ghost use Rattle.canon_env.specs.Imports.{name_of};
ghost use Rattle.canon_env.specs.Naming as naming;
ghost use Rattle.canon_env.specs.Sites.{FieldsTogether};
ghost use Rattle.canon_expr.specs.Logs.{Grows};
ghost use Rattle.canon_expr.specs.Calls.{callee_view};
ghost use Rattle.canon_expr.specs.Exprs as spec;

use crate::callee::Callee;
use crate::items::put;
use crate::log::Log;
use canon_env::finding::place_at;
use canon_env::import::word_name;
use canon_env::repeats::push_repeats;
use elm_base::fault::Code;
use elm_base::names::Name;
use elm_canon::tree::Expr;
use elm_lexer::token::Token;
use elm_tree::tree::{Part, Word};
use elm_tree::turns::text_at;
use std::alloc::{AllocError, Global};

/// What stands after the first byte.
fn after_first(text: &[u8]) -> &[u8]
    ensures { result.now ≡ drop 1 text.now }
{
    match text {
        [_, rest @ ..] => rest,
        [] => text,
    }
}

/// The name of the field that `.x` is, which the word is. The error means that memory ran out.
#[tactic(auto, unfolding(canon_env::specs::Imports::name_of))]
pub(crate) fn field_name(
    alloc: Global,
    tokens: &[Token<'_>],
    word: Word,
) -> Result<Name, AllocError>
    ensures { IfOk result (λ name. name
        ≡ name_of (field_of (tree_view.token_view (tokens_view tokens.now) word))) }
{
    let text = String::from_utf8_lossy(alloc, after_first(text_at(tokens, word)))?;
    Name::of_text(alloc, text.as_str())
}

/// The words before the values of the fields `fields`, in turn. The error means that memory ran out.
pub fn part_words(alloc: Global, fields: &[Part]) -> Result<Vec<Word>, AllocError>
    ensures { IfOk result (λ v. (tokens : List lexed.Token) → words_view tokens v.items
        ≡ spec.part_words (tree.parts_of (map (part_view tokens) fields.now))) }
{
    let mut words = Vec::new(alloc);
    for field in fields {
        put(&mut words, field.word)?;
    }
    Ok(words)
}

/// The names that the words `words` spell in the text of the tokens `tokens`. The error means that memory ran out.
pub fn names_of(
    alloc: Global,
    tokens: &[Token<'_>],
    words: &[Word],
) -> Result<Vec<Name>, AllocError>
    ensures { IfOk result (λ v. v.items ≡ map name_of (words_view (tokens_view tokens.now) words.now)) }
{
    let mut names = Vec::new(alloc);
    for word in words {
        put(&mut names, word_name(alloc, tokens, *word)?)?;
    }
    Ok(names)
}

/// Notes each of the words `words`, those of the fields of one record, whose name stands before it. They are of the
/// text of the tokens `tokens`. The error means that memory ran out.
pub fn note_fields(
    alloc: Global,
    tokens: &[Token<'_>],
    log: &mut Log,
    words: &[Word],
) -> Result<(), AllocError>
    ensures { OnOk result ((w : naming.World) → Grows w log.old log.new
        (FieldsTogether (words_view (tokens_view tokens.now) words.now) ∷ [])) }
{
    push_repeats(
        alloc,
        tokens,
        Code::DuplicateField,
        words,
        &mut log.findings,
    )
}

/// The names of fields, each with its point.
fn field_names(
    alloc: Global,
    tokens: &[Token<'_>],
    fields: &[Word],
) -> Result<Vec<Name>, AllocError>
    ensures { IfOk result (λ v. v.items ≡ map name_of (fields_view (tokens_view tokens.now) fields.now)) }
{
    let mut names = Vec::new(alloc);
    for field in fields {
        put(&mut names, field_name(alloc, tokens, *field)?)?;
    }
    Ok(names)
}

/// `e.x.y`, which begins at the word `first`: the fields `fields`, each with its point, one after the other of the value
/// `value`. The words are of the text of the tokens `tokens`. The error means that memory ran out.
pub fn accessed(
    alloc: Global,
    tokens: &[Token<'_>],
    first: Word,
    value: Box<Expr>,
    fields: &[Word],
) -> Result<Callee, AllocError>
    ensures { IfOk result (λ c. callee_view c ≡ spec.at (place_view (tokens_view tokens.now) first)
        (spec.accessed (expr_view value.value) (fields_view (tokens_view tokens.now) fields.now))) }
{
    let names = field_names(alloc, tokens, fields)?;
    Callee::at(alloc, place_at(tokens, first), Expr::Access(value, names))
}
