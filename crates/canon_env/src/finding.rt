//! Faults of names.

ghost use Rattle.std.specs.Prelude.{◌≡◌, ◌++◌, [], ◌∷◌, IfOk, OnOk};
ghost use Rattle.elm_tree.specs.View as tree;
ghost use Rattle.elm_tree.specs.Turns.{tokens_view};
ghost use Rattle.canon_env.specs.Exposing as spec;

use elm_base::fault::Code;
use elm_base::position::Pos;
use elm_base::text::Text;
use elm_lexer::token::Token;
use elm_tree::tree::Word;
use elm_tree::turns::text_at;
use std::alloc::{AllocError, Global};

/// A fault of one file, before the file's path is told.
#[derive(Debug, Drop)]
pub struct Finding {
    pub code: Code,
    /// Where it stands.
    pub place: Pos,
    /// What its line says beside its code.
    pub detail: Text,
}

/// Where the word begins. Past the tokens it is the first place of a text.
pub fn place_at(tokens: &[Token<'_>], word: Word) -> Pos
    ensures row { result.row ≡ (tree.place_view (tokens_view tokens.now) word).row }
    ensures column { result.column ≡ (tree.place_view (tokens_view tokens.now) word).column }
{
    match tokens.get(word.index as usize) {
        Some(token) => token.start,
        None => Pos { row: 1, column: 1 },
    }
}

/// The fault of the kind `code` at the word `word`, which its line names. The error means that memory ran out.
pub fn finding_at(
    alloc: Global,
    tokens: &[Token<'_>],
    code: Code,
    word: Word,
) -> Result<Finding, AllocError>
    ensures { IfOk result (λ f. f ≡ spec.finding code (tree.word_view (tokens_view tokens.now) word)) }
{
    Ok(Finding {
        code,
        place: place_at(tokens, word),
        detail: Text::copy(alloc, text_at(tokens, word))?,
    })
}

/// Adds the fault of the kind `code` at the word `word`, which its line names. The error means that memory ran out;
/// then it is not added.
pub fn push_finding(
    alloc: Global,
    tokens: &[Token<'_>],
    code: Code,
    word: Word,
    findings: &mut Vec<Finding>,
) -> Result<(), AllocError>
    ensures { OnOk result (findings.new.items ≡ findings.old.items
        ++ spec.finding code (tree.word_view (tokens_view tokens.now) word) ∷ []) }
{
    findings.push(finding_at(alloc, tokens, code, word)?)?;
    Ok(())
}
