//! What is noted while a module is walked.

ghost use Rattle.std.specs.Prelude.{◌≡◌, [], ◌∷◌, ◌++◌, OnOk};
ghost use Rattle.elm_tree.specs.View.{word_view, long_view};
ghost use Rattle.elm_tree.specs.Turns.{tokens_view};
ghost use Rattle.canon_env.specs.Sites.{at_word, at_long};

use crate::items::put;
use canon_env::finding::{Finding, finding_at};
use canon_env::long::finding_long;
use elm_base::fault::Code;
use elm_base::position::Pos;
use elm_lexer::token::Token;
use elm_tree::tree::Word;
use std::alloc::{AllocError, Global};

/// Faults, and the places where the local names are bound that are used.
#[derive(Drop)]
pub struct Log {
    /// In the order of the sites at which they stand.
    pub findings: Vec<Finding>,
    /// One for each use of a local name, in the order of the uses.
    pub uses: Vec<Pos>,
}

impl Log {
    /// A log in which nothing is noted.
    pub fn new(alloc: Global) -> Log
        ensures findings { result.findings.items ≡ [] }
        ensures uses { result.uses.items ≡ [] }
    {
        Log {
            findings: Vec::new(alloc),
            uses: Vec::new(alloc),
        }
    }

    /// Notes the fault of the kind `code` at the word `word`, which its line names. The error means that memory ran
    /// out; then it is not noted.
    pub fn note_word(
        &mut self,
        alloc: Global,
        tokens: &[Token<'_>],
        code: Code,
        word: Word,
    ) -> Result<(), AllocError>
        ensures findings { OnOk result (self.new.findings.items ≡ self.old.findings.items
            ++ at_word code (word_view (tokens_view tokens.now) word) ∷ []) }
        ensures uses { OnOk result (self.new.uses.items ≡ self.old.uses.items) }
    {
        put(&mut self.findings, finding_at(alloc, tokens, code, word)?)?;
        Ok(())
    }

    /// Notes the fault of the kind `code` at the name that the word `word` is, which may have a module before it. The
    /// error means that memory ran out; then it is not noted.
    pub fn note_name(
        &mut self,
        alloc: Global,
        tokens: &[Token<'_>],
        code: Code,
        word: Word,
    ) -> Result<(), AllocError>
        ensures findings { OnOk result (self.new.findings.items ≡ self.old.findings.items
            ++ at_long code (long_view (tokens_view tokens.now) word) ∷ []) }
        ensures uses { OnOk result (self.new.uses.items ≡ self.old.uses.items) }
    {
        put(&mut self.findings, finding_long(alloc, tokens, code, word)?)?;
        Ok(())
    }
}
