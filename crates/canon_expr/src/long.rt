//! Names with the module before them.

ghost use Rattle.std.specs.Prelude.{◌≡◌, IfOk};
ghost use Rattle.elm_tree.specs.View.{long_view};
ghost use Rattle.elm_tree.specs.Turns.{tokens_view};
ghost use Rattle.canon_expr.specs.Longs.{IsLong};

use canon_env::long::{parts_of, spelled};
use elm_base::names::Name;
use elm_lexer::token::Token;
use elm_tree::tree::Word;
use elm_tree::turns::text_at;
use std::alloc::{AllocError, Global};

/// A name with the module before it, which is the empty name if there is none.
#[derive(Drop)]
pub struct LongName {
    pub qualifier: Name,
    pub name: Name,
    /// No module stands before it.
    pub is_unqualified: bool,
}

impl LongName {
    /// The name that the word `word` spells in the text of the tokens `tokens`, with the module before it. The error
    /// means that memory ran out.
    pub fn read(alloc: Global, tokens: &[Token<'_>], word: Word) -> Result<LongName, AllocError>
        ensures { IfOk result (λ n. IsLong n (long_view (tokens_view tokens.now) word)) }
    {
        let parts = parts_of(text_at(tokens, word));
        Ok(LongName {
            qualifier: spelled(alloc, parts.qualifier)?,
            name: spelled(alloc, parts.text)?,
            is_unqualified: parts.qualifier.is_empty(),
        })
    }
}
