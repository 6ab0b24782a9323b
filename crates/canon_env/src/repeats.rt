//! Names that stand twice.

ghost use Rattle.std.specs.Prelude.{◌≡◌, ◌∷◌, ◌||◌, ◌++◌, not, List, map, IfOk, OnOk};
ghost use Rattle.indexmap.specs.IndexSet.{contains};
ghost use Rattle.elm_canon.specs.Names.{Name, same_name};
ghost use Rattle.elm_tree.specs.View.{word_view, words_view};
ghost use Rattle.elm_tree.specs.Turns.{tokens_view};
ghost use Rattle.canon_env.specs.Imports.{name_of};
ghost use Rattle.canon_env.specs.Sites.{at_word, repeats};
ghost use Rattle.canon_env.specs.Repeats.{IsSeen, repeat_of};

use crate::finding::{Finding, finding_at};
use crate::import::word_name;
use elm_base::fault::Code;
use elm_base::names::Name;
use elm_lexer::token::Token;
use elm_tree::tree::Word;
use indexmap::IndexSet;
use std::alloc::{AllocError, Global};

/// Adds the name `name` to those that were seen. Whether it was not among them.
fn see(seen: &mut IndexSet<Name>, name: Name) -> Result<bool, AllocError>
    ensures is_new { IfOk result (λ b. b ≡ not (contains same_name seen.old name)) }
    ensures seen { OnOk result ((x : Name) → contains same_name seen.new x
        ≡ (contains same_name seen.old x || same_name x name)) }
{
    Ok(seen.insert(name)?)
}

/// Adds the fault of one word, if its name was seen before it.
fn push_repeat(
    alloc: Global,
    tokens: &[Token<'_>],
    code: Code,
    word: Word,
    seen: &mut IndexSet<Name>,
    findings: &mut Vec<Finding>,
) -> Result<(), AllocError>
    ensures seen { OnOk result ((before : List Name) → IsSeen seen.old before
        → IsSeen seen.new (name_of (word_view (tokens_view tokens.now) word) ∷ before)) }
    ensures findings { OnOk result ((before : List Name) → IsSeen seen.old before → findings.new.items
        ≡ findings.old.items ++ map (at_word code) (repeat_of before (word_view (tokens_view tokens.now) word))) }
{
    let name = word_name(alloc, tokens, word)?;
    if !see(seen, name)? {
        findings.push(finding_at(alloc, tokens, code, word)?)?;
    }
    Ok(())
}

/// Adds a fault of the kind `code` to `findings` for each of the words `words` whose name stands before it. The words
/// are those of the text of the tokens `tokens`. The error means that memory ran out.
pub fn push_repeats(
    alloc: Global,
    tokens: &[Token<'_>],
    code: Code,
    words: &[Word],
    findings: &mut Vec<Finding>,
) -> Result<(), AllocError>
    ensures { OnOk result (findings.new.items ≡ findings.old.items
        ++ map (at_word code) (repeats (words_view (tokens_view tokens.now) words.now))) }
{
    let mut seen = IndexSet::new(alloc);
    for word in words {
        push_repeat(alloc, tokens, code, *word, &mut seen, findings)?;
    }
    Ok(())
}
