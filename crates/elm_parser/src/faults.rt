//! The first fault of tokens, by the steps that read them.

ghost use Rattle.std.specs.Prelude.{◌≡◌, ◌<◌, ℕ, List, [], ◌∷◌, map, IfOk};
ghost use Rattle.elm_lexer.specs.View.{token_view};
ghost use Rattle.parse_machine.specs.declared.table.Symbol.TheVariants.{Part};
ghost use Rattle.parse_machine.specs.declared.table.Token as machine;
ghost use Rattle.parse_machine.specs.Grammar.{IsFront, IsFaultAt, IsRefused};
ghost use Rattle.elm_grammar.specs.Classes.{classed};
ghost use Rattle.elm_grammar.specs.Table.{elm, nonterminals};
ghost use Rattle.elm_parser.specs.Standing.{Finds, WhicheverText};
ghost use Rattle.elm_parser.specs.Scan.{found_view};

use crate::finding::Finding;
use crate::scan::scan;
use elm_grammar::table::rows;
use elm_lexer::token::Token;
use parse_machine::table::Step;
use std::alloc::{AllocError, Global};

/// The first fault of a text, which is the longest front of the tokens that begins one, by the steps of its derivation.
pub fn text_fault(
    alloc: Global,
    tokens: &[Token<'_>],
    steps: &[Step],
) -> Result<Option<Finding>, AllocError>
    ensures { (n column : ℕ) (at : List machine.Token)
        (h : IsFront elm (Part n ∷ []) column (classed (map token_view tokens.now)) at steps.now) → n < nonterminals →
        IfOk result (λ r. Finds (map token_view tokens.now) n column h.front (found_view r)) }
{
    let _plan = rows();
    scan(alloc, tokens, steps, true)
}

/// The first fault of tokens `ts` that are no text, by the steps that read their longest front that begins one.
pub fn front_fault(
    alloc: Global,
    tokens: &[Token<'_>],
    steps: &[Step],
) -> Result<Option<Finding>, AllocError>
    ensures { (n column : ℕ) (ts front at : List machine.Token) → n < nonterminals →
        IsFaultAt elm (Part n ∷ []) column (classed (map token_view tokens.now)) front at steps.now →
        IsRefused elm (Part n ∷ []) column ts →
        IfOk result (λ r. Finds (map token_view tokens.now) n column ts (found_view r)) }
{
    let _plan = rows();
    scan(alloc, tokens, steps, false)
}

/// A fault that the first tokens of a text decide is one of each text that begins with them.
pub fn whichever_law()
    ensures { WhicheverText }
{
    let _plan = rows();
}
