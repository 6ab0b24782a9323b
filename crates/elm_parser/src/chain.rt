//! Chains of operators by themselves.

ghost use Rattle.std.specs.Prelude.{◌≡◌, [], map, IfOk, IfErr, OnOk};
ghost use Rattle.elm_lexer.specs.View.{token_view, IfFault};
ghost use Rattle.elm_tree.specs.Regroup.{turns};
ghost use Rattle.elm_tree.specs.Turns.{clashes, turn_view};
ghost use Rattle.elm_tree.specs.View.{words_view};
ghost use Rattle.elm_parser.specs.Chains.{ChainFault, IsChain, IsMixed};

use crate::fault::fault_of;
use crate::finding::Finding;
use elm_base::fault::Code;
use elm_base::position::Pos;
use elm_lexer::error::TextError;
use elm_lexer::token::Token;
use elm_tree::tree::Word;
use elm_tree::turns::{Turn, Ungrouped, turns};
use std::alloc::Global;

/// The most operators of one chain.
const MOST: usize = 1024;

/// The turns of a chain that is not too long, or E35 at the first operator that does not group with one before it.
fn grouped<'a>(
    alloc: Global,
    tokens: &[Token<'a>],
    operators: &[Word],
) -> Result<Vec<Turn>, TextError<'a>>
    ensures groups { OnOk result (clashes (map token_view tokens.now) operators.now ≡ []) }
    ensures turned { IfOk result (λ v. map (turn_view (map token_view tokens.now)) v.items
        ≡ turns (words_view (map token_view tokens.now) operators.now)) }
    ensures fault { IfErr result (λ e. IfFault e (IsMixed (map token_view tokens.now) operators.now)) }
{
    match turns(alloc, tokens, operators) {
        Ok(turns) => Ok(turns),
        Err(Ungrouped::Memory) => Err(TextError::NoMemory),
        Err(Ungrouped::Clash(operator)) => Err(TextError::Fault(fault_of(
            tokens,
            Pos { row: 1, column: 1 },
            Finding {
                index: operator.index,
                code: Code::MixedOperators,
            },
        ))),
    }
}

/// How the operators of a chain group: the order in which operands are read and joined. (elm/core: the infix
/// declarations of Basics.)
///
/// `operators` are the words of the chain from left to right, and `tokens` are those of the text. The error is E35 at
/// the first operator that does not group with one before it, or E08 at the 1,025th operator where that comes first.
pub fn regroup<'a>(
    alloc: Global,
    tokens: &[Token<'a>],
    operators: &[Word],
) -> Result<Vec<Turn>, TextError<'a>>
    ensures grouped { IfOk result (λ v. IsChain (map token_view tokens.now) operators.now
        (map (turn_view (map token_view tokens.now)) v.items)) }
    ensures fault { IfErr result (λ e. IfFault e (ChainFault (map token_view tokens.now) operators.now)) }
{
    if operators.len() <= MOST {
        return grouped(alloc, tokens, operators);
    }
    let (first, more) = operators.split_at(MOST);
    let _turns = grouped(alloc, tokens, first)?;
    Err(TextError::Fault(fault_of(
        tokens,
        Pos { row: 1, column: 1 },
        Finding {
            index: more[0].index,
            code: Code::TooDeep,
        },
    )))
}
