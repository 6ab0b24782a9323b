//! A chain of operators, worked off: each operator comes after what it joins. So no tree of the chain has to be made.

ghost use Rattle.std.specs.Prelude.{◌≡◌, ◌++◌, [], map, IfOk, IfErr, OnOk};
ghost use Rattle.elm_tree.specs.Regroup.{level_of, side_of, may_stand_left, clash_of, clashes_after, turns, joined};
ghost use Rattle.elm_tree.specs.Regroup.{kept, Join};
ghost use Rattle.elm_tree.specs.View.{word_view, words_view};
ghost use Rattle.elm_tree.specs.Turns.{tokens_view, turn_view, nearest, clashes, IfClash, BeginsWith};
ghost use Rattle.elm_tree.specs.declared.turns.Ungrouped.TheVariants.{Memory};

use crate::operator::{Side, Strength, strength_of};
use crate::tree::Word;
use elm_lexer::token::Token;
use std::alloc::{AllocError, AllocFailed, Global};

/// What comes next where a chain is worked off.
#[derive(Clone, Copy, Debug, PartialEq, Eq)]
pub enum Turn {
    /// The operand with this number in the chain, from 0 on.
    Operand(usize),
    /// The last two things that are not joined yet are joined by the operator.
    Join(Word),
}

/// Why a chain was not worked off.
#[derive(Clone, Copy, Debug)]
pub enum Ungrouped {
    /// Out of memory.
    Memory,
    /// The operator does not group with one before it.
    Clash(Word),
}

impl<T: Drop> From<AllocFailed<T>> for Ungrouped {
    ghost from_gives = { λ _ e. e ≡ Memory };

    fn from(_failed: AllocFailed<T>) -> Ungrouped {
        Ungrouped::Memory
    }
}

impl From<AllocError> for Ungrouped {
    ghost from_gives = { λ _ e. e ≡ Memory };

    fn from(_failed: AllocError) -> Ungrouped {
        Ungrouped::Memory
    }
}

/// The text of a word.
pub fn text_at<'a>(tokens: &[Token<'a>], word: Word) -> &'a [u8]
    ensures { result.now ≡ (word_view (tokens_view tokens.now) word).text }
{
    match tokens.get(word.index as usize) {
        Some(token) => token.text,
        None => b"",
    }
}

/// How the operator that a word is groups.
pub fn strength_at(tokens: &[Token<'_>], word: Word) -> Strength
    ensures level { result.level ≡ level_of (word_view (tokens_view tokens.now) word) }
    ensures side { result.side ≡ side_of (word_view (tokens_view tokens.now) word) }
{
    strength_of(text_at(tokens, word))
}

/// Whether operators of one level do not group, the first before the second.
pub fn differ(before: Side, after: Side) -> bool
    ensures { result ≡ clash_of before after }
{
    match (before, after) {
        (Side::ToLeft, Side::ToLeft) | (Side::ToRight, Side::ToRight) => false,
        _ => true,
    }
}

/// Whether an operator is joined before the one that comes after it.
fn joins_first(tokens: &[Token<'_>], before: Word, operator: Word) -> bool
    ensures { result ≡ may_stand_left (word_view (tokens_view tokens.now) before)
        (word_view (tokens_view tokens.now) operator) }
{
    let left = strength_at(tokens, before);
    let right = strength_at(tokens, operator);
    if left.level > right.level {
        return true;
    }
    left.level == right.level
        && matches!(left.side, Side::ToLeft)
        && matches!(right.side, Side::ToLeft)
}

/// Whether an operator clashes with one of those that wait for their right part.
fn clashes_with(tokens: &[Token<'_>], waiting: &[Word], operator: Word) -> bool
    ensures { result ≡ clashes_after (nearest (tokens_view tokens.now) waiting.now)
        (word_view (tokens_view tokens.now) operator) }
{
    let after = strength_at(tokens, operator);
    let mut rest = waiting;
    while let [others @ .., last] = rest {
        let before = strength_at(tokens, *last);
        if before.level <= after.level {
            return before.level == after.level && differ(before.side, after.side);
        }
        rest = others;
    }
    false
}

/// Joins the operators that bind before one that comes.
fn join_before(
    tokens: &[Token<'_>],
    waiting: &mut Vec<Word>,
    operator: Word,
    turns: &mut Vec<Turn>,
) -> Result<(), AllocError>
    ensures waiting { OnOk result (nearest (tokens_view tokens.now) waiting.new.items
        ≡ kept (nearest (tokens_view tokens.now) waiting.old.items) (word_view (tokens_view tokens.now) operator)) }
    ensures turns { OnOk result (map (turn_view (tokens_view tokens.now)) turns.new.items
        ≡ map (turn_view (tokens_view tokens.now)) turns.old.items
        ++ map Join (joined (nearest (tokens_view tokens.now) waiting.old.items)
        (word_view (tokens_view tokens.now) operator))) }
{
    while let Some(last) = waiting.pop() {
        if !joins_first(tokens, last, operator) {
            waiting.push(last)?;
            return Ok(());
        }
        turns.push(Turn::Join(last))?;
    }
    Ok(())
}

/// Joins all operators that wait.
fn join_all(
    mut waiting: Vec<Word>,
    turns: &mut Vec<Turn>,
    tokens: &[Token<'_>],
) -> Result<(), AllocError>
    ensures { OnOk result (map (turn_view (tokens_view tokens.now)) turns.new.items
        ≡ map (turn_view (tokens_view tokens.now)) turns.old.items
        ++ map Join (nearest (tokens_view tokens.now) waiting.items)) }
{
    while let Some(last) = waiting.pop() {
        turns.push(Turn::Join(last))?;
    }
    Ok(())
}

/// The turns of the chain with these operators, unless one of them does not group with one before it: then the first
/// such operator.
pub fn turns(
    alloc: Global,
    tokens: &[Token<'_>],
    operators: &[Word],
) -> Result<Vec<Turn>, Ungrouped>
    ensures turns { IfOk result (λ v. map (turn_view (tokens_view tokens.now)) v.items
        ≡ turns (words_view (tokens_view tokens.now) operators.now)) }
    ensures grouped { OnOk result (clashes (tokens_view tokens.now) operators.now ≡ []) }
    ensures clash { IfErr result (λ e. IfClash e (λ op. BeginsWith
        (clashes (tokens_view tokens.now) operators.now) op)) }
{
    let mut turns = Vec::new(alloc);
    let mut waiting = Vec::new(alloc);
    turns.push(Turn::Operand(0))?;
    for (before, operator) in operators.iter().enumerate() {
        if clashes_with(tokens, &waiting, *operator) {
            return Err(Ungrouped::Clash(*operator));
        }
        join_before(tokens, &mut waiting, *operator, &mut turns)?;
        waiting.push(*operator)?;
        turns.push(Turn::Operand(before + 1))?;
    }
    join_all(waiting, &mut turns, tokens)?;
    Ok(turns)
}
