//! A chain of operators, worked off from left to right. Operators of one level make one chain in the canonical tree, so
//! that it nests no deeper than there are levels.

ghost use Rattle.std.specs.Prelude.{◌≡◌, ◌∷◌, [], ◌&&◌, map, IfOk, OnOk};
ghost use Rattle.elm_canon.specs.View.{expr_view};
ghost use Rattle.elm_tree.specs.View.{word_view};
ghost use Rattle.elm_tree.specs.Turns.{tokens_view};
ghost use Rattle.elm_tree.specs.Regroup.{may_stand_left, is_left};
ghost use Rattle.canon_expr.specs.Operators.{function_of};
ghost use Rattle.canon_expr.specs.Callees as spec;
ghost use Rattle.canon_expr.specs.Calls.{callee_view};
ghost use Rattle.canon_expr.specs.Chains.{waiting_view, operand_view, closed, waits_on, reached};

use crate::callee::{Callee, given_last};
use crate::items::{boxed, one_item, put};
use crate::links::{chained, then};
use crate::operators::{Between, core_function, effect_of};
use canon_env::finding::place_at;
use elm_base::position::Pos;
use elm_canon::tree::{Connective, Expr, Link, Op, Operator};
use elm_lexer::token::Token;
use elm_tree::operator::Side;
use elm_tree::tree::Word;
use elm_tree::turns::{strength_at, text_at};
use std::alloc::{AllocError, Global};

/// A callee to the left of the operator, which waits for its right part.
#[derive(Drop)]
struct Waiting {
    callee: Box<Callee>,
    operator: Word,
}

/// An operand, with the operator before it.
#[derive(Drop)]
pub struct Operand {
    pub operator: Word,
    pub callee: Box<Callee>,
}

/// What an operand means.
fn meaning(alloc: Global, operand: Box<Callee>) -> Result<Box<Expr>, AllocError>
    ensures { IfOk result (λ e. expr_view e.value ≡ spec.finished (callee_view operand.value)) }
{
    Box::into_inner(operand).finish(alloc)
}

/// An expression without arguments.
fn plain(alloc: Global, expr: Box<Expr>) -> Result<Box<Callee>, AllocError>
    ensures { IfOk result (λ c. callee_view c.value ≡ spec.plain (expr_view expr.value)) }
{
    boxed(alloc, Callee::plain(alloc, expr))
}

/// A call with one argument more.
fn with_argument(
    alloc: Global,
    function: Box<Callee>,
    argument: Box<Callee>,
) -> Result<Box<Callee>, AllocError>
    ensures { IfOk result (λ c. callee_view c.value
        ≡ spec.with_arguments (callee_view function.value) (spec.finished (callee_view argument.value) ∷ [])) }
{
    let argument = meaning(alloc, argument)?;
    let argument = chained(alloc, argument)?;
    let mut function = function;
    function.push(argument)?;
    Ok(function)
}

/// One expression as a list.
fn one(alloc: Global, expr: Box<Expr>) -> Result<Vec<Expr>, AllocError>
    ensures { IfOk result (λ v. v.items ≡ expr.value ∷ []) }
{
    one_item(alloc, Box::into_inner(expr))
}

/// Whether a chain of the operator goes on to its right.
fn goes_right(operator: Operator) -> bool {
    matches!(operator, Operator::Append | Operator::Cons)
}

/// What computes with both operands, the right one as the first of a chain.
#[tactic(auto, using(elm_canon::proofs::Views::part_after))]
fn computed_right(
    alloc: Global,
    place: Pos,
    operator: Operator,
    left: Box<Expr>,
    right: Box<Expr>,
) -> Result<Box<Expr>, AllocError>
    ensures { IfOk result (λ e. expr_view e.value
        ≡ spec.computed place operator (expr_view left.value) (expr_view right.value)) }
{
    let left = one(alloc, left)?;
    then(alloc, right, Link::After(Op::Binary(place, operator), left))
}

/// The same, with the left one as the first.
#[tactic(auto, using(elm_canon::proofs::Views::part_before))]
fn computed_left(
    alloc: Global,
    place: Pos,
    operator: Operator,
    left: Box<Expr>,
    right: Box<Expr>,
) -> Result<Box<Expr>, AllocError>
    ensures { IfOk result (λ e. expr_view e.value
        ≡ spec.computed place operator (expr_view left.value) (expr_view right.value)) }
{
    then(
        alloc,
        left,
        Link::Before(Op::Binary(place, operator), right),
    )
}

/// What computes with both operands.
fn computed(
    alloc: Global,
    place: Pos,
    operator: Operator,
    left: Box<Callee>,
    right: Box<Callee>,
) -> Result<Box<Callee>, AllocError>
    ensures { IfOk result (λ c. callee_view c.value ≡ spec.plain (spec.computed place operator
        (spec.finished (callee_view left.value)) (spec.finished (callee_view right.value)))) }
{
    let left = meaning(alloc, left)?;
    let right = meaning(alloc, right)?;
    let expr = if goes_right(operator) {
        computed_right(alloc, place, operator, left, right)?
    } else {
        computed_left(alloc, place, operator, left, right)?
    };
    plain(alloc, expr)
}

/// What may pass over its right operand.
#[tactic(auto, using(elm_canon::proofs::Views::decided))]
fn decided(
    alloc: Global,
    place: Pos,
    connective: Connective,
    left: Box<Callee>,
    right: Box<Callee>,
) -> Result<Box<Callee>, AllocError>
    ensures { IfOk result (λ c. callee_view c.value ≡ spec.plain (spec.decided place connective
        (spec.finished (callee_view left.value)) (spec.finished (callee_view right.value)))) }
{
    let left = meaning(alloc, left)?;
    let right = meaning(alloc, right)?;
    let expr = then(alloc, right, Link::Decided(place, connective, left))?;
    plain(alloc, expr)
}

/// What calls a function with both operands, the left one as the first of a chain.
#[tactic(auto, using(elm_canon::proofs::Views::composed))]
fn composed(
    alloc: Global,
    function: Box<Expr>,
    left: Box<Expr>,
    right: Box<Expr>,
) -> Result<Box<Expr>, AllocError>
    ensures { IfOk result (λ e. expr_view e.value
        ≡ spec.called (expr_view function.value) (expr_view left.value) (expr_view right.value)) }
{
    then(alloc, left, Link::Composed(function, right))
}

/// The same, with the right one as the first.
fn applied(
    alloc: Global,
    function: Box<Expr>,
    left: Box<Expr>,
    right: Box<Expr>,
) -> Result<Box<Expr>, AllocError>
    ensures { IfOk result (λ e. expr_view e.value
        ≡ spec.called (expr_view function.value) (expr_view left.value) (expr_view right.value)) }
{
    let left = one(alloc, left)?;
    given_last(alloc, function, left, right)
}

/// The core function of an operator, in a box.
fn core_box(alloc: Global, tokens: &[Token<'_>], operator: Word) -> Result<Box<Expr>, AllocError>
    ensures { IfOk result (λ e. expr_view e.value ≡ function_of (word_view (tokens_view tokens.now) operator)) }
{
    boxed(alloc, core_function(alloc, tokens, operator)?)
}

/// What calls the function of an operator with both operands.
fn called(
    alloc: Global,
    tokens: &[Token<'_>],
    operator: Word,
    left: Box<Callee>,
    right: Box<Callee>,
) -> Result<Box<Callee>, AllocError>
    ensures { IfOk result (λ c. callee_view c.value
        ≡ spec.plain (spec.called (function_of (word_view (tokens_view tokens.now) operator))
        (spec.finished (callee_view left.value)) (spec.finished (callee_view right.value)))) }
{
    let function = core_box(alloc, tokens, operator)?;
    let left = meaning(alloc, left)?;
    let right = meaning(alloc, right)?;
    let expr = match strength_at(tokens, operator).side {
        Side::ToLeft => composed(alloc, function, left, right)?,
        _ => applied(alloc, function, left, right)?,
    };
    plain(alloc, expr)
}

/// Two operands, joined by an operator.
fn joined(
    alloc: Global,
    tokens: &[Token<'_>],
    operator: Word,
    left: Box<Callee>,
    right: Box<Callee>,
) -> Result<Box<Callee>, AllocError>
    ensures { IfOk result (λ c. callee_view c.value ≡ spec.joined (word_view (tokens_view tokens.now) operator)
        (callee_view left.value) (callee_view right.value)) }
{
    let place = place_at(tokens, operator);
    match effect_of(text_at(tokens, operator)) {
        Between::ToRight => with_argument(alloc, right, left),
        Between::ToLeft => with_argument(alloc, left, right),
        Between::Computes(computes) => computed(alloc, place, computes, left, right),
        Between::Decides(connective) => decided(alloc, place, connective, left, right),
        Between::Calls => called(alloc, tokens, operator, left, right),
    }
}

/// Whether operators of one level group to the left, the first before the second.
fn both_to_left(first: Side, second: Side) -> bool
    ensures { result ≡ (is_left first && is_left second) }
{
    match (first, second) {
        (Side::ToLeft, Side::ToLeft) => true,
        _ => false,
    }
}

/// Whether an operator is joined before the one that comes after it.
fn joins_first(tokens: &[Token<'_>], before: Word, operator: Word) -> bool
    ensures { result ≡ may_stand_left (word_view (tokens_view tokens.now) before)
        (word_view (tokens_view tokens.now) operator) }
{
    let left = strength_at(tokens, before);
    let right = strength_at(tokens, operator);
    if left.level == right.level {
        both_to_left(left.side, right.side)
    } else {
        left.level > right.level
    }
}

/// Joins those that bind before an operator that comes, and returns what the operator takes as its left part.
fn join_before(
    alloc: Global,
    tokens: &[Token<'_>],
    waiting: &mut Vec<Waiting>,
    mut callee: Box<Callee>,
    operator: Word,
) -> Result<Box<Callee>, AllocError>
    ensures waiting { OnOk result (waiting_view (tokens_view tokens.now) waiting.new.items
        ≡ waits_on (waiting_view (tokens_view tokens.now) waiting.old.items) (callee_view callee.value)
        (word_view (tokens_view tokens.now) operator)) }
    ensures callee { IfOk result (λ c. callee_view c.value
        ≡ reached (waiting_view (tokens_view tokens.now) waiting.old.items) (callee_view callee.value)
        (word_view (tokens_view tokens.now) operator)) }
{
    while let Some(last) = waiting.pop() {
        if !joins_first(tokens, last.operator, operator) {
            put(waiting, last)?;
            return Ok(callee);
        }
        callee = joined(alloc, tokens, last.operator, last.callee, callee)?;
    }
    Ok(callee)
}

/// Joins all that wait.
fn join_all(
    alloc: Global,
    tokens: &[Token<'_>],
    mut waiting: Vec<Waiting>,
    mut callee: Box<Callee>,
) -> Result<Box<Callee>, AllocError>
    ensures { IfOk result (λ c. callee_view c.value
        ≡ closed (waiting_view (tokens_view tokens.now) waiting.items) (callee_view callee.value)) }
{
    while let Some(last) = waiting.pop() {
        callee = joined(alloc, tokens, last.operator, last.callee, callee)?;
    }
    Ok(callee)
}

/// What a chain calls: its first operand `first`, and the others `operands` in turn, each with the operator before it,
/// which is a word of the text of the tokens `tokens`. Of operators that do not group any tree serves, since that is a
/// fault of the text. The error means that memory ran out.
pub fn chain(
    alloc: Global,
    tokens: &[Token<'_>],
    first: Box<Callee>,
    operands: Vec<Operand>,
) -> Result<Callee, AllocError>
    ensures { IfOk result (λ c. callee_view c
        ≡ spec.chain_of (callee_view first.value) (map (operand_view (tokens_view tokens.now)) operands.items)) }
{
    let mut waiting = Vec::new(alloc);
    let mut callee = first;
    for operand in operands {
        let left = join_before(alloc, tokens, &mut waiting, callee, operand.operator)?;
        let left = Waiting {
            callee: left,
            operator: operand.operator,
        };
        put(&mut waiting, left)?;
        callee = operand.callee;
    }
    let whole = join_all(alloc, tokens, waiting, callee)?;
    Ok(Box::into_inner(whole))
}
