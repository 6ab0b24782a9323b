//! What operators do between two operands. (elm/core 1.0.5: Basics, List.)

ghost use Rattle.std.specs.Prelude.{◌≡◌, IfOk};
ghost use Rattle.std.specs.Str.{bytes_eq};
ghost use Rattle.elm_canon.specs.View.{expr_view};
ghost use Rattle.elm_tree.specs.View.{word_view};
ghost use Rattle.elm_tree.specs.Turns.{tokens_view};
ghost use Rattle.canon_env.specs.Exposing.{operator_home};
ghost use Rattle.canon_expr.specs.Operators.{tight_meanings, meaning_among, meaning_of, function_of};

use crate::callee::top_name;
use canon_env::finding::place_at;
use elm_base::names::Name;
use elm_canon::tree::{Connective, Expr, Operator};
use elm_lexer::token::Token;
use elm_tree::tree::Word;
use elm_tree::turns::text_at;
use std::alloc::{AllocError, Global};

/// What an operator does.
#[derive(Clone, Copy)]
pub enum Between {
    /// The right operand is applied to the left one.
    ToRight,
    /// The left operand is applied to the right one.
    ToLeft,
    Computes(Operator),
    Decides(Connective),
    /// The core function is called.
    Calls,
}

/// Whether the operator is the text.
fn is(operator: &[u8], text: &str) -> bool
    ensures { result ≡ bytes_eq operator.now text.now }
{
    operator == text.as_bytes()
}

/// What operators from `++` on do.
fn tight_between(operator: &[u8]) -> Between
    ensures { result ≡ (meaning_among operator.now tight_meanings).between }
{
    if is(operator, "++") {
        Between::Computes(Operator::Append)
    } else if is(operator, "::") {
        Between::Computes(Operator::Cons)
    } else if is(operator, "+") {
        Between::Computes(Operator::Add)
    } else if is(operator, "-") {
        Between::Computes(Operator::Subtract)
    } else if is(operator, "*") {
        Between::Computes(Operator::Multiply)
    } else if is(operator, "//") {
        Between::Computes(Operator::Divide)
    } else {
        Between::Calls
    }
}

/// What the operator with the text `operator`, in UTF-8, does. One that is not of the language calls.
#[tactic(auto, unfolding(crate::specs::Operators::meaning_of))]
pub fn effect_of(operator: &[u8]) -> Between
    ensures { result ≡ (meaning_of operator.now).between }
{
    if is(operator, "<|") {
        Between::ToLeft
    } else if is(operator, "|>") {
        Between::ToRight
    } else if is(operator, "||") {
        Between::Decides(Connective::Or)
    } else if is(operator, "&&") {
        Between::Decides(Connective::And)
    } else if is(operator, "==") {
        Between::Computes(Operator::Equal)
    } else if is(operator, "/=") {
        Between::Computes(Operator::Unequal)
    } else if is(operator, "<") {
        Between::Computes(Operator::Less)
    } else if is(operator, ">") {
        Between::Computes(Operator::Greater)
    } else if is(operator, "<=") {
        Between::Computes(Operator::AtMost)
    } else if is(operator, ">=") {
        Between::Computes(Operator::AtLeast)
    } else {
        tight_between(operator)
    }
}

/// The name of the core function of an operator from `++` on.
fn tight_function(operator: &[u8]) -> &'static str
    ensures { result.now ≡ (meaning_among operator.now tight_meanings).function }
{
    if is(operator, "++") {
        "append"
    } else if is(operator, "::") {
        "cons"
    } else if is(operator, "+") {
        "add"
    } else if is(operator, "-") {
        "sub"
    } else if is(operator, "*") {
        "mul"
    } else if is(operator, "//") {
        "idiv"
    } else if is(operator, "^") {
        "pow"
    } else if is(operator, "<<") {
        "composeL"
    } else if is(operator, ">>") {
        "composeR"
    } else {
        ""
    }
}

/// The name of the core function of an operator. That of what is not an operator is empty.
#[tactic(auto, unfolding(crate::specs::Operators::meaning_of))]
fn function(operator: &[u8]) -> &'static str
    ensures { result.now ≡ (meaning_of operator.now).function }
{
    if is(operator, "<|") {
        "apL"
    } else if is(operator, "|>") {
        "apR"
    } else if is(operator, "||") {
        "or"
    } else if is(operator, "&&") {
        "and"
    } else if is(operator, "==") {
        "eq"
    } else if is(operator, "/=") {
        "neq"
    } else if is(operator, "<") {
        "lt"
    } else if is(operator, ">") {
        "gt"
    } else if is(operator, "<=") {
        "le"
    } else if is(operator, ">=") {
        "ge"
    } else {
        tight_function(operator)
    }
}

/// The module of an operator's core function.
fn home(operator: &[u8]) -> &'static str
    ensures { result.now ≡ operator_home operator.now }
{
    if is(operator, "::") { "List" } else { "Basics" }
}

/// The core function of the operator that the word `operator` is in the text of the tokens `tokens`, where it stands.
/// The error means that memory ran out.
pub fn core_function(
    alloc: Global,
    tokens: &[Token<'_>],
    operator: Word,
) -> Result<Expr, AllocError>
    ensures { IfOk result (λ e. expr_view e ≡ function_of (word_view (tokens_view tokens.now) operator)) }
{
    let text = text_at(tokens, operator);
    let home = Name::of_text(alloc, home(text))?;
    let name = Name::of_text(alloc, function(text))?;
    top_name(alloc, place_at(tokens, operator), home, name)
}
