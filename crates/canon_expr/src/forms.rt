//! Forms of expressions, by what their parts mean.

ghost use Rattle.std.specs.Prelude.{◌≡◌, map, IfOk};
ghost use Rattle.elm_canon.specs.Tree as canon;
ghost use Rattle.elm_canon.specs.Tree.{exprs_of};
ghost use Rattle.elm_canon.specs.View.{expr_view, op_view, patterns_view, branch_view, group_view};
ghost use Rattle.elm_tree.specs.View.{place_view};
ghost use Rattle.elm_tree.specs.Turns.{tokens_view};
ghost use Rattle.canon_expr.specs.Calls.{callee_view};
ghost use Rattle.canon_expr.specs.Callees.{plain};
ghost use Rattle.canon_expr.specs.Exprs as spec;

use crate::callee::Callee;
use crate::items::one_item;
use canon_env::finding::place_at;
use elm_canon::tree::{Branch, Expr, Group, Op, Pattern};
use elm_lexer::token::Token;
use elm_tree::tree::Word;
use std::alloc::{AllocError, Global};

/// An expression that begins at a word, as what is called.
fn at(alloc: Global, tokens: &[Token<'_>], first: Word, expr: Expr) -> Result<Callee, AllocError>
    ensures { IfOk result (λ c. callee_view c
        ≡ spec.at (place_view (tokens_view tokens.now) first) (expr_view expr)) }
{
    Callee::at(alloc, place_at(tokens, first), expr)
}

/// What takes the values of its parts in turn.
#[tactic(auto, using(elm_canon::proofs::Views::strict))]
fn strict(op: Op, parts: Vec<Expr>) -> Expr
    ensures { expr_view result ≡ canon.Strict (op_view op) (exprs_of (map expr_view parts.items)) }
{
    Expr::Strict(op, parts)
}

/// What takes the values of its parts `parts` in turn and then does `op`. It begins at the word `first` of the text of
/// the tokens `tokens`. The error means that memory ran out.
pub fn strict_at(
    alloc: Global,
    tokens: &[Token<'_>],
    first: Word,
    op: Op,
    parts: Vec<Expr>,
) -> Result<Callee, AllocError>
    ensures { IfOk result (λ c. callee_view c ≡ spec.at (place_view (tokens_view tokens.now) first)
        (canon.Strict (op_view op) (exprs_of (map expr_view parts.items)))) }
{
    at(alloc, tokens, first, strict(op, parts))
}

/// `-e`, by the sign `sign` and what `e` means. The sign is a word of the text of the tokens `tokens`. The error means
/// that memory ran out.
pub fn negated(
    alloc: Global,
    tokens: &[Token<'_>],
    sign: Word,
    inner: Box<Expr>,
) -> Result<Callee, AllocError>
    ensures { IfOk result (λ c. callee_view c ≡ spec.at (place_view (tokens_view tokens.now) sign)
        (canon.Strict canon.Negate (spec.one (expr_view inner.value)))) }
{
    let parts = one_item(alloc, Box::into_inner(inner))?;
    strict_at(alloc, tokens, sign, Op::Negate, parts)
}

/// `\p q -> e`, which begins at the word `first`, by what its parameters and its body mean. The word is of the text of
/// the tokens `tokens`. The error means that memory ran out.
#[tactic(auto, using(elm_canon::proofs::Views::lambda))]
pub fn lambda(
    alloc: Global,
    tokens: &[Token<'_>],
    first: Word,
    parameters: Vec<Pattern>,
    body: Box<Expr>,
) -> Result<Callee, AllocError>
    ensures { IfOk result (λ c. callee_view c ≡ spec.at (place_view (tokens_view tokens.now) first)
        (canon.Lambda (patterns_view parameters.items) (expr_view body.value))) }
{
    at(alloc, tokens, first, Expr::Lambda(parameters, body))
}

/// `if a then b else c`, by what the three mean. The error means that memory ran out.
#[tactic(auto, using(elm_canon::proofs::Views::conditional))]
pub fn conditional(
    alloc: Global,
    condition: Box<Expr>,
    yes: Box<Expr>,
    no: Box<Expr>,
) -> Result<Callee, AllocError>
    ensures { IfOk result (λ c. callee_view c
        ≡ plain (canon.If (expr_view condition.value) (expr_view yes.value) (expr_view no.value))) }
{
    Callee::of(alloc, Expr::If(condition, yes, no))
}

/// `case e of`, which begins at the word `first`, by what `e` and the branches mean. The word is of the text of the
/// tokens `tokens`. The error means that memory ran out.
#[tactic(auto, using(elm_canon::proofs::Views::case_of))]
pub fn case_of(
    alloc: Global,
    tokens: &[Token<'_>],
    first: Word,
    subject: Box<Expr>,
    branches: Vec<Branch>,
) -> Result<Callee, AllocError>
    ensures { IfOk result (λ c. callee_view c ≡ spec.at (place_view (tokens_view tokens.now) first)
        (canon.Case (expr_view subject.value) (canon.branches_of (map branch_view branches.items)))) }
{
    at(alloc, tokens, first, Expr::Case(subject, branches))
}

/// `let`, by its groups and what its body means. The error means that memory ran out.
#[tactic(auto, using(elm_canon::proofs::Views::let_in))]
pub fn let_in(alloc: Global, groups: Vec<Group>, body: Box<Expr>) -> Result<Callee, AllocError>
    ensures { IfOk result (λ c. callee_view c
        ≡ plain (canon.Let (canon.groups_of (map group_view groups.items)) (expr_view body.value))) }
{
    Callee::of(alloc, Expr::Let(groups, body))
}
