//! What one part of an expression means, kept in a box while the next part is walked.
//!
//! The proof of a function pays for each large value that it holds while it calls another one. A box is small.

ghost use Rattle.std.specs.Prelude.{◌≡◌, ◌++◌, ◌∷◌, [], List, Some, None, map, option_map, IfOk, OnOk};
ghost use Rattle.elm_lexer.specs.Tokens as lexed;
ghost use Rattle.elm_tree.specs.View as tree_view;
ghost use Rattle.elm_tree.specs.View.{word_view};
ghost use Rattle.elm_tree.specs.Turns.{tokens_view};
ghost use Rattle.elm_canon.specs.declared.reference.Ref.TheVariants.{Local};
ghost use Rattle.elm_canon.specs.View.{expr_view, branch_view, pattern_view, patterns_view, annotation_view};
ghost use Rattle.canon_env.specs.Imports.{name_of};
ghost use Rattle.canon_expr.specs.Calls.{callee_view};
ghost use Rattle.canon_expr.specs.Callees.{with_arguments};
ghost use Rattle.canon_expr.specs.Chains.{operand_view};
ghost use Rattle.canon_expr.specs.Binding.{is_function};
ghost use Rattle.canon_expr.specs.Blocks as blocks;
ghost use Rattle.canon_expr.specs.Blocks.{title_of};
ghost use Rattle.canon_expr.specs.Kept.{made_view};

use crate::callee::Callee;
use crate::chain::Operand;
use crate::items::{boxed, put, set};
use crate::made::Made;
use crate::titles::made_named;
use canon_env::import::word_name;
use elm_canon::reference::Ref;
use elm_canon::tree::{Annotation, Branch, Expr, Pattern};
use elm_lexer::token::Token;
use elm_tree::tree;
use elm_tree::tree::Word;
use std::alloc::{AllocError, Global};

/// Adds what an expression means.
pub(crate) fn push_meaning(meanings: &mut Vec<Expr>, meaning: Box<Expr>) -> Result<(), AllocError>
    ensures { OnOk result (map expr_view meanings.new.items
        ≡ map expr_view meanings.old.items ++ expr_view meaning.value ∷ []) }
{
    put(meanings, Box::into_inner(meaning))
}

/// A function with its arguments.
pub(crate) fn applied(function: Box<Callee>, arguments: Vec<Expr>) -> Result<Callee, AllocError>
    ensures { IfOk result (λ c. callee_view c
        ≡ with_arguments (callee_view function.value) (map expr_view arguments.items)) }
{
    let function = Box::into_inner(function);
    function.extend(arguments)
}

/// Adds an operand.
pub(crate) fn push_operand(
    alloc: Global,
    operands: &mut Vec<Operand>,
    operator: Word,
    callee: Callee,
) -> Result<(), AllocError>
    ensures { OnOk result ((tokens : List lexed.Token) → map (operand_view tokens) operands.new.items
        ≡ map (operand_view tokens) operands.old.items ++ (word_view tokens operator, callee_view callee) ∷ []) }
{
    let callee = boxed(alloc, callee)?;
    put(operands, Operand { operator, callee })
}

/// Adds a branch.
pub(crate) fn push_branch(
    branches: &mut Vec<Branch>,
    pattern: Box<Pattern>,
    body: Box<Expr>,
) -> Result<(), AllocError>
    ensures { OnOk result (map branch_view branches.new.items
        ≡ map branch_view branches.old.items ++ (pattern_view pattern.value, expr_view body.value) ∷ []) }
{
    let pattern = Box::into_inner(pattern);
    put(branches, Branch { pattern, body })
}

/// No annotation stands before the next definition.
pub(crate) fn forget(before: &mut Option<Annotation>)
    ensures { before.new ≡ None }
{
    set(before, None);
}

/// What the definition of a name means, with the annotation that stands before it. None stands before the next one.
pub(crate) fn defined_by(
    alloc: Global,
    tokens: &[Token<'_>],
    name: Word,
    before: &mut Option<Annotation>,
    written: &[tree::Pattern],
    parameters: Vec<Pattern>,
    body: &tree::Expr,
    value: Box<Expr>,
) -> Result<Made, AllocError>
    ensures meaning { IfOk result (λ m. made_view m ≡ blocks.made_of
        (is_function (tree_view.patterns_view (tokens_view tokens.now) written.now)
        (tree_view.expr_view (tokens_view tokens.now) body.now))
        (title_of (Local (name_of (word_view (tokens_view tokens.now) name)))
        (word_view (tokens_view tokens.now) name).place (option_map annotation_view before.old))
        (patterns_view parameters.items) (expr_view value.value)) }
    ensures before { OnOk result (before.new ≡ None) }
{
    let local = word_name(alloc, tokens, name)?;
    let before = before.take();
    Ok(made_named(
        tokens,
        Ref::Local(local),
        name,
        before,
        written,
        parameters,
        body,
        value,
    ))
}

/// What a pattern with what it takes apart means.
pub(crate) fn parts_of(parts: Box<Pattern>, value: Box<Expr>) -> Made
    ensures { made_view result ≡ blocks.MadeParts (pattern_view parts.value) (expr_view value.value) }
{
    let parts = Box::into_inner(parts);
    Made::Parts(parts, value)
}
