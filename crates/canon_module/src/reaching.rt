//! Declarations that reach themselves by uses.

ghost use Rattle.std.specs.Prelude.{◌≡◌, ◌∷◌, [], ℕ, List, length, map, OnOk};
ghost use Rattle.elm_tree.specs.View.{declaration_view};
ghost use Rattle.elm_tree.specs.Turns.{tokens_view};
ghost use Rattle.canon_env.specs.Naming as naming;
ghost use Rattle.canon_env.specs.Sites.{Reaching};
ghost use Rattle.canon_expr.specs.Logs.{Grows};
ghost use Rattle.canon_expr.specs.Blocks.{reaching_sites};
ghost use Rattle.canon_expr.specs.Kept.{IsOrderOf};
ghost use Rattle.canon_module.specs.CanonValuesFaults.{defined_top};

use crate::written::{Declarations, Written};
use canon_expr::log::Log;
use canon_expr::order::Order;
use canon_expr::reaching::{marks_in, note_recursion};
use elm_lexer::token::Token;
use elm_tree::tree::Declaration;
use std::alloc::{AllocError, Global};

/// Notes a declaration that reaches itself, if it is a value and no function.
fn note_one(
    alloc: Global,
    tokens: &[Token<'_>],
    log: &mut Log,
    declaration: &Written<'_>,
    reaches: bool,
) -> Result<(), AllocError>
    ensures { OnOk result ((w : naming.World) → Grows w log.old log.new
        (Reaching reaches (defined_top (declaration_view (tokens_view tokens.now) declaration.now)) ∷ [])) }
{
    match declaration.get() {
        Declaration::Value(definition) => note_recursion(alloc, tokens, log, definition, reaches),
        Declaration::Port(_, _) => Ok(()),
        Declaration::Union(_, _, _) => Ok(()),
        Declaration::Alias(_, _, _) => Ok(()),
    }
}

/// Notes each value among the declarations `declarations` that reaches itself by uses and is not a function. `order` is
/// the order of the declarations, and `tokens` has the tokens of their text. The error means that memory ran out.
pub fn note_reaching(
    alloc: Global,
    tokens: &[Token<'_>],
    log: &mut Log,
    order: &Order,
    declarations: &Declarations<'_>,
) -> Result<(), AllocError>
    ensures { OnOk result ((w : naming.World) (uses : List (List ℕ)) → IsOrderOf order.now uses
        → length uses ≡ length declarations.now → Grows w log.old log.new (reaching_sites uses
        (map defined_top (map (declaration_view (tokens_view tokens.now)) declarations.now)))) }
{
    let marks = marks_in(alloc, order, declarations.len())?;
    for number in 0..declarations.len() {
        let declaration = declarations.at(number);
        note_one(alloc, tokens, log, &declaration, marks[number])?;
    }
    Ok(())
}
