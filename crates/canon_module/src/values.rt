//! The values and ports that a module declares.

ghost use Rattle.std.specs.Prelude.{◌≡◌, ◌<◌, ◌^◌, ◌++◌, length, map, IfOk, OnOk};
ghost use Rattle.std.specs.List.{All};
ghost use Rattle.decl_groups.specs.Groups.{plain};
ghost use Rattle.elm_tree.specs.View as tree_view;
ghost use Rattle.elm_tree.specs.Turns.{tokens_view};
ghost use Rattle.elm_canon.specs.View.{declaration_view};
ghost use Rattle.canon_env.specs.Naming as naming;
ghost use Rattle.canon_env.specs.Naming.{IsWorld};
ghost use Rattle.canon_expr.specs.Literals.{AreLiterals};
ghost use Rattle.canon_module.specs.TopUses.{value_names_each};
ghost use Rattle.canon_module.specs.Items as spec;
ghost use Rattle.canon_module.specs.CanonValuesFaults.{value_faults};
ghost use Rattle.canon_module.specs.CanonValuesKept.{item_view};

use crate::groups::groups_of;
use crate::item::Item;
use crate::numbers::Numbers;
use crate::reaching::note_reaching;
use crate::uses::used_among;
use crate::walk::items;
use crate::written::Declarations;
use canon_env::env::World;
use canon_expr::log::Log;
use canon_expr::order::Order;
use elm_base::names::Name;
use elm_canon::tree;
use elm_lexer::token::Token;
use std::alloc::{AllocError, Global};

/// For each of the declarations the places of those that it uses, by what they mean.
fn used_in(
    alloc: Global,
    tokens: &[Token<'_>],
    home: &Name,
    declarations: &Declarations<'_>,
    items: &[Item],
) -> Result<Vec<Vec<u32>>, AllocError>
    ensures count { IfOk result (λ v. length v.items ≡ length items.now) }
    ensures used { IfOk result (λ v. plain v.items ≡ spec.used_among home.now
        (value_names_each (map (tree_view.declaration_view (tokens_view tokens.now)) declarations.now))
        (map item_view items.now)) }
    ensures within { IfOk result (λ v. All (λ row. All (λ j. j < length declarations.now) row.items) v.items) }
    ensures few { OnOk result (length declarations.now < 2 ^ 32) }
{
    let numbers = Numbers::of(alloc, tokens, declarations)?;
    used_among(alloc, home, &numbers, items)
}

/// The groups of the values that the declarations `declarations` of the module `home` declare, each after those that it
/// uses, with each port among them as a function without a body. The declarations are of the text of the tokens
/// `tokens`, as the lexer makes them, and `world` has the names of the module and its imports.
///
/// The faults in the values and ports are noted in `log`: what stands in each declaration, in turn, and then the values
/// that reach themselves by uses and are not functions. It takes time in proportion to the text, but for the choice of
/// the next group. The error means that memory ran out; so it does where there are 2 ^ 32 declarations or more.
pub fn values(
    alloc: Global,
    tokens: &[Token<'_>],
    home: &Name,
    world: &World,
    log: &mut Log,
    declarations: &Declarations<'_>,
) -> Result<Vec<tree::Declaration>, AllocError>
    requires { AreLiterals (tokens_view tokens.now) }
    ensures meaning { IfOk result (λ v. (w : naming.World) → IsWorld world.now w → w.name ≡ home.now
        → map declaration_view v.items
        ≡ spec.value_groups w (map (tree_view.declaration_view (tokens_view tokens.now)) declarations.now)) }
    ensures faults { OnOk result ((w : naming.World) → IsWorld world.now w → w.name ≡ home.now
        → log.new.findings.items ≡ log.old.findings.items
        ++ value_faults w (map (tree_view.declaration_view (tokens_view tokens.now)) declarations.now)) }
{
    let items = items(alloc, tokens, home, world, log, declarations)?;
    let uses = used_in(alloc, tokens, home, declarations, &items)?;
    let order = Order::of(alloc, &uses)?;
    note_reaching(alloc, tokens, log, &order, declarations)?;
    groups_of(alloc, &order, items)
}
