//! The groups of the declarations of a module, by what they mean.

ghost use Rattle.std.specs.Prelude.{◌≡◌, ◌++◌, ◌∷◌, [], ℕ, List, map, slice_index_or, IfOk, OnOk, IsOkAnd};
ghost use Rattle.elm_canon.specs.Tree as canon;
ghost use Rattle.elm_canon.specs.View.{declaration_view, function_view, known_view};
ghost use Rattle.canon_expr.specs.Blocks.{group_of};
ghost use Rattle.canon_expr.specs.Kept.{made_view, one_view, IsOrderOf, left_at, left_after, taken_at};
ghost use Rattle.canon_module.specs.Items as spec;
ghost use Rattle.canon_module.specs.CanonValuesKept.{item_view, nothing};

use crate::item::{Item, PortFunction};
use crate::outcomes::put;
use canon_expr::groups::{functions_in, one_group};
use canon_expr::made::Made;
use canon_expr::order::Order;
use elm_canon::tree::{Declaration, Function, Group};
use std::alloc::{AllocError, Global};
use std::mem;

/// Takes out what stands at a place, and leaves nothing there.
fn take_one(items: &mut Vec<Item>, at: usize) -> Item
    ensures taken { item_view result ≡ slice_index_or (map item_view items.old.items) at nothing }
    ensures left { map item_view items.new.items ≡ left_at nothing (map item_view items.old.items) at }
{
    if at < items.len() {
        mem::replace(&mut items[at], Item::Nothing)
    } else {
        Item::Nothing
    }
}

/// The definition that a declaration is. A port is none.
fn made_by(item: Item) -> Made
    ensures { made_view result ≡ spec.made_by (item_view item) }
{
    match item {
        Item::Nothing => Made::Nothing,
        Item::Port(_port) => Made::Nothing,
        Item::Value(made) => Box::into_inner(made),
    }
}

/// Adds the definition that a declaration is.
fn push_made(taken: &mut Vec<Made>, item: Item) -> Result<(), AllocError>
    ensures { OnOk result (map made_view taken.new.items
        ≡ map made_view taken.old.items ++ spec.made_by (item_view item) ∷ []) }
{
    put(taken, made_by(item))
}

/// Takes out the definitions at places, in turn.
fn take_each(alloc: Global, items: &mut Vec<Item>, members: &[u32]) -> Result<Vec<Made>, AllocError>
    ensures taken { IfOk result (λ v. map made_view v.items
        ≡ map spec.made_by (taken_at nothing (map item_view items.old.items) members.now)) }
    ensures left { OnOk result (map item_view items.new.items
        ≡ left_after nothing (map item_view items.old.items) members.now) }
{
    let mut taken = Vec::new(alloc);
    for member in members {
        push_made(&mut taken, take_one(items, *member as usize))?;
    }
    Ok(taken)
}

/// Adds a declaration.
fn push(declarations: &mut Vec<Declaration>, declaration: Declaration) -> Result<(), AllocError>
    ensures { OnOk result (map declaration_view declarations.new.items
        ≡ map declaration_view declarations.old.items ++ declaration_view declaration ∷ []) }
{
    put(declarations, declaration)
}

/// Adds a port.
fn push_port(declarations: &mut Vec<Declaration>, port: Box<PortFunction>) -> Result<(), AllocError>
    ensures { OnOk result (map declaration_view declarations.new.items
        ≡ map declaration_view declarations.old.items
        ++ canon.Given port.value.name (known_view port.value.known) ∷ []) }
{
    let PortFunction { name, known } = Box::into_inner(port);
    push(declarations, Declaration::Given(name, known))
}

/// Adds a group, if there is one.
fn push_defined(declarations: &mut Vec<Declaration>, group: Option<Group>) -> Result<(), AllocError>
    ensures { OnOk result (map declaration_view declarations.new.items
        ≡ map declaration_view declarations.old.items ++ map canon.Define (one_view group)) }
{
    match group {
        Some(group) => push(declarations, Declaration::Define(group)),
        None => Ok(()),
    }
}

/// Adds a group, if there is one, where it is made.
fn push_made_group(
    declarations: &mut Vec<Declaration>,
    made: Result<Option<Group>, AllocError>,
) -> Result<(), AllocError>
    ensures { OnOk result (IsOkAnd made (λ group. map declaration_view declarations.new.items
        ≡ map declaration_view declarations.old.items ++ map canon.Define (one_view group))) }
{
    match made {
        Ok(group) => push_defined(declarations, group),
        Err(e) => Err(e),
    }
}

/// Adds the group of one definition, if it makes one.
fn push_value(
    alloc: Global,
    declarations: &mut Vec<Declaration>,
    made: Box<Made>,
) -> Result<(), AllocError>
    ensures { OnOk result (map declaration_view declarations.new.items
        ≡ map declaration_view declarations.old.items ++ map canon.Define (group_of (made_view made.value ∷ []))) }
{
    push_made_group(declarations, one_group(alloc, Box::into_inner(made)))
}

/// Adds the group of one declaration, if it makes one.
fn push_one(
    alloc: Global,
    item: Item,
    declarations: &mut Vec<Declaration>,
) -> Result<(), AllocError>
    ensures { OnOk result (map declaration_view declarations.new.items
        ≡ map declaration_view declarations.old.items ++ spec.grouped (item_view item ∷ [])) }
{
    match item {
        Item::Nothing => Ok(()),
        Item::Port(port) => push_port(declarations, port),
        Item::Value(made) => push_value(alloc, declarations, made),
    }
}

/// Adds the group of these functions.
fn push_functions(
    declarations: &mut Vec<Declaration>,
    functions: Vec<Function>,
) -> Result<(), AllocError>
    ensures { OnOk result (map declaration_view declarations.new.items
        ≡ map declaration_view declarations.old.items
        ++ canon.Define (canon.Together (canon.functions_of (map function_view functions.items))) ∷ []) }
{
    push(
        declarations,
        Declaration::Define(Group::Together(functions)),
    )
}

/// Adds the group of the declarations at these places, and takes them out.
fn push_group(
    alloc: Global,
    items: &mut Vec<Item>,
    members: &[u32],
    declarations: &mut Vec<Declaration>,
) -> Result<(), AllocError>
    ensures groups { OnOk result (map declaration_view declarations.new.items
        ≡ map declaration_view declarations.old.items
        ++ spec.grouped (taken_at nothing (map item_view items.old.items) members.now)) }
    ensures left { OnOk result (map item_view items.new.items
        ≡ left_after nothing (map item_view items.old.items) members.now) }
{
    if members.len() == 1 {
        return push_one(alloc, take_one(items, members[0] as usize), declarations);
    }
    let taken = take_each(alloc, items, members)?;
    let functions = functions_in(alloc, taken)?;
    push_functions(declarations, functions)
}

/// The groups of the declarations of a module, each after those that it uses. `items` says what they mean, and `order` is
/// their order. The error means that memory ran out.
pub fn groups_of(
    alloc: Global,
    order: &Order,
    items: Vec<Item>,
) -> Result<Vec<Declaration>, AllocError>
    ensures { IfOk result (λ v. (uses : List (List ℕ)) → IsOrderOf order.now uses
        → map declaration_view v.items ≡ spec.groups_of_items uses (map item_view items.items)) }
{
    let mut items = items;
    let mut declarations = Vec::new(alloc);
    for group in &order.groups {
        push_group(alloc, &mut items, &group.members, &mut declarations)?;
    }
    Ok(declarations)
}
