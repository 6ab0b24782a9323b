//! The variables of a type in order of appearance, and their kinds.

ghost use Rattle.std.specs.Prelude.{◌≡◌, [], map, IfOk, OnOk};
ghost use Rattle.std.specs.List.{flat_map};
ghost use Rattle.elm_type.specs.Nodes.{leaves};
ghost use Rattle.elm_type.specs.Schemes.{in_order};
ghost use Rattle.elm_type.specs.View.{kind_view};
ghost use Rattle.type_schemes.specs.Seen.{HasSeen};
ghost use Rattle.type_store.specs.Store.{slot_at};

use elm_base::names::Name;
use elm_type::class::Class;
use elm_type::node::{Leaf, Node};
use elm_type::scheme::Kind;
use std::alloc::{AllocError, Global};
use std::collections::HashSet;
use type_store::store::Store;

/// Adds the variable of a node, if it has one that is not there yet.
fn note(seen: &mut HashSet<u32>, order: &mut Vec<u32>, node: &Node) -> Result<(), AllocError>
    requires { HasSeen seen.old order.old.items }
    ensures seen { OnOk result (HasSeen seen.new order.new.items) }
    ensures order { OnOk result (order.new.items ≡ in_order order.old.items (leaves node.now)) }
{
    if let Node::Open(Leaf::Free(variable), _) = node {
        if seen.insert(*variable)? {
            order.push(*variable)?;
        }
    }
    Ok(())
}

/// The variables of nodes in order of appearance, each once.
fn appearing(alloc: Global, nodes: &[Node]) -> Result<Vec<u32>, AllocError>
    ensures { IfOk result (λ order. order.items ≡ in_order [] (flat_map leaves nodes.now)) }
{
    let mut seen = HashSet::new(alloc);
    let mut order = Vec::new(alloc);
    for node in nodes {
        note(&mut seen, &mut order, node)?;
    }
    Ok(order)
}

/// The same names once more.
fn copy_names(alloc: Global, names: &[Name]) -> Result<Vec<Name>, AllocError>
    ensures { IfOk result (λ copies. copies.items ≡ names.now) }
{
    let mut copies = Vec::with_capacity(alloc, names.len())?;
    for name in names {
        copies.push(name.clone()?)?;
    }
    Ok(copies)
}

/// The kind of a variable.
fn kind_of(alloc: Global, store: &Store, variable: u32) -> Result<Kind, AllocError>
    ensures { IfOk result (λ kind. kind_view kind ≡ (slot_at store.now variable).kind) }
{
    match store.slots().get(variable as usize) {
        Some(slot) => Ok(Kind {
            class: slot.class,
            lacks: copy_names(alloc, &slot.lacks)?,
        }),
        None => Ok(Kind {
            class: Class::Any,
            lacks: Vec::new(alloc),
        }),
    }
}

/// The kinds of the variables of nodes, in order of appearance.
pub fn kinds(alloc: Global, store: &Store, nodes: &[Node]) -> Result<Vec<Kind>, AllocError>
    ensures { IfOk result (λ kinds. map kind_view kinds.items ≡ map (λ v. (slot_at store.now v).kind)
        (in_order [] (flat_map leaves nodes.now))) }
{
    let order = appearing(alloc, nodes)?;
    let mut kinds = Vec::with_capacity(alloc, order.len())?;
    for variable in &order {
        kinds.push(kind_of(alloc, store, *variable)?)?;
    }
    Ok(kinds)
}
