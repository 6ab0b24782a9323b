//! Schemes with their variables in order of appearance.

ghost use Rattle.std.specs.Prelude.{◌≡◌, ◌++◌, [], map, nat_eq, IfOk, OnOk};
ghost use Rattle.std.specs.List.{flat_map, position_or_len};
ghost use Rattle.elm_type.specs.Nodes.{leaves, renamed_node};
ghost use Rattle.elm_type.specs.Numbers.{Numbered};
ghost use Rattle.elm_type.specs.Types.{kind_at};
ghost use Rattle.elm_type.specs.Schemes.{noted, in_order, placed, rename};
ghost use Rattle.elm_type.specs.View.{kind_view, scheme_view};

use crate::class::Class;
use crate::node::{Leaf, Node};
use crate::scheme::{Kind, Scheme};
use crate::ty::Ty;
use elm_base::names::Name;
use std::alloc::{AllocError, Global};
use std::collections::HashMap;

/// Nodes with their variables by the places in an order, and that order.
#[derive(Drop)]
struct Placed {
    nodes: Vec<Node>,
    order: Vec<u32>,
}

/// The place of a number in the order. A number that is not there yet goes to the end.
fn place_of(
    places: &mut HashMap<u32, u32>,
    order: &mut Vec<u32>,
    number: u32,
) -> Result<u32, AllocError>
    requires { Numbered places.old order.old.items }
    ensures order { OnOk result (order.new.items ≡ noted order.old.items number) }
    ensures places { OnOk result (Numbered places.new order.new.items) }
    ensures place { IfOk result (λ place. place ≡ position_or_len (nat_eq number) order.new.items) }
{
    if let Some(place) = places.get(&number) {
        return Ok(*place);
    }
    let place = order.len() as u32;
    places.insert(number, place)?;
    order.push(number)?;
    Ok(place)
}

/// The node with its variable by its place in the order.
fn placed_node(
    node: &Node,
    places: &mut HashMap<u32, u32>,
    order: &mut Vec<u32>,
) -> Result<Node, AllocError>
    requires { Numbered places.old order.old.items }
    ensures order { OnOk result (order.new.items ≡ in_order order.old.items (leaves node.now)) }
    ensures places { OnOk result (Numbered places.new order.new.items) }
    ensures node { IfOk result (λ other. other ≡ renamed_node (placed order.new.items) node.now) }
{
    match node {
        Node::Open(Leaf::Free(number), count) => {
            let place = place_of(places, order, *number)?;
            Ok(Node::Open(Leaf::Free(place), *count))
        }
        other => other.copy(),
    }
}

/// The nodes with their variables by their places in order of appearance.
fn placed_nodes(alloc: Global, nodes: &[Node]) -> Result<Placed, AllocError>
    ensures order { IfOk result (λ p. p.order.items ≡ in_order [] (flat_map leaves nodes.now)) }
    ensures nodes { IfOk result (λ p. p.nodes.items ≡ map (renamed_node
        (placed (in_order [] (flat_map leaves nodes.now)))) nodes.now) }
{
    let mut others = Vec::with_capacity(alloc, nodes.len())?;
    let mut places = HashMap::new(alloc);
    let mut order = Vec::new(alloc);
    for node in nodes {
        others.push(placed_node(node, &mut places, &mut order)?)?;
    }
    Ok(Placed {
        nodes: others,
        order,
    })
}

/// The same names once more.
fn copy_names(alloc: Global, names: &[Name]) -> Result<Vec<Name>, AllocError>
    ensures { IfOk result (λ copies. copies.items ≡ names.now) }
{
    let mut copies = Vec::with_capacity(alloc, names.len())?;
    for name in names {
        copies.push(name.clone()?)?;
    }
    Ok(copies)
}

/// The kind of a variable.
fn kind_of(alloc: Global, kinds: &[Kind], number: u32) -> Result<Kind, AllocError>
    ensures { IfOk result (λ kind. kind_view kind ≡ kind_at (map kind_view kinds.now) number) }
{
    match kinds.get(number as usize) {
        Some(kind) => Ok(Kind {
            class: kind.class,
            lacks: copy_names(alloc, &kind.lacks)?,
        }),
        None => Ok(Kind {
            class: Class::Any,
            lacks: Vec::new(alloc),
        }),
    }
}

/// The kinds of variables.
fn kinds_of(alloc: Global, kinds: &[Kind], order: &[u32]) -> Result<Vec<Kind>, AllocError>
    ensures { IfOk result (λ others. map kind_view others.items ≡ map (kind_at (map kind_view kinds.now)) order.now) }
{
    let mut others = Vec::with_capacity(alloc, order.len())?;
    for number in order {
        others.push(kind_of(alloc, kinds, *number)?)?;
    }
    Ok(others)
}

/// The scheme with its variables numbered from 0 on, in order of appearance, each with its kind. The variable of a
/// record appears before the record's fields. The error means that memory ran out.
pub fn rename(alloc: Global, scheme: &Scheme) -> Result<Scheme, AllocError>
    ensures { IfOk result (λ renamed. scheme_view renamed ≡ rename (scheme_view scheme.now)) }
{
    let Placed { nodes, order } = placed_nodes(alloc, &scheme.ty.nodes)?;
    let kinds = kinds_of(alloc, &scheme.kinds, &order)?;
    Ok(Scheme {
        ty: Ty { nodes },
        kinds,
    })
}
