//! Types of their parts.

ghost use Rattle.std.specs.Prelude.{◌≡◌, ◌∷◌, ◌++◌, map, IfOk, OnOk};
ghost use Rattle.elm_type.specs.Types.{variable, Made, Record, types_of};
ghost use Rattle.elm_type.specs.Spelling.{leaf_of, record_node};
ghost use Rattle.elm_type.specs.View.{type_view, field_view, fields_of, end_view};

use crate::head::Head;
use crate::node::{Leaf, Node};
use crate::ty::Ty;
use elm_base::names::Name;
use std::alloc::{AllocError, Global};

/// The name of a field, and its type.
#[derive(Drop)]
pub struct Field {
    pub name: Name,
    pub ty: Ty,
}

/// Adds the same nodes once more.
fn put_nodes(nodes: &mut Vec<Node>, others: &[Node]) -> Result<(), AllocError>
    ensures { OnOk result (nodes.new.items ≡ nodes.old.items ++ others.now) }
{
    for node in others {
        nodes.push(node.copy()?)?;
    }
    Ok(())
}

/// The type that is the variable or constant `leaf`. The error means that memory ran out.
pub fn variable(alloc: Global, leaf: Leaf) -> Result<Ty, AllocError>
    ensures { IfOk result (λ ty. type_view ty ≡ variable (leaf_of leaf)) }
{
    let mut nodes = Vec::new(alloc);
    nodes.push(Node::Open(leaf, 0))?;
    Ok(Ty { nodes })
}

/// The type of the head `head` with copies of the parts `parts`. The error means that memory ran out.
pub fn made(alloc: Global, head: Head, parts: &[Ty]) -> Result<Ty, AllocError>
    ensures { IfOk result (λ ty. type_view ty ≡ Made head (types_of (map type_view parts.now))) }
{
    let mut nodes = Vec::new(alloc);
    nodes.push(Node::Made(head, parts.len()))?;
    for part in parts {
        put_nodes(&mut nodes, &part.nodes)?;
    }
    Ok(Ty { nodes })
}

/// Adds a field.
fn put_field(nodes: &mut Vec<Node>, field: &Field) -> Result<(), AllocError>
    ensures { OnOk result (nodes.new.items ≡ nodes.old.items ++ Node.Field field.now.name ∷ field.now.ty.nodes.items) }
{
    nodes.push(Node::Field(field.name.clone()?))?;
    put_nodes(nodes, &field.ty.nodes)?;
    Ok(())
}

/// The node of a record with so many fields.
fn record_node(base: Option<Leaf>, fields: usize) -> Node
    ensures { result ≡ record_node fields (end_view base) }
{
    match base {
        Some(leaf) => Node::Open(leaf, fields),
        None => Node::Record(fields),
    }
}

/// The record with copies of the fields `fields`, in this order, over the variable or constant `base`, if there is one.
/// The fields of a record should stand in ascending order of their names. The error means that memory ran out.
pub fn record(alloc: Global, base: Option<Leaf>, fields: &[Field]) -> Result<Ty, AllocError>
    ensures { IfOk result (λ ty. type_view ty ≡ Record (fields_of (map field_view fields.now)) (end_view base)) }
{
    let mut nodes = Vec::new(alloc);
    nodes.push(record_node(base, fields.len()))?;
    for field in fields {
        put_field(&mut nodes, field)?;
    }
    Ok(Ty { nodes })
}
