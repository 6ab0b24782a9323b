//! The nodes of the types of annotations. The calls that go down a type are as deep as the type nests in its tree.

ghost use Rattle.std.specs.Prelude.{◌≡◌, ◌++◌, ◌∷◌, [], map, IfOk, OnOk, if◌then◌else◌};
ghost use Rattle.std.specs.List.{flat_map};
ghost use Rattle.type_schemes.specs.Names.{IsTable, part_view, record_start, titled, type_nodes};
ghost use Rattle.elm_canon.specs.View.{annotation_view, field_type_view, function_type};
ghost use Rattle.elm_type.specs.declared.head.Head.TheVariants as head;
ghost use Rattle.elm_type.specs.declared.node.Node.TheVariants as node;
ghost use Rattle.type_items.specs.Annotations.{number_of};

use crate::annotation_schemes_order::Order;
use crate::fields::{Part, push_sorted};
use elm_base::names::Name;
use elm_canon::tree::{Annotation, FieldType};
use elm_type::head::Head;
use elm_type::node::{Leaf, Node};
use std::alloc::{AllocError, Global};

/// The number of a name, or how many there are where it is not there. The error means that numbers ran out.
fn number(order: &Order, name: &Name) -> Result<u32, AllocError>
    requires { IsTable order.now.numbers order.now.names.items }
    ensures { IfOk result (λ n. n ≡ number_of name.now order.now.names.items) }
{
    match order.numbers.get(name) {
        Some(number) => Ok(*number),
        None => match u32::try_from(order.names.len()) {
            Ok(count) => Ok(count),
            Err(_) => Err(AllocError),
        },
    }
}

/// The node of a record of so many fields, over the variable `base`, if there is one.
fn record_node(order: &Order, base: &Option<Name>, count: usize) -> Result<Node, AllocError>
    requires { IsTable order.now.numbers order.now.names.items }
    ensures { IfOk result (λ n. n ≡ record_start order.now.names.items base.now count) }
{
    match base {
        None => Ok(Node::Record(count)),
        Some(name) => Ok(Node::Open(Leaf::Free(number(order, name)?), count)),
    }
}

/// Adds the nodes of a type.
#[cycle(nodes)]
pub fn push_nodes(
    alloc: Global,
    nodes: &mut Vec<Node>,
    order: &Order,
    t: &Annotation,
) -> Result<(), AllocError>
    requires { IsTable order.now.numbers order.now.names.items }
    ensures { OnOk result (nodes.new.items ≡ nodes.old.items ++ type_nodes order.now.names.items
        (annotation_view t.now)) }
{
    match t {
        Annotation::Variable(name) => {
            let number = number(order, name)?;
            nodes.push(Node::Open(Leaf::Free(number), 0))?;
            Ok(())
        }
        Annotation::Named(home, name, types) => {
            nodes.push(Node::Made(Head::Named(home.clone()?, name.clone()?), types.len()))?;
            push_parts(alloc, nodes, order, types)
        }
        Annotation::Function(types) => push_function(alloc, nodes, order, types),
        Annotation::Tuple(types) => {
            nodes.push(Node::Made(Head::Tuple, types.len()))?;
            push_parts(alloc, nodes, order, types)
        }
        Annotation::Record(base, fields) => {
            nodes.push(record_node(order, base, fields.len())?)?;
            let parts = parts_of(alloc, order, fields)?;
            push_sorted(nodes, parts)
        }
        Annotation::Shared(shared) => push_nodes(alloc, nodes, order, shared),
    }
}

/// Adds the nodes of types.
#[cycle(nodes)]
fn push_parts(
    alloc: Global,
    nodes: &mut Vec<Node>,
    order: &Order,
    types: &[Annotation],
) -> Result<(), AllocError>
    requires { IsTable order.now.numbers order.now.names.items }
    ensures { OnOk result (nodes.new.items ≡ nodes.old.items ++ flat_map (type_nodes order.now.names.items)
        (map annotation_view types.now)) }
{
    for t in types {
        push_nodes(alloc, nodes, order, t)?;
    }
    Ok(())
}

/// Fields with the nodes of their types.
#[cycle(nodes)]
fn parts_of(alloc: Global, order: &Order, fields: &[FieldType]) -> Result<Vec<Part>, AllocError>
    requires { IsTable order.now.numbers order.now.names.items }
    ensures { IfOk result (λ parts. map part_view parts.items ≡ map (titled order.now.names.items)
        (map field_type_view fields.now)) }
{
    let mut parts = Vec::with_capacity(alloc, fields.len())?;
    for field in fields {
        let mut nodes = Vec::new(alloc);
        push_nodes(alloc, &mut nodes, order, &field.field_type)?;
        parts.push(Part {
            name: field.name.clone()?,
            nodes,
        })?;
    }
    Ok(parts)
}

/// Adds the node of a function, if there is one.
fn push_arrow(nodes: &mut Vec<Node>, is_there: bool) -> Result<(), AllocError>
    ensures { OnOk result (nodes.new.items ≡ nodes.old.items ++ (if is_there then node.Made head.Function 2 ∷ []
        else [])) }
{
    if is_there {
        nodes.push(Node::Made(Head::Function, 2))?;
    }
    Ok(())
}

/// Adds the nodes of a function of the types before the last to the last.
#[cycle(nodes)]
fn push_function(
    alloc: Global,
    nodes: &mut Vec<Node>,
    order: &Order,
    types: &[Annotation],
) -> Result<(), AllocError>
    requires { IsTable order.now.numbers order.now.names.items }
    ensures { OnOk result (nodes.new.items ≡ nodes.old.items ++ type_nodes order.now.names.items
        (function_type (map annotation_view types.now))) }
{
    if types.is_empty() {
        nodes.push(Node::Made(Head::Tuple, 0))?;
        return Ok(());
    }
    for (index, part) in types.iter().enumerate() {
        push_arrow(nodes, index + 1 < types.len())?;
        push_nodes(alloc, nodes, order, part)?;
    }
    Ok(())
}
