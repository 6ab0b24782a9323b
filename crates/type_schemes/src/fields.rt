//! The fields of the types of records, in the order of their names.

ghost use Rattle.std.specs.Prelude.{◌≡◌, ◌++◌, map, IfOk, OnOk};
ghost use Rattle.std.specs.Cmp.Lexicographic.{slice_cmp};
ghost use Rattle.std.specs.List.{flat_map};
ghost use Rattle.std.specs.Ordering.{nat_cmp};
ghost use Rattle.type_schemes.specs.Names.{in_order, part_view, title_nodes};

use elm_base::names::Name;
use elm_type::node::Node;
use std::alloc::AllocError;
use std::cmp::Ordering;

/// A field, with the nodes of its type.
#[derive(Drop)]
pub struct Part {
    pub name: Name,
    pub nodes: Vec<Node>,
}

/// How two fields stand by their names.
fn part_order(first: &Part, second: &Part) -> Ordering
    ensures { result ≡ slice_cmp nat_cmp first.now.name second.now.name }
{
    first.name.cmp(&second.name)
}

/// The fields in the order of their names.
fn sorted(parts: Vec<Part>) -> Result<Vec<Part>, AllocError>
    ensures { IfOk result (λ sorted. map part_view sorted.items ≡ in_order (map part_view parts.items)) }
{
    let mut parts = parts;
    parts.sort_by(|first, second| part_order(first, second))?;
    Ok(parts)
}

/// Adds the nodes of a field.
fn push_part(nodes: &mut Vec<Node>, part: &Part) -> Result<(), AllocError>
    ensures { OnOk result (nodes.new.items ≡ nodes.old.items ++ title_nodes (part_view part.now)) }
{
    nodes.push(Node::Field(part.name.clone()?))?;
    for node in &part.nodes {
        nodes.push(node.copy()?)?;
    }
    Ok(())
}

/// Adds the nodes of fields, in the order of their names.
pub fn push_sorted(nodes: &mut Vec<Node>, parts: Vec<Part>) -> Result<(), AllocError>
    ensures { OnOk result (nodes.new.items ≡ nodes.old.items
        ++ flat_map title_nodes (in_order (map part_view parts.items))) }
{
    let sorted = sorted(parts)?;
    for part in &sorted {
        push_part(nodes, part)?;
    }
    Ok(())
}
