//! A part of a type as a type of its own.

ghost use Rattle.std.specs.Prelude.{◌≡◌, ℕ, ◌≤◌, ◌<◌, ◌-◌, ◌∷◌, List, Some, take, drop, map, length, IfOk};
ghost use Rattle.elm_type.specs.Types.{ElmType, Leaf};
ghost use Rattle.elm_type.specs.View.{scheme_view, type_view, kind_view};
ghost use Rattle.elm_type.specs.declared.node.Node as plain;
ghost use Rattle.port_payload.specs.Entry.{flags_in};
ghost use Rattle.port_payload.specs.Fronts.{after};

use elm_base::names::Name;
use elm_type::node::Node;
use elm_type::scheme::{Kind, Scheme};
use elm_type::ty::Ty;
use std::alloc::{AllocError, Global};

/// How many types are still to come after a node, where `left` were to come before it, and at most `most` nodes follow.
fn still_left(node: &Node, left: usize, most: usize) -> usize
    requires some { 0 < left }
    requires few { (ns : List plain.Node) × (rest : List plain.Node) × (after left (node.now ∷ ns) ≡ Some rest)
        × (length ns ≤ most) }
    ensures { (ns : List plain.Node) → after result ns ≡ after left (node.now ∷ ns) }
{
    match node {
        Node::Made(_, parts) => left - 1 + *parts,
        Node::Record(fields) => left - 1 + *fields,
        Node::Open(_, fields) => left - 1 + *fields,
        Node::Field(_) => left,
    }
}

/// The place after the type that begins at the place `start`.
fn end_of(nodes: &[Node], start: usize) -> usize
    requires { (rest : List plain.Node) × (after 1 (drop start nodes.now) ≡ Some rest) }
    ensures within { result ≤ length nodes.now }
    ensures end { after 1 (drop start nodes.now) ≡ Some (drop result nodes.now) }
    ensures start { start ≤ result }
{
    let mut left = 1;
    let mut at = start;
    'nodes: while left > 0 {
        left = still_left(&nodes[at], left, nodes.len());
        at += 1;
    }
    at
}

/// Copies of the nodes from the place `start` on, before the place `end`.
fn copy_nodes(
    alloc: Global,
    nodes: &[Node],
    start: usize,
    end: usize,
) -> Result<Vec<Node>, AllocError>
    requires { start ≤ end × end ≤ length nodes.now }
    ensures { IfOk result (λ v. v.items ≡ take (end - start) (drop start nodes.now)) }
{
    let mut copies = Vec::with_capacity(alloc, end - start)?;
    for node in &nodes[start..end] {
        copies.push(node.copy()?)?;
    }
    Ok(copies)
}

/// The same names once more.
fn copy_names(alloc: Global, names: &[Name]) -> Result<Vec<Name>, AllocError>
    ensures { IfOk result (λ v. v.items ≡ names.now) }
{
    let mut copies = Vec::with_capacity(alloc, names.len())?;
    for name in names {
        copies.push(name.clone()?)?;
    }
    Ok(copies)
}

/// The same kinds once more.
fn copy_kinds(alloc: Global, kinds: &[Kind]) -> Result<Vec<Kind>, AllocError>
    ensures { IfOk result (λ v. map kind_view v.items ≡ map kind_view kinds.now) }
{
    let mut copies = Vec::with_capacity(alloc, kinds.len())?;
    for kind in kinds {
        let lacks = copy_names(alloc, &kind.lacks)?;
        copies.push(Kind {
            class: kind.class,
            lacks,
        })?;
    }
    Ok(copies)
}

/// The flags of a program's type, with the kinds of its variables.
pub(crate) fn second_type(alloc: Global, scheme: &Scheme) -> Result<Scheme, AllocError>
    requires { (t : ElmType (Leaf ℕ)) × (flags_in (type_view scheme.now.ty) ≡ Some t) }
    ensures { IfOk result (λ s. (t : ElmType (Leaf ℕ)) → flags_in (type_view scheme.now.ty) ≡ Some t
        → scheme_view s ≡ record { type = t; kinds = map kind_view scheme.now.kinds.items }) }
{
    let end = end_of(&scheme.ty.nodes, 1);
    let nodes = copy_nodes(alloc, &scheme.ty.nodes, 1, end)?;
    let kinds = copy_kinds(alloc, &scheme.kinds)?;
    Ok(Scheme {
        ty: Ty { nodes },
        kinds,
    })
}
