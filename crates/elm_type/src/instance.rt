//! Instances of schemes.

ghost use Rattle.std.specs.Prelude.{◌≡◌, map, IfOk};
ghost use Rattle.std.specs.List.{flat_map};
ghost use Rattle.elm_type.specs.Nodes.{leaves, renamed_node};
ghost use Rattle.elm_type.specs.Types.{variables};
ghost use Rattle.elm_type.specs.Schemes.{shifted, instantiate, AllFit};
ghost use Rattle.elm_type.specs.View.{type_view, scheme_view};

use crate::node::{Leaf, Node};
use crate::scheme::Scheme;
use crate::ty::Ty;
use std::alloc::{AllocError, Global};

/// The node with its variable raised by `first`.
fn shifted_node(node: &Node, first: u32) -> Result<Node, AllocError>
    requires { AllFit first (leaves node.now) }
    ensures { IfOk result (λ other. other ≡ renamed_node (shifted first) node.now) }
{
    match node {
        Node::Open(Leaf::Free(number), count) => {
            Ok(Node::Open(Leaf::Free(first + *number), *count))
        }
        other => other.copy(),
    }
}

/// The nodes with their variables raised by `first`.
fn shifted_nodes(alloc: Global, nodes: &[Node], first: u32) -> Result<Vec<Node>, AllocError>
    requires { AllFit first (flat_map leaves nodes.now) }
    ensures { IfOk result (λ others. others.items ≡ map (renamed_node (shifted first)) nodes.now) }
{
    let mut others = Vec::with_capacity(alloc, nodes.len())?;
    for node in nodes {
        others.push(shifted_node(node, first)?)?;
    }
    Ok(others)
}

/// The type of the scheme `scheme` with the variable `first + i` in the place of each variable `i`. Rigid constants
/// stay. It asks that each of these numbers fits 32 bits. The error means that memory ran out.
pub fn instantiate(alloc: Global, scheme: &Scheme, first: u32) -> Result<Ty, AllocError>
    requires { AllFit first (variables (type_view scheme.now.ty)) }
    ensures { IfOk result (λ ty. type_view ty ≡ instantiate (scheme_view scheme.now) first) }
{
    let nodes = shifted_nodes(alloc, &scheme.ty.nodes, first)?;
    Ok(Ty { nodes })
}
