//! The size of a type.

ghost use Rattle.std.specs.Prelude.{◌≡◌, min};
ghost use Rattle.std.specs.List.{sum_by};
ghost use Rattle.elm_type.specs.Nodes.{weight};
ghost use Rattle.elm_type.specs.Types.{size};
ghost use Rattle.elm_type.specs.View.{type_view};

use crate::node::Node;
use crate::ty::Ty;

/// How many nodes of a type the node counts for.
fn weight(node: &Node) -> u64
    ensures { result ≡ weight node.now }
{
    match node {
        Node::Made(..) | Node::Record(_) | Node::Open(_, 0) => 1,
        Node::Open(..) => 2,
        Node::Field(_) => 0,
    }
}

/// The sum over the nodes, or the greatest number where it is larger.
fn sum(nodes: &[Node]) -> u64
    ensures { result ≡ min (sum_by weight nodes.now) u64.MAX }
{
    let mut sum: u64 = 0;
    for node in nodes {
        sum = sum.saturating_add(weight(node));
    }
    sum
}

/// How many nodes the type has, or `u64::MAX` where it has more.
pub fn size(ty: &Ty) -> u64
    ensures { result ≡ min (size (type_view ty.now)) u64.MAX }
{
    sum(&ty.nodes)
}
