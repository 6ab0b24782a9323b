//! When two types are the same.

ghost use Rattle.std.specs.Prelude.{◌≡◌, ◌↔◌, IsTrue};
ghost use Rattle.elm_type.specs.View.{type_view};

use crate::head::Head;
use crate::node::{Leaf, Node};
use crate::rigid::Rigid;
use crate::ty::Ty;
use elm_base::names::Name;

/// Whether two names are the same.
fn same_name(first: &Name, second: &Name) -> bool
    ensures { IsTrue result ↔ first.now ≡ second.now }
{
    first == second
}

/// Whether two lists have the same names.
fn same_names(first: &[Name], second: &[Name]) -> bool
    ensures { IsTrue result ↔ first.now ≡ second.now }
{
    if first.len() != second.len() {
        return false;
    }
    for (index, name) in first.iter().enumerate() {
        if !same_name(name, &second[index]) {
            return false;
        }
    }
    true
}

/// Whether two heads are the same.
fn same_head(first: &Head, second: &Head) -> bool
    ensures { IsTrue result ↔ first.now ≡ second.now }
{
    match first {
        Head::Named(module, name) => match second {
            Head::Named(other_module, other) => {
                same_name(module, other_module) && same_name(name, other)
            }
            Head::Function | Head::Tuple => false,
        },
        Head::Function => matches!(second, Head::Function),
        Head::Tuple => matches!(second, Head::Tuple),
    }
}

/// Whether two constants are the same.
fn same_rigid(first: &Rigid, second: &Rigid) -> bool
    ensures { IsTrue result ↔ first.now ≡ second.now }
{
    first.place() == second.place()
        && same_name(first.name(), second.name())
        && first.class() == second.class()
        && same_names(first.lacks(), second.lacks())
}

/// Whether two variables or constants are the same.
fn same_leaf(first: &Leaf, second: &Leaf) -> bool
    ensures { IsTrue result ↔ first.now ≡ second.now }
{
    match first {
        Leaf::Free(number) => match second {
            Leaf::Free(other) => *number == *other,
            Leaf::Fixed(_) => false,
        },
        Leaf::Fixed(constant) => match second {
            Leaf::Free(_) => false,
            Leaf::Fixed(other) => same_rigid(constant, other),
        },
    }
}

/// Whether two nodes are the same.
fn same_node(first: &Node, second: &Node) -> bool
    ensures { IsTrue result ↔ first.now ≡ second.now }
{
    match first {
        Node::Made(head, count) => match second {
            Node::Made(other, others) => *count == *others && same_head(head, other),
            Node::Record(_) | Node::Open(..) | Node::Field(_) => false,
        },
        Node::Record(count) => match second {
            Node::Record(others) => *count == *others,
            Node::Made(..) | Node::Open(..) | Node::Field(_) => false,
        },
        Node::Open(leaf, count) => match second {
            Node::Open(other, others) => *count == *others && same_leaf(leaf, other),
            Node::Made(..) | Node::Record(_) | Node::Field(_) => false,
        },
        Node::Field(name) => match second {
            Node::Field(other) => same_name(name, other),
            Node::Made(..) | Node::Record(_) | Node::Open(..) => false,
        },
    }
}

/// Whether two lists have the same nodes.
fn same_nodes(first: &[Node], second: &[Node]) -> bool
    ensures { IsTrue result ↔ first.now ≡ second.now }
{
    if first.len() != second.len() {
        return false;
    }
    for (index, node) in first.iter().enumerate() {
        if !same_node(node, &second[index]) {
            return false;
        }
    }
    true
}

/// Whether two types are the same, variables and constants included.
pub fn same(first: &Ty, second: &Ty) -> bool
    ensures { IsTrue result ↔ type_view first.now ≡ type_view second.now }
{
    same_nodes(&first.nodes, &second.nodes)
}
