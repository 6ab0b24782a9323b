//! Types of functions, by their nodes.

ghost use Rattle.std.specs.Prelude.{◌≡◌, List, ◌++◌, ℕ, length, map, IfOk};
ghost use Rattle.elm_type.specs.Types.{ElmType, Leaf};
ghost use Rattle.elm_type.specs.Spelling.{spell, type_of, AreSpelled};
ghost use Rattle.elm_type.specs.declared.node.Node.{Node};
ghost use Rattle.infer_types.specs.Functions.{following, begins_arrow, first_length, parameters_in};

use elm_type::head::Head;
use elm_type::node::Node;
use std::alloc::{AllocError, Global};

/// How many parts follow a node.
fn following(node: &Node) -> usize
    ensures { result ≡ following node.now }
{
    match node {
        Node::Made(_, count) => *count,
        Node::Record(count) => *count,
        Node::Open(_, count) => *count,
        Node::Field(_) => 1,
    }
}

/// How many nodes the type has that these begin with.
fn type_length(nodes: &[Node]) -> usize
    ensures { (t : ElmType (Leaf ℕ)) (rest : List Node) → nodes.now ≡ spell t ++ rest → result ≡ length (spell t) }
{
    let count = nodes.len();
    let mut needed: usize = 1;
    for i in 0..count {
        if needed == 0 {
            return i;
        }
        needed = (needed - 1).saturating_add(following(&nodes[i]));
    }
    count
}

/// Whether the first node is that of a type of functions.
fn begins_arrow(nodes: &[Node]) -> bool
    ensures { result ≡ begins_arrow nodes.now }
{
    match nodes.first() {
        Some(Node::Made(Head::Function, count)) => *count == 2,
        _ => false,
    }
}

/// How many nodes the type of the first parameter has. None: the type of these nodes is not one of functions.
fn first_length(nodes: &[Node]) -> Option<usize>
    ensures { (t : ElmType (Leaf ℕ)) → nodes.now ≡ spell t → result ≡ first_length t }
{
    if begins_arrow(nodes) {
        Some(type_length(&nodes[1..]))
    } else {
        None
    }
}

/// How many nodes the types of the first `arity` parameters have.
pub fn parameter_lengths(
    alloc: Global,
    nodes: &[Node],
    arity: usize,
) -> Result<Vec<usize>, AllocError>
    requires { AreSpelled nodes.now }
    ensures { IfOk result (λ ls. ls.items ≡ map (λ u. length (spell u)) (parameters_in arity (type_of nodes.now))) }
{
    let mut lengths = Vec::new(alloc);
    let mut start = 0;
    for _i in 0..arity {
        match first_length(&nodes[start..]) {
            None => return Ok(lengths),
            Some(length) => {
                lengths.push(length)?;
                start += length + 1;
            }
        }
    }
    Ok(lengths)
}
