//! How many nodes a type has.

ghost use Rattle.std.specs.Prelude.{◌≡◌, ◌++◌, ℕ, List, length};
ghost use Rattle.elm_type.specs.Spelling.{spell};
ghost use Rattle.elm_type.specs.Types.{ElmType, Leaf};
ghost use Rattle.elm_type.specs.declared.node.Node.{Node};
ghost use Rattle.elm_type.specs.Parts.{following};

use crate::node::Node;

/// How many parts follow a node.
fn following(node: &Node) -> usize
    ensures { result ≡ following node.now }
{
    match node {
        Node::Made(_, count) => *count,
        Node::Record(count) => *count,
        Node::Open(_, count) => *count,
        Node::Field(_) => 1,
    }
}

/// How many nodes the type has that the nodes `nodes` begin with.
pub fn type_length(nodes: &[Node]) -> usize
    ensures { (t : ElmType (Leaf ℕ)) (rest : List Node) → nodes.now ≡ spell t ++ rest → result ≡ length (spell t) }
{
    let count = nodes.len();
    let mut needed: usize = 1;
    for i in 0..count {
        if needed == 0 {
            return i;
        }
        needed = (needed - 1).saturating_add(following(&nodes[i]));
    }
    count
}
