//! Types.

ghost use Rattle.elm_type.specs.Spelling.{AreSpelled};

use crate::node::Node;

/// A type: the list of its nodes, each before its parts. So it has no pointers inside, and no walk over it is deeper
/// than a loop, however deep the type nests.
#[derive(Drop)]
pub struct Ty {
    pub nodes: Vec<Node>,
    ghost spelled: { AreSpelled nodes.items },
}
