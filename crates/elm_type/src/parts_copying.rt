//! The same nodes once more.

ghost use Rattle.std.specs.Prelude.{◌≡◌, IfOk};

use crate::node::Node;
use std::alloc::{AllocError, Global};

/// The same nodes once more.
pub fn copy_nodes(alloc: Global, nodes: &[Node]) -> Result<Vec<Node>, AllocError>
    ensures { IfOk result (λ copies. copies.items ≡ nodes.now) }
{
    let mut copies = Vec::with_capacity(alloc, nodes.len())?;
    for node in nodes {
        copies.push(node.copy()?)?;
    }
    Ok(copies)
}
