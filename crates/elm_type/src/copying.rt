//! The same types once more.

ghost use Rattle.std.specs.Prelude.{◌≡◌, IfOk};
ghost use Rattle.elm_type.specs.View.{type_view};

use crate::node::Node;
use crate::ty::Ty;
use std::alloc::{AllocError, Global};

/// The same nodes once more.
fn copy_nodes(alloc: Global, nodes: &[Node]) -> Result<Vec<Node>, AllocError>
    ensures { IfOk result (λ copies. copies.items ≡ nodes.now) }
{
    let mut copies = Vec::with_capacity(alloc, nodes.len())?;
    for node in nodes {
        copies.push(node.copy()?)?;
    }
    Ok(copies)
}

/// The same type once more. Names and constants are shared. The error means that memory ran out.
pub fn copy(alloc: Global, ty: &Ty) -> Result<Ty, AllocError>
    ensures { IfOk result (λ other. type_view other ≡ type_view ty.now) }
{
    let nodes = copy_nodes(alloc, &ty.nodes)?;
    Ok(Ty { nodes })
}
