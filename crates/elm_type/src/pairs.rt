//! The parts of a type of pairs.

ghost use Rattle.std.specs.Prelude.{◌≡◌, ◌∷◌, [], IfOk};
ghost use Rattle.elm_type.specs.Spelling.{AreSpelled};
ghost use Rattle.elm_type.specs.Types.{tuple};
ghost use Rattle.elm_type.specs.View.{type_view};
ghost use Rattle.elm_type.specs.Parts.{IsPair};

use crate::lengths::type_length;
use crate::node::Node;
use crate::parts_copying::copy_nodes;
use crate::ty::Ty;
use std::alloc::{AllocError, Global};

/// The two parts of a type of pairs.
#[derive(Drop)]
pub struct Pair {
    pub left: Ty,
    pub right: Ty,
}

/// The type of these nodes.
fn type_of(nodes: Vec<Node>) -> Ty
    requires { AreSpelled nodes.items }
    ensures { result.nodes ≡ nodes }
{
    Ty { nodes }
}

/// Copies of the two parts of the type of pairs `ty`. The error means that memory ran out.
pub fn parts_of_pair(alloc: Global, ty: &Ty) -> Result<Pair, AllocError>
    requires { IsPair (type_view ty.now) }
    ensures { IfOk result (λ p. type_view ty.now ≡ tuple (type_view p.left ∷ type_view p.right ∷ [])) }
{
    let Some((_, parts)) = ty.nodes.split_first() else {
        unreachable!();
    };
    let count = type_length(parts);
    let (first, second) = parts.split_at(count);
    let left = copy_nodes(alloc, first)?;
    let right = copy_nodes(alloc, second)?;
    Ok(Pair {
        left: type_of(left),
        right: type_of(right),
    })
}
