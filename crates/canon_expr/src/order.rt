//! The order of the definitions of a block: which of them are a group, and which reach themselves.

ghost use Rattle.std.specs.Prelude.{◌<◌, ◌^◌, length, IfOk};
ghost use Rattle.std.specs.List.{All};
ghost use Rattle.decl_groups.specs.Groups.{plain};
ghost use Rattle.canon_expr.specs.Kept.{IsOrderOf};

use decl_groups::ordered_groups;
use std::alloc::{AllocError, Global};

/// The groups of the definitions of a block, by their places, each after those that it uses.
#[derive(Drop)]
pub struct Order {
    pub groups: Vec<decl_groups::Group>,
}

impl Order {
    /// The order of definitions of which each uses those at the places in `uses`. It takes time in proportion to the
    /// number of definitions and uses, but for the choice of the least group. The error means that memory ran out.
    pub fn of(alloc: Global, uses: &[Vec<u32>]) -> Result<Order, AllocError>
        requires count { length uses.now < 2 ^ 32 }
        requires places { All (λ row. All (λ j. j < length uses.now) row.items) uses.now }
        ensures { IfOk result (λ order. IsOrderOf order (plain uses.now)) }
    {
        let groups = ordered_groups(alloc, uses)?;
        Ok(Order { groups })
    }
}
