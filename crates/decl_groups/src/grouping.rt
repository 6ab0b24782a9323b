//! The groups of definitions in order, each with whether its definitions use themselves.

ghost use Rattle.std.specs.Prelude.{◌≡◌, ◌^◌, ◌<◌, ℕ, [], length, map, IfOk};
ghost use Rattle.std.specs.List.{All};
ghost use Rattle.decl_groups.specs.Groups.{plain, IsOrder};
ghost use Rattle.decl_groups.specs.InOrder as computed;
ghost use Rattle.decl_groups.specs.View.{members_of, marks_of, is_marked, StandOnce, joined};

use crate::groups;
use std::alloc::{AllocError, Global};

/// Definitions that lead to each other by their uses.
#[derive(Debug, Drop)]
pub struct Group {
    /// The places of the definitions, in ascending order.
    pub members: Vec<u32>,
    /// Whether the definitions use themselves: there are two or more, or one that uses itself.
    pub is_recursive: bool,
}

/// The definitions of a module in groups, in order of use: definitions that lead to each other by their uses are one
/// group, and of the groups whose uses are all placed the one with the least first definition is next. It takes time
/// in proportion to the number of definitions and uses, but for the choice of the least group.
///
/// `uses` has the places of the definitions that each definition uses: all of them for the order of evaluation, those
/// without an annotation for the order of inference. The error means that memory ran out.
pub fn ordered_groups(alloc: Global, uses: &[Vec<u32>]) -> Result<Vec<Group>, AllocError>
    requires count { length uses.now < 2 ^ 32 }
    requires places { All (λ row. All (λ j. j < length uses.now) row.items) uses.now }
    ensures members { IfOk result (λ groups. members_of groups.items ≡ computed.ordered_groups (plain uses.now)) }
    ensures marks { IfOk result (λ groups. marks_of groups.items ≡ map (computed.is_recursive (plain uses.now)) (
        computed.ordered_groups (plain uses.now))) }
    ensures itself { IfOk result (λ groups. (i : ℕ) → i < length uses.now
        → is_marked groups.items i ≡ computed.uses_itself (plain uses.now) i) }
    ensures order { IfOk result (λ groups. IsOrder (plain uses.now) [] (members_of groups.items)) }
    ensures once { IfOk result (λ groups. StandOnce (joined (members_of groups.items))) }
{
    let order = groups(alloc, uses)?;
    let mut told = Vec::with_capacity(alloc, order.len())?;
    for members in order {
        let is_recursive = is_recursive(uses, &members);
        told.push(Group {
            members,
            is_recursive,
        })?;
    }
    Ok(told)
}

/// Whether the definitions of a group use themselves.
fn is_recursive(uses: &[Vec<u32>], group: &[u32]) -> bool
    requires { All (λ i. i < length uses.now) group.now }
    ensures { result ≡ computed.is_recursive (plain uses.now) group.now }
{
    match group {
        [] => false,
        [only] => uses[*only as usize].contains(only),
        _ => true,
    }
}
