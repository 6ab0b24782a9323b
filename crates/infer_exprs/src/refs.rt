//! Groups, each by reference.

ghost use Rattle.std.specs.Prelude.{◌≡◌, map, IfOk};

use elm_canon::tree::Group;
use std::alloc::{AllocError, Global};

/// The groups `groups`, each by reference. The error means that memory ran out.
pub fn group_refs<'a>(alloc: Global, groups: &'a [Group]) -> Result<Vec<&'a Group>, AllocError>
    ensures { IfOk result (λ found. map (λ g. g.now) found.items ≡ groups.now) }
{
    let mut found = Vec::with_capacity(alloc, groups.len())?;
    for group in groups {
        found.push(group)?;
    }
    Ok(found)
}
