//! Types that wait, each with the name of its field.

ghost use Rattle.std.specs.Prelude.{◌≡◌, take, drop, map, IfOk, OnOk};
ghost use Rattle.type_store.specs.View.{field_view};
ghost use Rattle.infer_types.specs.Stacks.{waiting};

use std::alloc::AllocError;
use type_store::slot::FieldSlot;

/// Takes the last `count` of the types that wait, the last one first, or all where there are fewer. The error means
/// that memory ran out.
pub fn take_parts(stack: &mut Vec<FieldSlot>, count: usize) -> Result<Vec<FieldSlot>, AllocError>
    ensures taken { IfOk result (λ parts. map field_view parts.items ≡ take count (waiting stack.old.items)) }
    ensures left { OnOk result (waiting stack.new.items ≡ drop count (waiting stack.old.items)) }
{
    let left = stack.len().saturating_sub(count);
    let mut parts = stack.split_off(left)?;
    parts.reverse();
    Ok(parts)
}
