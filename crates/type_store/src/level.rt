//! Variables that are made less deep. A variable is no deeper than one that leads to it.

ghost use Rattle.std.specs.Prelude.{◌≡◌, ℕ, ◌+◌, ◌<◌, ◌≤◌, [], ◌++◌, ◌∷◌, length, OnOk, is_ok, nat_lt, ◌&&◌};
ghost use Rattle.std.specs.Prelude.{if◌then◌else◌};
ghost use Rattle.std.specs.List.{All};
ghost use Rattle.type_store.specs.View.{store_view};
ghost use Rattle.type_store.specs.Cycles.{parts_at};
ghost use Rattle.type_store.specs.Levels.{depth_at, with_depth, depths_undone, IsLowered, IsLevelledBut, Waiting};
ghost use Rattle.type_store.specs.Levels.{WaitingFrom, IsLevelled, total_depth};

use crate::cycle::{depth, part};
use crate::slot::Slot;
use std::alloc::AllocError;

/// A variable whose depth was changed, and what it was before.
#[derive(Clone, Copy)]
pub(crate) struct DepthChange {
    slot: u32,
    depth: u32,
}

/// Makes all variables that the ones in `todo` lead to less deep, where they are deeper than what leads to them, and no
/// less deep than that. All edges are level but those of the variables in `todo`, which is empty in the end. What is
/// changed is noted in `trail`, also if memory runs out, which is the error.
pub(crate) fn level(
    slots: &mut [Slot],
    todo: &mut Vec<u32>,
    trail: &mut Vec<DepthChange>,
) -> Result<(), AllocError>
    requires inside { (v : ℕ) → All (λ w. w < length slots.old) (parts_at (store_view slots.old) v) }
    requires todo { All (λ v. v < length slots.old) todo.old.items }
    requires levelled { IsLevelledBut (store_view slots.old) (Waiting todo.old.items) }
    requires trail { All (λ c. c.slot < length slots.old) trail.old.items }
    ensures levelled { OnOk result (IsLevelled (store_view slots.new)) }
    ensures lowered { IsLowered (store_view slots.old) (store_view slots.new) }
    ensures todo { todo.new.items ≡ [] }
    ensures trail { All (λ c. c.slot < length slots.old) trail.new.items }
    ensures undone { depths_undone (store_view slots.new) trail.new.items ≡ depths_undone (store_view slots.old)
        trail.old.items }
{
    let answer = level_all(slots, todo, trail);
    todo.clear();
    answer
}

/// Goes on until no variable waits.
fn level_all(
    slots: &mut [Slot],
    todo: &mut Vec<u32>,
    trail: &mut Vec<DepthChange>,
) -> Result<(), AllocError>
    requires inside { (v : ℕ) → All (λ w. w < length slots.old) (parts_at (store_view slots.old) v) }
    requires todo { All (λ v. v < length slots.old) todo.old.items }
    requires levelled { IsLevelledBut (store_view slots.old) (Waiting todo.old.items) }
    requires trail { All (λ c. c.slot < length slots.old) trail.old.items }
    ensures levelled { OnOk result (IsLevelled (store_view slots.new)) }
    ensures lowered { IsLowered (store_view slots.old) (store_view slots.new) }
    ensures trail { All (λ c. c.slot < length slots.old) trail.new.items }
    ensures undone { depths_undone (store_view slots.new) trail.new.items ≡ depths_undone (store_view slots.old)
        trail.old.items }
{
    while let Some(slot) = todo.pop() {
        level_parts(slots, todo, trail, slot)?;
    }
    Ok(())
}

/// Makes the parts of a variable no deeper than the variable.
fn level_parts(
    slots: &mut [Slot],
    todo: &mut Vec<u32>,
    trail: &mut Vec<DepthChange>,
    slot: u32,
) -> Result<(), AllocError>
    requires slot { slot < length slots.old }
    requires inside { (v : ℕ) → All (λ w. w < length slots.old) (parts_at (store_view slots.old) v) }
    requires todo { All (λ v. v < length slots.old) todo.old.items }
    requires levelled { IsLevelledBut (store_view slots.old) (WaitingFrom todo.old.items slot 0) }
    requires trail { All (λ c. c.slot < length slots.old) trail.old.items }
    ensures levelled { OnOk result (IsLevelledBut (store_view slots.new) (Waiting todo.new.items)) }
    ensures lowered { IsLowered (store_view slots.old) (store_view slots.new) }
    ensures todo { OnOk result (All (λ v. v < length slots.old) todo.new.items) }
    ensures trail { All (λ c. c.slot < length slots.old) trail.new.items }
    ensures undone { depths_undone (store_view slots.new) trail.new.items ≡ depths_undone (store_view slots.old)
        trail.old.items }
    ensures work { OnOk result (length todo.new.items + total_depth (store_view slots.new) ≤ length todo.old.items
        + total_depth (store_view slots.old)) }
{
    let limit = depth(slots, slot);
    let mut place = 0;
    while let Some(next) = part(slots, slot, place) {
        lower(slots, todo, trail, next, limit)?;
        place += 1;
    }
    Ok(())
}

/// Makes a variable less deep, if it is deeper than the limit. Then it waits.
fn lower(
    slots: &mut [Slot],
    todo: &mut Vec<u32>,
    trail: &mut Vec<DepthChange>,
    slot: u32,
    limit: u32,
) -> Result<(), AllocError>
    requires { slot < length slots.old }
    ensures slots { store_view slots.new ≡ (if is_ok result && nat_lt limit (depth_at (store_view slots.old) slot)
        then with_depth (store_view slots.old) slot limit else store_view slots.old) }
    ensures todo { OnOk result (todo.new.items ≡ (if nat_lt limit (depth_at (store_view slots.old) slot)
        then todo.old.items ++ slot ∷ [] else todo.old.items)) }
    ensures trail { trail.new.items ≡ (if is_ok result && nat_lt limit (depth_at (store_view slots.old) slot)
        then trail.old.items ++ record { slot = slot; depth = depth_at (store_view slots.old) slot } ∷ []
        else trail.old.items) }
{
    let before = depth(slots, slot);
    if limit < before {
        todo.push(slot)?;
        trail.push(DepthChange {
            slot,
            depth: before,
        })?;
        set_depth(slots, slot, limit);
    }
    Ok(())
}

/// Writes a depth.
fn set_depth(slots: &mut [Slot], slot: u32, depth: u32)
    requires { slot < length slots.old }
    ensures { store_view slots.new ≡ with_depth (store_view slots.old) slot depth }
{
    slots[slot as usize].depth = depth;
}

/// Undoes what was changed.
pub(crate) fn undo_depths(slots: &mut [Slot], trail: &mut Vec<DepthChange>)
    requires { All (λ c. c.slot < length slots.old) trail.old.items }
    ensures slots { store_view slots.new ≡ depths_undone (store_view slots.old) trail.old.items }
    ensures trail { trail.new.items ≡ [] }
{
    while let Some(change) = trail.pop() {
        set_depth(slots, change.slot, change.depth);
    }
}
