//! Calls on the slots of a vector.

ghost use Rattle.std.specs.Prelude.{◌≡◌, ℕ, ◌<◌, [], length, Ok, OnOk, true, false};
ghost use Rattle.std.specs.List.{All};
ghost use Rattle.type_store.specs.Shape.{IsStore};
ghost use Rattle.type_store.specs.View.{store_view, trail_view};
ghost use Rattle.type_store.specs.Steps.{undone};
ghost use Rattle.type_store.specs.Cycles.{RankedBut, NoFit, IsAtRest, parts_at};
ghost use Rattle.type_store.specs.Levels.{depths_undone, IsLowered, IsLevelled, IsLevelledBut, Waiting};
ghost use Rattle.type_store.specs.Finish.{IsSettled};

use crate::change::{Change, undo};
use crate::cycle::CycleSearch;
use crate::finish::finish;
use crate::level::{DepthChange, level, undo_depths};
use crate::slot::Slot;
use std::alloc::AllocError;

/// Undoes what was written.
pub(crate) fn undo_slots(slots: &mut Vec<Slot>, trail: &mut Vec<Change>)
    ensures slots { store_view slots.new.items ≡ undone (store_view slots.old.items) (trail_view trail.old.items) }
    ensures trail { trail.new.items ≡ [] }
{
    undo(slots, trail);
}

/// Undoes what was made less deep.
pub(crate) fn undo_slot_depths(slots: &mut Vec<Slot>, trail: &mut Vec<DepthChange>)
    requires { All (λ c. c.slot < length slots.old.items) trail.old.items }
    ensures slots { store_view slots.new.items ≡ depths_undone (store_view slots.old.items) trail.old.items }
    ensures trail { trail.new.items ≡ [] }
{
    undo_depths(slots, trail);
}

/// Makes all variables that the ones in `todo` lead to no deeper than what leads to them. The error means that memory
/// ran out. What is changed is noted.
pub(crate) fn level_slots(
    slots: &mut Vec<Slot>,
    todo: &mut Vec<u32>,
    trail: &mut Vec<DepthChange>,
) -> Result<(), AllocError>
    requires inside { (v : ℕ) → All (λ w. w < length slots.old.items) (parts_at (store_view slots.old.items) v) }
    requires todo { All (λ v. v < length slots.old.items) todo.old.items }
    requires levelled { IsLevelledBut (store_view slots.old.items) (Waiting todo.old.items) }
    requires trail { trail.old.items ≡ [] }
    ensures levelled { OnOk result (IsLevelled (store_view slots.new.items)) }
    ensures lowered { IsLowered (store_view slots.old.items) (store_view slots.new.items) }
    ensures todo { todo.new.items ≡ [] }
    ensures trail { All (λ c. c.slot < length slots.new.items) trail.new.items }
    ensures undone { depths_undone (store_view slots.new.items) trail.new.items ≡ store_view slots.old.items }
{
    level(slots, todo, trail)
}

/// Makes the slots whole again after the cells of `changed` were changed. False where there is a ring. The error means
/// that memory ran out. Changed depths are noted.
pub(crate) fn finish_slots(
    slots: &mut Vec<Slot>,
    changed: &[u32],
    todo: &mut Vec<u32>,
    trail: &mut Vec<DepthChange>,
    search: &mut CycleSearch,
) -> Result<bool, AllocError>
    requires settled { IsSettled (store_view slots.old.items) }
    requires changed { All (λ v. v < length slots.old.items) changed.now }
    requires levelled { IsLevelledBut (store_view slots.old.items) (Waiting changed.now) }
    requires ranked { RankedBut (store_view slots.old.items) changed.now }
    requires todo { todo.old.items ≡ [] }
    requires trail { trail.old.items ≡ [] }
    requires rest { IsAtRest search.old }
    ensures whole { result ≡ Ok true → IsStore (store_view slots.new.items) }
    ensures ring { result ≡ Ok false → NoFit (store_view slots.old.items) }
    ensures lowered { IsLowered (store_view slots.old.items) (store_view slots.new.items) }
    ensures todo { todo.new.items ≡ [] }
    ensures trail { All (λ c. c.slot < length slots.new.items) trail.new.items }
    ensures undone { depths_undone (store_view slots.new.items) trail.new.items ≡ store_view slots.old.items }
    ensures rest { IsAtRest search.new }
{
    finish(slots, changed, todo, trail, search)
}
