//! What is left when all asks are done.

ghost use Rattle.std.specs.Prelude.{◌≡◌, ◌<◌, [], length, Ok, true, false};
ghost use Rattle.std.specs.List.{All};
ghost use Rattle.type_store.specs.Shape.{IsStore};
ghost use Rattle.type_store.specs.View.{store_view};
ghost use Rattle.type_store.specs.Cycles.{RankedBut, NoFit, IsAtRest};
ghost use Rattle.type_store.specs.Levels.{depths_undone, IsLowered, IsLevelledBut, Waiting};
ghost use Rattle.type_store.specs.Finish.{IsSettled};

use crate::cycle::CycleSearch;
use crate::level::{DepthChange, level};
use crate::slot::Slot;
use std::alloc::AllocError;

/// Makes a store whole again after the cells of some slots, `changed`, were changed: levels all edges, and searches for
/// a ring. False where there is one: then the store has no solution. Changed depths are noted in `trail`, also if
/// memory runs out, which is the error. The memory of `todo` and `search` serves one call after another.
pub(crate) fn finish(
    slots: &mut [Slot],
    changed: &[u32],
    todo: &mut Vec<u32>,
    trail: &mut Vec<DepthChange>,
    search: &mut CycleSearch,
) -> Result<bool, AllocError>
    requires settled { IsSettled (store_view slots.old) }
    requires changed { All (λ v. v < length slots.old) changed.now }
    requires levelled { IsLevelledBut (store_view slots.old) (Waiting changed.now) }
    requires ranked { RankedBut (store_view slots.old) changed.now }
    requires todo { todo.old.items ≡ [] }
    requires trail { trail.old.items ≡ [] }
    requires rest { IsAtRest search.old }
    ensures whole { result ≡ Ok true → IsStore (store_view slots.new) }
    ensures ring { result ≡ Ok false → NoFit (store_view slots.old) }
    ensures lowered { IsLowered (store_view slots.old) (store_view slots.new) }
    ensures todo { todo.new.items ≡ [] }
    ensures trail { All (λ c. c.slot < length slots.old) trail.new.items }
    ensures undone { depths_undone (store_view slots.new) trail.new.items ≡ store_view slots.old }
    ensures rest { IsAtRest search.new }
{
    todo.extend_from_slice(changed)?;
    level(slots, todo, trail)?;
    search.is_free(slots, changed)
}
