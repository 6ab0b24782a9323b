//! Variables that are made.

ghost use Rattle.std.specs.Prelude.{◌≡◌, ◌<◌, ◌++◌, ◌∷◌, [], length, take, OnOk, OnErr};
ghost use Rattle.std.specs.List.{All};
ghost use Rattle.type_store.specs.Shape.{IsCell, IsStore, parts_of};
ghost use Rattle.type_store.specs.Steps.{put};
ghost use Rattle.type_store.specs.Levels.{depths_undone, IsLevelled, IsLowered};
ghost use Rattle.type_store.specs.View.{cell_view, store_view};

use crate::join::fresh;
use crate::level::DepthChange;
use crate::slot::{Cell, Slot};
use crate::through::{level_slots, undo_slot_depths};
use std::alloc::{AllocError, Global};

/// A variable more, with this cell. The error means that memory ran out: then all is as before.
pub(crate) fn push_cell(
    alloc: Global,
    slots: &mut Vec<Slot>,
    cell: Cell,
    depth: u32,
) -> Result<(), AllocError>
    ensures made { OnOk result (store_view slots.new.items ≡ store_view slots.old.items ++ put (cell_view cell) depth
        ∷ []) }
    ensures kept { OnErr result (slots.new.items ≡ slots.old.items) }
{
    slots.push(fresh(alloc, cell, depth))?;
    Ok(())
}

/// Makes a variable with this cell, whose parts become no deeper than it is. What is made less deep is noted. The error
/// means that memory ran out: then all is as before.
pub(crate) fn make(
    alloc: Global,
    slots: &mut Vec<Slot>,
    cell: Cell,
    depth: u32,
    number: u32,
    todo: &mut Vec<u32>,
    made: &mut Vec<DepthChange>,
) -> Result<(), AllocError>
    requires whole { IsStore (store_view slots.old.items) }
    requires inside { All (λ w. w < length slots.old.items) (parts_of (cell_view cell)) }
    requires cell { IsCell (length slots.old.items) (cell_view cell) }
    requires number { number ≡ length slots.old.items }
    requires todo { todo.old.items ≡ [] }
    requires made { made.old.items ≡ [] }
    ensures lowered { OnOk result (IsLowered (store_view slots.old.items ++ put (cell_view cell) depth ∷ [])
        (store_view slots.new.items)) }
    ensures levelled { OnOk result (IsLevelled (store_view slots.new.items)) }
    ensures undone { OnOk result (take (length slots.old.items) (depths_undone (store_view slots.new.items)
        made.new.items) ≡ store_view slots.old.items) }
    ensures within { OnOk result (All (λ c. c.slot < length slots.new.items) made.new.items) }
    ensures kept { OnErr result (store_view slots.new.items ≡ store_view slots.old.items) }
    ensures empty { OnErr result (made.new.items ≡ []) }
    ensures todo { todo.new.items ≡ [] }
{
    match push_cell(alloc, slots, cell, depth) {
        Ok(()) => {}
        Err(error) => return Err(error),
    }
    match todo.push(number) {
        Ok(()) => {}
        Err(error) => {
            slots.truncate(number as usize);
            return Err(error.into());
        }
    }
    match level_slots(slots, todo, made) {
        Ok(()) => Ok(()),
        Err(error) => {
            unmake(slots, made, number as usize);
            Err(error)
        }
    }
}

/// Undoes what was made less deep, and takes away what was made after so many slots.
pub(crate) fn unmake(slots: &mut Vec<Slot>, made: &mut Vec<DepthChange>, count: usize)
    requires { All (λ c. c.slot < length slots.old.items) made.old.items }
    ensures slots { store_view slots.new.items ≡ take count (depths_undone (store_view slots.old.items)
        made.old.items) }
    ensures made { made.new.items ≡ [] }
{
    undo_slot_depths(slots, made);
    slots.truncate(count);
}
