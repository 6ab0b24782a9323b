//! Variables that are bound to others.

ghost use Rattle.std.specs.Prelude.{◌≡◌, ◌<◌, ◌≤◌, length, false};
ghost use Rattle.type_store.specs.Store.{slot_at};
ghost use Rattle.type_store.specs.Steps.{IsGraph, Leads, is_bound};
ghost use Rattle.type_store.specs.View.{store_view};

use crate::slot::{Cell, Slot};

/// The variable that a variable is bound to in the end: itself, if it is not bound.
pub(crate) fn find(slots: &[Slot], variable: u32) -> u32
    requires graph { IsGraph (store_view slots.now) }
    requires inside { variable < length slots.now }
    ensures leads { Leads (store_view slots.now) variable result }
    ensures ends { is_bound (slot_at (store_view slots.now) result).cell ≡ false }
    ensures inside { result < length slots.now }
{
    let mut at = variable;
    while let Cell::Bound(next) = slots[at as usize].cell {
        at = next;
    }
    at
}
