//! Slots that are written, so that this can be undone.

ghost use Rattle.std.specs.Prelude.{◌≡◌, ◌<◌, ◌-◌, ◌++◌, ◌∷◌, [], length, set, take, OnOk};
ghost use Rattle.type_store.specs.Store.{slot_at};
ghost use Rattle.type_store.specs.Steps.{undone, undo_one, with_kind};
ghost use Rattle.type_store.specs.View.{change_view, slot_view, store_view, trail_view};

use crate::slot::Slot;
use elm_base::names::Name;
use elm_type::class::Class;
use std::alloc::AllocError;
use std::mem;

/// A change of a variable's slot.
#[derive(Drop)]
pub enum Change {
    /// What the slot was.
    Was(u32, Slot),
    /// What its class was.
    OfClass(u32, Class),
    /// The last field that it lacks is new.
    OneMore(u32),
}

/// Writes a slot, so that this can be undone.
pub(crate) fn write(
    slots: &mut [Slot],
    trail: &mut Vec<Change>,
    at: u32,
    slot: Slot,
) -> Result<(), AllocError>
    requires { at < length slots.old }
    ensures written { OnOk result (store_view slots.new ≡ set (store_view slots.old) at (slot_view slot)) }
    ensures undone { undone (store_view slots.new) (trail_view trail.new.items) ≡ undone (store_view slots.old)
        (trail_view trail.old.items) }
{
    trail.reserve(1)?;
    let before = mem::replace(&mut slots[at as usize], slot);
    trail.push_reserved(Change::Was(at, before));
    Ok(())
}

/// Writes the class of a slot, so that this can be undone.
pub(crate) fn write_class(
    slots: &mut [Slot],
    trail: &mut Vec<Change>,
    at: u32,
    class: Class,
) -> Result<(), AllocError>
    requires { at < length slots.old }
    ensures written { OnOk result (store_view slots.new ≡ set (store_view slots.old) at (with_kind (slot_at
        (store_view slots.old) at) (record {
          class = class;
          lacks = (slot_at (store_view slots.old) at).kind.lacks;
        }))) }
    ensures undone { undone (store_view slots.new) (trail_view trail.new.items) ≡ undone (store_view slots.old)
        (trail_view trail.old.items) }
{
    trail.push(Change::OfClass(at, slots[at as usize].class))?;
    slots[at as usize].class = class;
    Ok(())
}

/// Writes that a slot lacks one field more, so that this can be undone.
pub(crate) fn write_lack(
    slots: &mut [Slot],
    trail: &mut Vec<Change>,
    at: u32,
    name: Name,
) -> Result<(), AllocError>
    requires { at < length slots.old }
    ensures written { OnOk result (store_view slots.new ≡ set (store_view slots.old) at (with_kind (slot_at
        (store_view slots.old) at) (record {
          class = (slot_at (store_view slots.old) at).kind.class;
          lacks = (slot_at (store_view slots.old) at).kind.lacks ++ name ∷ [];
        }))) }
    ensures undone { undone (store_view slots.new) (trail_view trail.new.items) ≡ undone (store_view slots.old)
        (trail_view trail.old.items) }
{
    trail.reserve(1)?;
    slots[at as usize].lacks.push(name)?;
    trail.push_reserved(Change::OneMore(at));
    Ok(())
}

/// Undoes what was written.
pub(crate) fn undo(slots: &mut [Slot], trail: &mut Vec<Change>)
    ensures slots { store_view slots.new ≡ undone (store_view slots.old) (trail_view trail.old.items) }
    ensures trail { trail.new.items ≡ [] }
{
    while let Some(change) = trail.pop() {
        undo_one(slots, change);
    }
}

/// Undoes a change.
fn undo_one(slots: &mut [Slot], change: Change)
    ensures { store_view slots.new ≡ undo_one (change_view change) (store_view slots.old) }
{
    match change {
        Change::Was(at, before) => {
            let at = at as usize;
            if at < slots.len() {
                slots[at] = before;
            }
        }
        Change::OfClass(at, class) => {
            let at = at as usize;
            if at < slots.len() {
                slots[at].class = class;
            }
        }
        Change::OneMore(at) => {
            let at = at as usize;
            if at < slots.len() {
                forget_last(&mut slots[at].lacks);
            }
        }
    }
}

/// Takes the last name away, if there is one.
fn forget_last(names: &mut Vec<Name>)
    ensures { names.new.items ≡ take (length names.old.items - 1) names.old.items }
{
    names.pop();
}
