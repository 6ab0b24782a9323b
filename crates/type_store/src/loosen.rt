//! Constants that are let go.

ghost use Rattle.std.specs.Prelude.{◌≡◌, ◌<◌, length, IfOk, OnOk, OnErr, true};
ghost use Rattle.type_store.specs.Loosening.{IsLetGo, IsLoosened, is_constant};
ghost use Rattle.type_store.specs.Shape.{IsStore};
ghost use Rattle.type_store.specs.Store.{slot_at};
ghost use Rattle.type_store.specs.View.{slot_view, store_view};

use crate::copying::copy_names;
use crate::join::fresh;
use crate::slot::{Cell, Slot};
use std::alloc::{AllocError, Global};
use std::mem;

/// A slot in which no more is known than the class of the variable's constant and the fields that it lacks. The error
/// means that memory ran out.
fn let_go(alloc: Global, slots: &[Slot], variable: u32) -> Result<Slot, AllocError>
    requires inside { variable < length slots.now }
    requires constant { is_constant (slot_at (store_view slots.now) variable).cell ≡ true }
    ensures { IfOk result (λ slot. IsLetGo (slot_at (store_view slots.now) variable) (slot_view slot)) }
{
    let slot = &slots[variable as usize];
    match &slot.cell {
        Cell::Constant(rigid) => Ok(Slot {
            cell: Cell::Open,
            class: rigid.class(),
            lacks: copy_names(alloc, rigid.lacks())?,
            depth: slot.depth,
        }),
        Cell::Open | Cell::Bound(_) | Cell::Built(_, _) | Cell::Row(_, _) => {
            Ok(fresh(alloc, Cell::Open, slot.depth))
        }
    }
}

/// Lets the constant of a variable go. The error means that memory ran out: then all is as before.
pub(crate) fn loosen(alloc: Global, slots: &mut Vec<Slot>, variable: u32) -> Result<(), AllocError>
    requires whole { IsStore (store_view slots.old.items) }
    requires inside { variable < length slots.old.items }
    requires constant { is_constant (slot_at (store_view slots.old.items) variable).cell ≡ true }
    ensures made { OnOk result (IsLoosened (store_view slots.old.items) variable (store_view slots.new.items)) }
    ensures kept { OnErr result (store_view slots.new.items ≡ store_view slots.old.items) }
    ensures whole { IsStore (store_view slots.new.items) }
{
    let slot = let_go(alloc, slots, variable)?;
    let _constant = mem::replace(&mut slots[variable as usize], slot);
    Ok(())
}
