//! Rows that become the same.

ghost use Rattle.std.specs.Prelude.{◌≡◌, ◌<◌, ◌++◌, ◌∷◌, [], length, take, IfOk, IsTrue, true, false, map};
ghost use Rattle.type_store.specs.Solutions.{Clash};
ghost use Rattle.type_store.specs.Solutions as solutions;
ghost use Rattle.type_store.specs.Steps.{BothRows, IsGraph, Stepped, is_row, undone};
ghost use Rattle.type_store.specs.Store.{slot_at};
ghost use Rattle.type_store.specs.Store as plain;
ghost use Rattle.type_store.specs.View.{field_view, store_view, trail_view, work_view};

use crate::ask::Ask;
use crate::asking::push_fields;
use crate::change::Change;
use crate::copying::copy_fields;
use crate::ends::join_ends;
use crate::gather::{Gathered, gather};
use crate::join::bind;
use crate::slot::{Cell, Slot};
use crate::split::split;
use std::alloc::{AllocError, Global};

/// The fields of a row alone, and where it leads. The error means that memory ran out.
fn own_row(alloc: Global, slots: &[Slot], variable: u32) -> Result<Gathered, AllocError>
    requires inside { variable < length slots.now }
    requires row { is_row (slot_at (store_view slots.now) variable).cell ≡ true }
    ensures { IfOk result (λ row. (slot_at (store_view slots.now) variable).cell ≡ plain.Row
        (map field_view row.fields.items) row.end) }
{
    match &slots[variable as usize].cell {
        Cell::Row(fields, end) => Ok(Gathered {
            fields: copy_fields(alloc, fields)?,
            end: *end,
        }),
        Cell::Open | Cell::Bound(_) | Cell::Built(_, _) | Cell::Constant(_) => Ok(Gathered {
            fields: Vec::new(alloc),
            end: None,
        }),
    }
}

/// Binds the second variable to the first: both are rows, whose common fields are to be the same, and what is left of
/// each. False where no solution makes them the same. The error means that memory ran out.
#[tactic(auto, using(crate::proofs::Growing::undone_same, crate::proofs::Growing::undone_written))]
pub(crate) fn join_rows(
    alloc: Global,
    slots: &mut Vec<Slot>,
    trail: &mut Vec<Change>,
    work: &mut Vec<Ask>,
    first: u32,
    second: u32,
) -> Result<bool, AllocError>
    requires graph { IsGraph (store_view slots.old.items) }
    requires below { first < second }
    requires inside { second < length slots.old.items }
    requires rows { BothRows (slot_at (store_view slots.old.items) first).cell (slot_at
        (store_view slots.old.items) second).cell }
    ensures undone { take (length slots.old.items) (undone (store_view slots.new.items) (trail_view trail.new.items))
        ≡ undone (store_view slots.old.items) (trail_view trail.old.items) }
    ensures yes { IfOk result (λ done. IsTrue done → Stepped (store_view slots.old.items) (work_view work.old.items)
        (solutions.Same first second ∷ []) (store_view slots.new.items) (work_view work.new.items)) }
    ensures no { IfOk result (λ done. done ≡ false → Clash (store_view slots.old.items)
        (solutions.Same first second ∷ [])) }
{
    let one = own_row(alloc, slots, first)?;
    let two = own_row(alloc, slots, second)?;
    bind(alloc, slots, trail, work, first, second)?;
    let above = match gather(alloc, slots, &one.fields, one.end)? {
        None => return Ok(false),
        Some(row) => row,
    };
    let below = match gather(alloc, slots, &two.fields, two.end)? {
        None => return Ok(false),
        Some(row) => row,
    };
    let parted = split(alloc, &above.fields, &below.fields)?;
    push_fields(work, &parted.first, &parted.second)?;
    join_ends(
        alloc,
        slots,
        trail,
        work,
        parted.left,
        parted.right,
        above.end,
        below.end,
    )
}
