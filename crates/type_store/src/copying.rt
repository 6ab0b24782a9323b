//! What is known of a variable, once more.

ghost use Rattle.std.specs.Prelude.{◌≡◌, IfOk, map};
ghost use Rattle.type_store.specs.View.{cell_view, field_view};

use crate::slot::{Cell, FieldSlot};
use elm_base::names::Name;
use std::alloc::{AllocError, Global};

/// The same fields once more. The error means that memory ran out.
pub(crate) fn copy_fields(alloc: Global, fields: &[FieldSlot]) -> Result<Vec<FieldSlot>, AllocError>
    ensures { IfOk result (λ copies. map field_view copies.items ≡ map field_view fields.now) }
{
    let mut copies = Vec::new(alloc);
    for field in fields {
        copies.push(FieldSlot {
            name: field.name.clone()?,
            slot: field.slot,
        })?;
    }
    Ok(copies)
}

/// The same variables once more. The error means that memory ran out.
fn copy_slots(alloc: Global, slots: &[u32]) -> Result<Vec<u32>, AllocError>
    ensures { IfOk result (λ copies. copies.items ≡ slots.now) }
{
    let mut copies = Vec::new(alloc);
    for slot in slots {
        copies.push(*slot)?;
    }
    Ok(copies)
}

/// The same names once more: they are shared. The error means that memory ran out.
pub(crate) fn copy_names(alloc: Global, names: &[Name]) -> Result<Vec<Name>, AllocError>
    ensures { IfOk result (λ copies. copies.items ≡ names.now) }
{
    let mut copies = Vec::new(alloc);
    for name in names {
        copies.push(name.clone()?)?;
    }
    Ok(copies)
}

/// The same once more: the names are shared. The error means that memory ran out.
pub(crate) fn copy_cell(alloc: Global, cell: &Cell) -> Result<Cell, AllocError>
    ensures { IfOk result (λ copy. cell_view copy ≡ cell_view cell.now) }
{
    match cell {
        Cell::Open => Ok(Cell::Open),
        Cell::Bound(to) => Ok(Cell::Bound(*to)),
        Cell::Built(head, parts) => Ok(Cell::Built(head.copy()?, copy_slots(alloc, parts)?)),
        Cell::Row(fields, end) => Ok(Cell::Row(copy_fields(alloc, fields)?, *end)),
        Cell::Constant(rigid) => Ok(Cell::Constant(rigid.clone()?)),
    }
}
