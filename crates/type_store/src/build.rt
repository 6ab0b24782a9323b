//! Variables of which something is known as they are made.

ghost use Rattle.std.specs.Prelude.{◌≡◌, ◌<◌, ◌++◌, ◌∷◌, [], length, map, Err, IfOk, OnOk, OnErr, false};
ghost use Rattle.std.specs.List.{All};
ghost use Rattle.type_store.specs.Adding.{IsIdle};
ghost use Rattle.type_store.specs.Building.{IsFresh};
ghost use Rattle.type_store.specs.Reaching.{GoesOnAt};
ghost use Rattle.type_store.specs.Levels.{IsLowered};
ghost use Rattle.type_store.specs.Shape.{IsCell, IsStore, parts_of};
ghost use Rattle.type_store.specs.Solutions.{Becomes, Clash};
ghost use Rattle.type_store.specs.Steps.{put, rest_asks};
ghost use Rattle.type_store.specs.Store.{field_names};
ghost use Rattle.type_store.specs.Store as plain;
ghost use Rattle.type_store.specs.View.{cell_view, field_view, store_view};

use crate::add::add;
use crate::asking::push_rest;
use crate::changed::number_of;
use crate::error::AddError;
use crate::make::{make, push_cell, unmake};
use crate::slot::{Cell, FieldSlot, Slot};
use crate::tools::Tools;
use elm_type::head::Head;
use std::alloc::{AllocError, Global};

/// Makes a variable whose cell names no other, and returns its number. The error means that memory or numbers ran out:
/// then all is as before.
pub(crate) fn push(
    alloc: Global,
    slots: &mut Vec<Slot>,
    cell: Cell,
    depth: u32,
) -> Result<u32, AllocError>
    requires whole { IsStore (store_view slots.old.items) }
    requires fresh { IsFresh (store_view slots.old.items) (cell_view cell) }
    requires alone { parts_of (cell_view cell) ≡ [] }
    requires cell { IsCell 0 (cell_view cell) }
    ensures number { IfOk result (λ v. v ≡ length slots.old.items) }
    ensures made { OnOk result (store_view slots.new.items ≡ store_view slots.old.items ++ put (cell_view cell) depth
        ∷ []) }
    ensures kept { OnErr result (store_view slots.new.items ≡ store_view slots.old.items) }
    ensures whole { IsStore (store_view slots.new.items) }
{
    let number = number_of(slots.len())?;
    push_cell(alloc, slots, cell, depth)?;
    Ok(number)
}

/// Makes a variable whose type has this head and these parts, and returns its number. The error means that memory or
/// numbers ran out: then all is as before.
pub(crate) fn push_built(
    alloc: Global,
    slots: &mut Vec<Slot>,
    tools: &mut Tools,
    head: Head,
    parts: Vec<u32>,
    depth: u32,
) -> Result<u32, AllocError>
    requires whole { IsStore (store_view slots.old.items) }
    requires inside { All (λ w. w < length slots.old.items) parts.items }
    requires idle { IsIdle tools.old }
    requires work { tools.old.work.items ≡ [] }
    requires made { tools.old.made.items ≡ [] }
    ensures number { IfOk result (λ v. v ≡ length slots.old.items) }
    ensures made { OnOk result (IsLowered (store_view slots.old.items ++ put (plain.Built head parts.items) depth ∷ [])
        (store_view slots.new.items)) }
    ensures kept { OnErr result (store_view slots.new.items ≡ store_view slots.old.items) }
    ensures whole { IsStore (store_view slots.new.items) }
    ensures idle { IsIdle tools.new }
    ensures work { tools.new.work.items ≡ [] }
    ensures none { tools.new.made.items ≡ [] }
{
    let number = number_of(slots.len())?;
    let cell = Cell::Built(head, parts);
    make(
        alloc,
        slots,
        cell,
        depth,
        number,
        &mut tools.todo,
        &mut tools.made,
    )?;
    tools.made.clear();
    Ok(number)
}

/// Makes a variable whose type is a record with these fields and those of the end, which then lacks them, and returns
/// its number. The errors: no types let the end lack the fields; memory or numbers ran out. Then all is as before.
pub(crate) fn push_row(
    alloc: Global,
    slots: &mut Vec<Slot>,
    tools: &mut Tools,
    fields: Vec<FieldSlot>,
    end: Option<u32>,
    depth: u32,
) -> Result<u32, AddError>
    requires whole { IsStore (store_view slots.old.items) }
    requires inside { All (λ w. w < length slots.old.items) (parts_of (plain.Row (map field_view fields.items) end)) }
    requires cell { IsCell 0 (plain.Row (map field_view fields.items) end) }
    requires idle { IsIdle tools.old }
    requires work { tools.old.work.items ≡ [] }
    requires made { tools.old.made.items ≡ [] }
    ensures number { IfOk result (λ v. v ≡ length slots.old.items) }
    ensures made { OnOk result (Becomes (store_view slots.old.items ++ put (plain.Row (map field_view fields.items) end)
        depth ∷ []) [] (store_view slots.new.items) []) }
    ensures clash { result ≡ Err AddError.Clash → Clash (store_view slots.old.items) (rest_asks end (field_names
        (map field_view fields.items))) }
    ensures goes { OnOk result (GoesOnAt depth (store_view slots.old.items) (store_view slots.new.items)) }
    ensures kept { OnErr result (store_view slots.new.items ≡ store_view slots.old.items) }
    ensures whole { IsStore (store_view slots.new.items) }
    ensures idle { IsIdle tools.new }
    ensures work { tools.new.work.items ≡ [] }
    ensures none { tools.new.made.items ≡ [] }
{
    let number = match number_of(slots.len()) {
        Ok(number) => number,
        Err(error) => return Err(AddError::NoMemory(error)),
    };
    match push_rest(&mut tools.work, end, &fields) {
        Ok(()) => {}
        Err(error) => {
            tools.work.clear();
            return Err(AddError::NoMemory(error));
        }
    }
    let cell = Cell::Row(fields, end);
    match make(
        alloc,
        slots,
        cell,
        depth,
        number,
        &mut tools.todo,
        &mut tools.made,
    ) {
        Ok(()) => {}
        Err(error) => {
            tools.work.clear();
            return Err(AddError::NoMemory(error));
        }
    }
    match add(alloc, slots, tools) {
        Ok(true) => {
            tools.made.clear();
            Ok(number)
        }
        Ok(false) => {
            unmake(slots, &mut tools.made, number as usize);
            Err(AddError::Clash)
        }
        Err(error) => {
            unmake(slots, &mut tools.made, number as usize);
            Err(AddError::NoMemory(error))
        }
    }
}
