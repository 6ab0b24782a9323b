//! Types of a store that are frozen.

ghost use Rattle.std.specs.Prelude.{◌≡◌, ◌+◌, ◌<◌, length, map, IfOk};
ghost use Rattle.std.specs.List.{All};
ghost use Rattle.type_schemes.specs.Cells.{CanName, NamesAll, cell_in, end_in, field_in, older_in, part_in};
ghost use Rattle.type_schemes.specs.Freezing.{ConstantsAround, IsFrozen};
ghost use Rattle.type_schemes.specs.View as frozen;
ghost use Rattle.type_schemes.specs.View.{cell_view, frozen_view, part_view};
ghost use Rattle.type_schemes.specs.Order.{number_in};
ghost use Rattle.type_schemes.specs.Walk.{IsTable};
ghost use Rattle.type_store.specs.Shape.{IsStore, parts_of};
ghost use Rattle.type_store.specs.Store.{end_slots, field_slots, slot_at};
ghost use Rattle.type_store.specs.View as stored;

use crate::frozen::{FieldPart, Frozen, FrozenCell, Part};
use crate::order::{Order, parts_first};
use elm_base::names::Name;
use elm_type::scheme::Kind;
use std::alloc::{AllocError, Global};
use type_store::slot::{Cell, FieldSlot};
use type_store::store::Store;

/// The part that a variable is.
fn part(store: &Store, order: &Order, depth: u32, variable: u32) -> Part
    requires whole { IsStore store.now }
    requires table { IsTable order.now }
    requires name { CanName depth store.now (older_in order.now) variable }
    ensures { part_view result ≡ part_in depth store.now (number_in (older_in order.now)) variable }
{
    let at = store.root(variable);
    if store.slots()[at as usize].depth <= depth {
        return Part::Outer(at);
    }
    match order.numbers.get(&at) {
        Some(number) => Part::Inner(*number),
        None => unreachable!(),
    }
}

/// The parts that variables are. The error means that memory ran out.
fn parts(
    alloc: Global,
    store: &Store,
    order: &Order,
    depth: u32,
    variables: &[u32],
) -> Result<Vec<Part>, AllocError>
    requires whole { IsStore store.now }
    requires table { IsTable order.now }
    requires names { All (CanName depth store.now (older_in order.now)) variables.now }
    ensures { IfOk result (λ parts. map part_view parts.items
        ≡ map (part_in depth store.now (number_in (older_in order.now))) variables.now) }
{
    let mut parts = Vec::with_capacity(alloc, variables.len())?;
    for variable in variables {
        parts.push(part(store, order, depth, *variable))?;
    }
    Ok(parts)
}

/// The fields with the parts that their variables are. The error means that memory ran out.
fn fields(
    alloc: Global,
    store: &Store,
    order: &Order,
    depth: u32,
    slots: &[FieldSlot],
) -> Result<Vec<FieldPart>, AllocError>
    requires whole { IsStore store.now }
    requires table { IsTable order.now }
    requires names { All (CanName depth store.now (older_in order.now)) (field_slots (map stored.field_view slots.now)) }
    ensures { IfOk result (λ fields. map frozen.field_view fields.items
        ≡ map (field_in depth store.now (number_in (older_in order.now))) (map stored.field_view slots.now)) }
{
    let mut fields = Vec::with_capacity(alloc, slots.len())?;
    for slot in slots {
        fields.push(FieldPart {
            name: slot.name.clone()?,
            part: part(store, order, depth, slot.slot),
        })?;
    }
    Ok(fields)
}

/// The part that a row ends in.
fn end(store: &Store, order: &Order, depth: u32, end: Option<u32>) -> Option<Part>
    requires whole { IsStore store.now }
    requires table { IsTable order.now }
    requires names { All (CanName depth store.now (older_in order.now)) (end_slots end) }
    ensures { frozen.end_view result ≡ end_in depth store.now (number_in (older_in order.now)) end }
{
    match end {
        None => None,
        Some(variable) => Some(part(store, order, depth, variable)),
    }
}

/// The same names once more. The error means that memory ran out.
fn copy_names(alloc: Global, names: &[Name]) -> Result<Vec<Name>, AllocError>
    ensures { IfOk result (λ copies. copies.items ≡ names.now) }
{
    let mut copies = Vec::with_capacity(alloc, names.len())?;
    for name in names {
        copies.push(name.clone()?)?;
    }
    Ok(copies)
}

/// What is frozen of a variable. The error means that memory ran out.
fn cell(
    alloc: Global,
    store: &Store,
    order: &Order,
    depth: u32,
    variable: u32,
) -> Result<FrozenCell, AllocError>
    requires whole { IsStore store.now }
    requires table { IsTable order.now }
    requires inside { variable < length store.now }
    requires names { All (CanName depth store.now (older_in order.now)) (parts_of (slot_at store.now variable).cell) }
    ensures { IfOk result (λ cell. cell_view cell
        ≡ cell_in depth store.now (number_in (older_in order.now)) variable) }
{
    let slot = &store.slots()[variable as usize];
    match &slot.cell {
        Cell::Built(head, variables) => Ok(FrozenCell::Built(
            head.copy()?,
            parts(alloc, store, order, depth, variables)?,
        )),
        Cell::Row(slots, last) => Ok(FrozenCell::Row(
            fields(alloc, store, order, depth, slots)?,
            end(store, order, depth, *last),
        )),
        Cell::Open | Cell::Bound(_) | Cell::Constant(_) => Ok(FrozenCell::Open(Kind {
            class: slot.class,
            lacks: copy_names(alloc, &slot.lacks)?,
        })),
    }
}

/// What is frozen of the variables of an order. The error means that memory ran out.
fn cells(
    alloc: Global,
    store: &Store,
    order: &Order,
    depth: u32,
) -> Result<Vec<FrozenCell>, AllocError>
    requires whole { IsStore store.now }
    requires table { IsTable order.now }
    requires names { All (NamesAll depth store.now (older_in order.now)) order.now.variables.items }
    ensures { IfOk result (λ cells. map cell_view cells.items
        ≡ map (cell_in depth store.now (number_in (older_in order.now))) order.now.variables.items) }
{
    let mut cells = Vec::with_capacity(alloc, order.variables.len())?;
    for variable in &order.variables {
        cells.push(cell(alloc, store, order, depth, *variable)?)?;
    }
    Ok(cells)
}

/// The type of the variable `variable`, frozen: what was made inside more than `depth` definitions. Each such variable
/// that it leads to is looked at once. The error means that memory or numbers ran out.
pub fn freeze(alloc: Global, store: &Store, variable: u32, depth: u32) -> Result<Frozen, AllocError>
    requires whole { IsStore store.now }
    requires inside { variable < length store.now }
    requires constants { ConstantsAround depth store.now }
    ensures { IfOk result (λ frozen. IsFrozen depth store.now variable (frozen_view frozen)) }
{
    let order = parts_first(alloc, store, variable, u64::from(depth) + 1)?;
    let cells = cells(alloc, store, &order, depth)?;
    let root = part(store, &order, depth, variable);
    Ok(Frozen { cells, root })
}
