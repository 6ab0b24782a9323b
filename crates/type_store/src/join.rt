//! Variables that become the same.

ghost use Rattle.std.specs.Prelude.{◌≡◌, ◌<◌, ◌++◌, ◌∷◌, [], length, set, OnOk, false};
ghost use Rattle.type_store.specs.Store.{slot_at};
ghost use Rattle.type_store.specs.Store as plain;
ghost use Rattle.type_store.specs.Shape.{parts_of};
ghost use Rattle.type_store.specs.Solutions as solutions;
ghost use Rattle.type_store.specs.Steps.{BothBuilt, IsGraph, Paired, Stepped, is_bound, kind_asks, put, sames, undone};
ghost use Rattle.type_store.specs.View.{cell_view, store_view, trail_view, work_view};

use crate::ask::Ask;
use crate::asking::{push_kind, push_sames};
use crate::change::{Change, write};
use crate::copying::copy_cell;
use crate::pair::Pair;
use crate::slot::{Cell, Slot};
use elm_type::class::Class;
use std::alloc::{AllocError, Global};

/// Asks again of a variable what is said of it.
pub(crate) fn ask_kind(slots: &[Slot], work: &mut Vec<Ask>, variable: u32) -> Result<(), AllocError>
    requires { variable < length slots.now }
    ensures { OnOk result (work_view work.new.items ≡ work_view work.old.items ++ kind_asks variable (slot_at
        (store_view slots.now) variable).kind) }
{
    let slot = &slots[variable as usize];
    push_kind(work, variable, slot.class, &slot.lacks)
}

/// A slot with this cell, of which nothing else is said.
pub(crate) fn fresh(alloc: Global, cell: Cell, depth: u32) -> Slot
    ensures cell { result.cell ≡ cell }
    ensures class { result.class ≡ Class.Any }
    ensures lacks { result.lacks.items ≡ [] }
    ensures depth { result.depth ≡ depth }
{
    Slot {
        cell,
        class: Class::Any,
        lacks: Vec::new(alloc),
        depth,
    }
}

/// Writes a cell in a slot, and that nothing else is said of it.
fn write_cell(
    alloc: Global,
    slots: &mut [Slot],
    trail: &mut Vec<Change>,
    variable: u32,
    cell: Cell,
) -> Result<(), AllocError>
    requires { variable < length slots.old }
    ensures put { OnOk result (store_view slots.new ≡ set (store_view slots.old) variable (put (cell_view cell)
        (slot_at (store_view slots.old) variable).depth)) }
    ensures undone { undone (store_view slots.new) (trail_view trail.new.items) ≡ undone (store_view slots.old)
        (trail_view trail.old.items) }
{
    let depth = slots[variable as usize].depth;
    write(slots, trail, variable, fresh(alloc, cell, depth))
}

/// Puts a cell in a slot. What was said of the variable is to be asked again.
pub(crate) fn put(
    alloc: Global,
    slots: &mut Vec<Slot>,
    trail: &mut Vec<Change>,
    variable: u32,
    cell: Cell,
) -> Result<(), AllocError>
    requires { variable < length slots.old.items }
    ensures put { OnOk result (store_view slots.new.items ≡ set (store_view slots.old.items) variable (put
        (cell_view cell) (slot_at (store_view slots.old.items) variable).depth)) }
    ensures undone { undone (store_view slots.new.items) (trail_view trail.new.items) ≡ undone
        (store_view slots.old.items) (trail_view trail.old.items) }
{
    write_cell(alloc, slots, trail, variable, cell)
}

/// Binds a variable to another, and asks of it again what is said of it.
pub(crate) fn bind(
    alloc: Global,
    slots: &mut Vec<Slot>,
    trail: &mut Vec<Change>,
    work: &mut Vec<Ask>,
    to: u32,
    variable: u32,
) -> Result<(), AllocError>
    requires { variable < length slots.old.items }
    ensures bound { OnOk result (store_view slots.new.items ≡ set (store_view slots.old.items) variable (put
        (plain.Bound to) (slot_at (store_view slots.old.items) variable).depth)) }
    ensures asked { OnOk result (work_view work.new.items ≡ work_view work.old.items ++ kind_asks variable
        (slot_at (store_view slots.old.items) variable).kind) }
    ensures undone { undone (store_view slots.new.items) (trail_view trail.new.items) ≡ undone
        (store_view slots.old.items) (trail_view trail.old.items) }
{
    ask_kind(slots, work, variable)?;
    put(alloc, slots, trail, variable, Cell::Bound(to))
}

/// Puts in the slot of the first what is known of the second, and asks of the first again what is said of it.
fn take_cell(
    alloc: Global,
    slots: &mut Vec<Slot>,
    trail: &mut Vec<Change>,
    work: &mut Vec<Ask>,
    first: u32,
    second: u32,
) -> Result<(), AllocError>
    requires first { first < length slots.old.items }
    requires second { second < length slots.old.items }
    ensures taken { OnOk result (store_view slots.new.items ≡ set (store_view slots.old.items) first (put (slot_at
        (store_view slots.old.items) second).cell (slot_at (store_view slots.old.items) first).depth)) }
    ensures asked { OnOk result (work_view work.new.items ≡ work_view work.old.items ++ kind_asks first (slot_at
        (store_view slots.old.items) first).kind) }
    ensures undone { undone (store_view slots.new.items) (trail_view trail.new.items) ≡ undone
        (store_view slots.old.items) (trail_view trail.old.items) }
{
    ask_kind(slots, work, first)?;
    let cell = copy_cell(alloc, &slots[second as usize].cell)?;
    put(alloc, slots, trail, first, cell)
}

/// Binds the second variable to the first: nothing is known of it, or both are the same constant.
pub(crate) fn join_bind(
    alloc: Global,
    slots: &mut Vec<Slot>,
    trail: &mut Vec<Change>,
    work: &mut Vec<Ask>,
    first: u32,
    second: u32,
) -> Result<(), AllocError>
    requires graph { IsGraph (store_view slots.old.items) }
    requires below { first < second }
    requires inside { second < length slots.old.items }
    requires alike { Paired Pair.Bind (slot_at (store_view slots.old.items) first).cell (slot_at
        (store_view slots.old.items) second).cell }
    ensures undone { undone (store_view slots.new.items) (trail_view trail.new.items) ≡ undone
        (store_view slots.old.items) (trail_view trail.old.items) }
    ensures joined { OnOk result (Stepped (store_view slots.old.items) (work_view work.old.items)
        (solutions.Same first second ∷ []) (store_view slots.new.items) (work_view work.new.items)) }
{
    bind(alloc, slots, trail, work, first, second)
}

/// Binds the second variable to the first, of which nothing is known, and which takes what is known of the second.
pub(crate) fn join_take(
    alloc: Global,
    slots: &mut Vec<Slot>,
    trail: &mut Vec<Change>,
    work: &mut Vec<Ask>,
    first: u32,
    second: u32,
) -> Result<(), AllocError>
    requires graph { IsGraph (store_view slots.old.items) }
    requires below { first < second }
    requires inside { second < length slots.old.items }
    requires open { (slot_at (store_view slots.old.items) first).cell ≡ plain.Open }
    requires ends { is_bound (slot_at (store_view slots.old.items) second).cell ≡ false }
    ensures undone { undone (store_view slots.new.items) (trail_view trail.new.items) ≡ undone
        (store_view slots.old.items) (trail_view trail.old.items) }
    ensures joined { OnOk result (Stepped (store_view slots.old.items) (work_view work.old.items)
        (solutions.Same first second ∷ []) (store_view slots.new.items) (work_view work.new.items)) }
{
    take_cell(alloc, slots, trail, work, first, second)?;
    bind(alloc, slots, trail, work, first, second)
}

/// Asks that the parts of two variables are the same.
fn ask_parts(slots: &[Slot], work: &mut Vec<Ask>, first: u32, second: u32) -> Result<(), AllocError>
    requires first { first < length slots.now }
    requires second { second < length slots.now }
    requires built { BothBuilt (slot_at (store_view slots.now) first).cell (slot_at
        (store_view slots.now) second).cell }
    ensures { OnOk result (work_view work.new.items ≡ work_view work.old.items
        ++ sames (parts_of (slot_at (store_view slots.now) first).cell)
        (parts_of (slot_at (store_view slots.now) second).cell)) }
{
    match &slots[first as usize].cell {
        Cell::Built(_, parts) => match &slots[second as usize].cell {
            Cell::Built(_, others) => push_sames(work, parts, others),
            Cell::Open | Cell::Bound(_) | Cell::Row(_, _) | Cell::Constant(_) => Ok(()),
        },
        Cell::Open | Cell::Bound(_) | Cell::Row(_, _) | Cell::Constant(_) => Ok(()),
    }
}

/// Binds the second variable to the first: both are built with the same head, and the parts are to be the same.
pub(crate) fn join_parts(
    alloc: Global,
    slots: &mut Vec<Slot>,
    trail: &mut Vec<Change>,
    work: &mut Vec<Ask>,
    first: u32,
    second: u32,
) -> Result<(), AllocError>
    requires graph { IsGraph (store_view slots.old.items) }
    requires below { first < second }
    requires inside { second < length slots.old.items }
    requires built { BothBuilt (slot_at (store_view slots.old.items) first).cell (slot_at
        (store_view slots.old.items) second).cell }
    ensures undone { undone (store_view slots.new.items) (trail_view trail.new.items) ≡ undone
        (store_view slots.old.items) (trail_view trail.old.items) }
    ensures joined { OnOk result (Stepped (store_view slots.old.items) (work_view work.old.items)
        (solutions.Same first second ∷ []) (store_view slots.new.items) (work_view work.new.items)) }
{
    ask_parts(slots, work, first, second)?;
    bind(alloc, slots, trail, work, first, second)
}
