//! How large types are, counted on the graph of a store and without writing them out.

ghost use Rattle.std.specs.Prelude.{◌≡◌, ◌<◌, length, map, min, false, IfOk};
ghost use Rattle.std.specs.List.{All};
ghost use Rattle.elm_type.specs.Types.{size, size_all, size_fields, types_of};
ghost use Rattle.type_schemes.specs.Order.{PartsFirst};
ghost use Rattle.type_schemes.specs.Bases.{HasBase, base, most, older_of, type_in};
ghost use Rattle.type_schemes.specs.Reading.{HasSize, read_cell, read_row};
ghost use Rattle.type_store.specs.Shape.{IsStore, parts_of};
ghost use Rattle.type_store.specs.Store.{field_slots, slot_at};
ghost use Rattle.type_store.specs.Steps.{is_bound};
ghost use Rattle.type_store.specs.View as stored;

use crate::order::{Order, parts_first};
use std::alloc::{AllocError, Global};
use std::collections::HashMap;
use type_store::slot::{Cell, FieldSlot};
use type_store::store::Store;

/// Variables with their parts first, and the sizes of the types of some of them. Of a variable of which nothing is
/// known, and of a constant, it is the size of a record over it without the fields.
#[derive(Drop)]
pub struct Bases {
    pub order: Order,
    pub bases: HashMap<u32, u64>,
}

/// The size that is known of a variable.
fn part_base(store: &Store, known: &Bases, variable: u32) -> u64
    requires whole { IsStore store.now }
    requires known { HasBase store.now (older_of known.now) known.now.bases variable }
    ensures { result ≡ min (base (type_in store.now (older_of known.now) variable)) most }
{
    let at = store.root(variable);
    match known.bases.get(&at) {
        Some(size) => *size,
        None => unreachable!(),
    }
}

/// The size of the type of a variable.
fn part_size(store: &Store, known: &Bases, variable: u32) -> u64
    requires whole { IsStore store.now }
    requires first { PartsFirst 0 store.now (older_of known.now) }
    requires known { HasBase store.now (older_of known.now) known.now.bases variable }
    ensures { result ≡ min (size (type_in store.now (older_of known.now) variable)) most }
{
    let at = store.root(variable);
    match &store.slots()[at as usize].cell {
        Cell::Open => 1,
        Cell::Constant(_) => 1,
        Cell::Bound(_) => unreachable!(),
        Cell::Built(_, _) => part_base(store, known, variable),
        Cell::Row(_, _) => part_base(store, known, variable),
    }
}

/// The sum of the sizes of the types of variables.
fn parts_size(store: &Store, known: &Bases, variables: &[u32]) -> u64
    requires whole { IsStore store.now }
    requires first { PartsFirst 0 store.now (older_of known.now) }
    requires known { All (HasBase store.now (older_of known.now) known.now.bases) variables.now }
    ensures { result ≡ min (size_all (types_of (map (type_in store.now (older_of known.now)) variables.now))) most }
{
    let mut sum: u64 = 0;
    for variable in variables {
        sum = sum.saturating_add(part_size(store, known, *variable));
    }
    sum
}

/// The sum of the sizes of the types of fields.
fn fields_size(store: &Store, known: &Bases, fields: &[FieldSlot]) -> u64
    requires whole { IsStore store.now }
    requires first { PartsFirst 0 store.now (older_of known.now) }
    requires known { All (HasBase store.now (older_of known.now) known.now.bases) (field_slots
        (map stored.field_view fields.now)) }
    ensures { result ≡ min (size_fields (read_row (type_in store.now (older_of known.now))
        (map stored.field_view fields.now))) most }
{
    let mut sum: u64 = 0;
    for field in fields {
        sum = sum.saturating_add(part_size(store, known, field.slot));
    }
    sum
}

/// The size that is to be known of a variable, where those of its parts are.
fn base(store: &Store, known: &Bases, variable: u32) -> u64
    requires whole { IsStore store.now }
    requires first { PartsFirst 0 store.now (older_of known.now) }
    requires inside { variable < length store.now }
    requires free { is_bound (slot_at store.now variable).cell ≡ false }
    requires known { All (HasBase store.now (older_of known.now) known.now.bases) (parts_of (slot_at store.now
        variable).cell) }
    ensures { result ≡ min (base (read_cell (type_in store.now (older_of known.now)) variable (slot_at store.now
        variable).cell)) most }
{
    match &store.slots()[variable as usize].cell {
        Cell::Open => 2,
        Cell::Constant(_) => 2,
        Cell::Bound(_) => unreachable!(),
        Cell::Built(_, parts) => parts_size(store, known, parts).saturating_add(1),
        Cell::Row(fields, end) => {
            let sum = fields_size(store, known, fields);
            match end {
                None => sum.saturating_add(1),
                Some(last) => sum.saturating_add(part_base(store, known, *last)),
            }
        }
    }
}

/// How many nodes the type of the variable `variable` has, or `u64::MAX` where it has more. Each variable that it leads
/// to is looked at once, also where the type has many copies of its type. The error means that memory or numbers ran
/// out.
pub fn size(alloc: Global, store: &Store, variable: u32) -> Result<u64, AllocError>
    requires whole { IsStore store.now }
    requires inside { variable < length store.now }
    ensures { IfOk result (λ n. HasSize store.now variable n) }
{
    let order = parts_first(alloc, store, variable, 0)?;
    let mut known = Bases {
        order,
        bases: HashMap::new(alloc),
    };
    for place in 0..known.order.variables.len() {
        let at = known.order.variables[place];
        let size = base(store, &known, at);
        let _ = known.bases.insert(at, size)?;
    }
    Ok(part_size(store, &known, variable))
}
