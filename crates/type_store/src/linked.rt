//! The rows that a row leads to, whose fields are put together by halves.

ghost use Rattle.std.specs.Prelude.{◌≡◌, ◌<◌, IfOk, length, map};
ghost use Rattle.std.specs.List.{All};
ghost use Rattle.type_store.specs.Linked.{FieldsAt, GatheredAs, IsRowAt, JoinedIs, LinkIs, LinkedIs};
ghost use Rattle.type_store.specs.Shape.{Ascending};
ghost use Rattle.type_store.specs.Steps.{IsGraph};
ghost use Rattle.type_store.specs.Store.{end_slots, field_names};
ghost use Rattle.type_store.specs.View.{field_view, fields_in, store_view};

use crate::chain::find;
use crate::copying::copy_fields;
use crate::gather::Gathered;
use crate::slot::{Cell, FieldSlot, Slot};
use crate::split::merge;
use std::alloc::{AllocError, Global};

/// What a variable leads to.
pub enum Link {
    /// A variable that is no row.
    Ends(u32),
    /// A row, and where it ends.
    Row(u32, Option<u32>),
}

/// The rows that a row leads to, in turn, and where the last one ends.
#[derive(Drop)]
pub struct Linked {
    pub rows: Vec<u32>,
    pub end: Option<u32>,
}

/// What a variable leads to.
fn next_link(slots: &[Slot], variable: u32) -> Link
    requires graph { IsGraph (store_view slots.now) }
    requires inside { variable < length slots.now }
    ensures { LinkIs (store_view slots.now) variable result }
{
    let at = find(slots, variable);
    match &slots[at as usize].cell {
        Cell::Row(_fields, end) => Link::Row(at, *end),
        Cell::Open | Cell::Bound(_) | Cell::Built(_, _) | Cell::Constant(_) => Link::Ends(at),
    }
}

/// The rows that follow where a row ends. None where they are as many as there are variables. The error means that
/// memory ran out.
fn links(alloc: Global, slots: &[Slot], end: Option<u32>) -> Result<Option<Linked>, AllocError>
    requires graph { IsGraph (store_view slots.now) }
    requires inside { All (λ w. w < length slots.now) (end_slots end) }
    ensures { IfOk result (λ linked. LinkedIs (store_view slots.now) end linked) }
{
    let mut rows = Vec::new(alloc);
    let mut at = end;
    for _ in 0..slots.len() {
        match at {
            None => return Ok(Some(Linked { rows, end: None })),
            Some(variable) => match next_link(slots, variable) {
                Link::Ends(last) => {
                    return Ok(Some(Linked {
                        rows,
                        end: Some(last),
                    }));
                }
                Link::Row(row, then) => {
                    rows.push(row)?;
                    at = then;
                }
            },
        }
    }
    Ok(None)
}

/// The fields of a row alone. The error means that memory ran out.
fn fields_at(alloc: Global, slots: &[Slot], row: u32) -> Result<Vec<FieldSlot>, AllocError>
    requires graph { IsGraph (store_view slots.now) }
    requires row { IsRowAt (store_view slots.now) row }
    ensures { IfOk result (λ fields. FieldsAt (store_view slots.now) row (map field_view fields.items)) }
{
    match &slots[row as usize].cell {
        Cell::Row(fields, _end) => copy_fields(alloc, fields),
        Cell::Open | Cell::Bound(_) | Cell::Built(_, _) | Cell::Constant(_) => Ok(Vec::new(alloc)),
    }
}

/// The fields of rows in one: of half of them and of the others. None where a name is in two rows. The error means that
/// memory ran out.
fn joined(alloc: Global, slots: &[Slot], rows: &[u32]) -> Result<Option<Vec<FieldSlot>>, AllocError>
    requires graph { IsGraph (store_view slots.now) }
    requires each { All (IsRowAt (store_view slots.now)) rows.now }
    ensures { IfOk result (λ fields. JoinedIs (store_view slots.now) rows.now (fields_in fields)) }
{
    if rows.len() == 0 {
        return Ok(Some(Vec::new(alloc)));
    }
    if rows.len() == 1 {
        return Ok(Some(fields_at(alloc, slots, rows[0])?));
    }
    let (first, second) = rows.split_at(rows.len() / 2);
    let one = match joined(alloc, slots, first)? {
        None => return Ok(None),
        Some(one) => one,
    };
    let two = match joined(alloc, slots, second)? {
        None => return Ok(None),
        Some(two) => two,
    };
    merge(alloc, &one, &two)
}

/// The fields of a row with those of the rows that it leads to. None where a name is there twice, or where the rows are
/// as many as there are variables. The error means that memory ran out.
pub(crate) fn gather_by_halves(
    alloc: Global,
    slots: &[Slot],
    fields: &[FieldSlot],
    end: Option<u32>,
) -> Result<Option<Gathered>, AllocError>
    requires graph { IsGraph (store_view slots.now) }
    requires inside { All (λ w. w < length slots.now) (end_slots end) }
    requires rises { Ascending (field_names (map field_view fields.now)) }
    ensures { IfOk result (λ gathered. GatheredAs (store_view slots.now) (map field_view fields.now) end gathered) }
{
    let linked = match links(alloc, slots, end)? {
        None => return Ok(None),
        Some(linked) => linked,
    };
    let more = match joined(alloc, slots, &linked.rows)? {
        None => return Ok(None),
        Some(more) => more,
    };
    match merge(alloc, fields, &more)? {
        None => Ok(None),
        Some(all) => Ok(Some(Gathered {
            fields: all,
            end: linked.end,
        })),
    }
}
