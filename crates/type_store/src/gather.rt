//! The fields of a row, with those of the rows that it leads to.

ghost use Rattle.std.specs.Prelude.{◌≡◌, ◌<◌, IfOk, length, map};
ghost use Rattle.std.specs.List.{All};
ghost use Rattle.type_store.specs.Shape.{Ascending};
ghost use Rattle.type_store.specs.Store.{end_slots, field_names};
ghost use Rattle.type_store.specs.Steps.{IsGraph};
ghost use Rattle.type_store.specs.View.{GatheredIs, NextIs, field_view, store_view};

use crate::chain::find;
use crate::copying::copy_fields;
use crate::linked::gather_by_halves;
use crate::slot::{Cell, FieldSlot, Slot};
use crate::split::merge;
use std::alloc::{AllocError, Global};

/// The fields of a row with those of the rows that it leads to, and the variable that it ends in.
#[derive(Drop)]
pub struct Gathered {
    pub fields: Vec<FieldSlot>,
    pub end: Option<u32>,
}

/// What comes next where a row leads on.
#[derive(Drop)]
pub enum Next {
    /// A variable that is no row.
    Ends(u32),
    /// A row with a field of a name that there is.
    Twice,
    /// A row: the fields with its own, and what it leads to.
    More(Vec<FieldSlot>, Option<u32>),
}

/// Goes on from fields to the row of the variable. The error means that memory ran out.
fn next_row(
    alloc: Global,
    slots: &[Slot],
    all: &[FieldSlot],
    variable: u32,
) -> Result<Next, AllocError>
    requires graph { IsGraph (store_view slots.now) }
    requires inside { variable < length slots.now }
    requires rises { Ascending (field_names (map field_view all.now)) }
    ensures { IfOk result (λ next. NextIs (store_view slots.now) (map field_view all.now) variable next) }
{
    let at = find(slots, variable);
    match &slots[at as usize].cell {
        Cell::Row(fields, end) => match merge(alloc, all, fields)? {
            None => Ok(Next::Twice),
            Some(more) => Ok(Next::More(more, *end)),
        },
        Cell::Open | Cell::Bound(_) | Cell::Built(_, _) | Cell::Constant(_) => Ok(Next::Ends(at)),
    }
}

/// `gather`, where each row is read in turn, and its fields are put to those that there are.
fn gather_in_turn(
    alloc: Global,
    slots: &[Slot],
    fields: &[FieldSlot],
    end: Option<u32>,
) -> Result<Option<Gathered>, AllocError>
    requires graph { IsGraph (store_view slots.now) }
    requires inside { All (λ w. w < length slots.now) (end_slots end) }
    requires rises { Ascending (field_names (map field_view fields.now)) }
    ensures { IfOk result (λ gathered. GatheredIs (store_view slots.now) (map field_view fields.now) end gathered) }
{
    let mut all = copy_fields(alloc, fields)?;
    let mut at = match end {
        None => {
            return Ok(Some(Gathered {
                fields: all,
                end: None,
            }));
        }
        Some(to) => to,
    };
    let mut steps = 0;
    while steps <= slots.len() {
        match next_row(alloc, slots, &all, at)? {
            Next::Ends(last) => {
                return Ok(Some(Gathered {
                    fields: all,
                    end: Some(last),
                }));
            }
            Next::Twice => return Ok(None),
            Next::More(more, then) => match then {
                None => {
                    return Ok(Some(Gathered {
                        fields: more,
                        end: None,
                    }));
                }
                Some(to) => {
                    all = more;
                    at = to;
                }
            },
        }
        steps += 1;
    }
    Ok(None)
}

/// The fields of a row with those of the rows that it leads to. None where a name is there twice. The error means that
/// memory ran out.
pub(crate) fn gather(
    alloc: Global,
    slots: &[Slot],
    fields: &[FieldSlot],
    end: Option<u32>,
) -> Result<Option<Gathered>, AllocError>
    requires graph { IsGraph (store_view slots.now) }
    requires inside { All (λ w. w < length slots.now) (end_slots end) }
    requires rises { Ascending (field_names (map field_view fields.now)) }
    ensures { IfOk result (λ gathered. GatheredIs (store_view slots.now) (map field_view fields.now) end gathered) }
{
    match gather_by_halves(alloc, slots, fields, end)? {
        Some(gathered) => Ok(Some(gathered)),
        None => gather_in_turn(alloc, slots, fields, end),
    }
}
