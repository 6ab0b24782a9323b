//! Records of a store, whose fields are those of a chain of rows.

ghost use Rattle.std.specs.Prelude.{◌≡◌, ◌++◌, map, true, IfOk, OnOk};
ghost use Rattle.std.specs.Cmp.Lexicographic.{slice_cmp};
ghost use Rattle.std.specs.Ordering.{nat_cmp};
ghost use Rattle.elm_type.specs.View.{end_view};
ghost use Rattle.type_schemes.specs.Order.{IsListed, PartsFirst};
ghost use Rattle.type_schemes.specs.Reading.{read_in};
ghost use Rattle.type_schemes.specs.Rows.{IsRecord, IsRow, Steps, in_order, is_row, older_in};
ghost use Rattle.type_store.specs.Shape.{IsStore};
ghost use Rattle.type_store.specs.Store.{slot_at};
ghost use Rattle.type_store.specs.View.{field_view};

use crate::order::Order;
use elm_type::node::Leaf;
use std::alloc::{AllocError, Global};
use std::cmp::Ordering;
use type_store::slot::{Cell, FieldSlot};
use type_store::store::Store;

/// What comes next on the way along a row: the row that it leads to, or the variable or constant that it ends in, if
/// there is one.
#[derive(Drop)]
pub enum Onward {
    Next(u32),
    Ends(Option<Leaf>),
}

/// The fields of a record, in the order of their names, and the variable or constant that it ends in, if there is one.
#[derive(Drop)]
pub struct Gathered {
    pub fields: Vec<FieldSlot>,
    pub end: Option<Leaf>,
}

/// How two fields stand by their names.
fn field_order(first: &FieldSlot, second: &FieldSlot) -> Ordering
    ensures { result ≡ slice_cmp nat_cmp first.now.name second.now.name }
{
    first.name.cmp(&second.name)
}

/// The fields in the order of their names.
fn sorted(fields: Vec<FieldSlot>) -> Result<Vec<FieldSlot>, AllocError>
    ensures { IfOk result (λ sorted. map field_view sorted.items ≡ in_order (map field_view fields.items)) }
{
    let mut fields = fields;
    fields.sort_by(|first, second| field_order(first, second))?;
    Ok(fields)
}

/// Adds the same fields once more.
fn push_fields(fields: &mut Vec<FieldSlot>, more: &[FieldSlot]) -> Result<(), AllocError>
    ensures { OnOk result (map field_view fields.new.items ≡ map field_view fields.old.items
        ++ map field_view more.now) }
{
    for field in more {
        fields.push(FieldSlot {
            name: field.name.clone()?,
            slot: field.slot,
        })?;
    }
    Ok(())
}

/// Adds the fields of the row `variable`, and says what comes next.
fn step(
    store: &Store,
    order: &Order,
    fields: &mut Vec<FieldSlot>,
    variable: u32,
) -> Result<Onward, AllocError>
    requires whole { IsStore store.now }
    requires first { PartsFirst 0 store.now (older_in order.now) }
    requires listed { IsListed (older_in order.now) variable }
    requires row { IsRecord (read_in store.now (older_in order.now) variable) }
    ensures { IfOk result (λ step. Steps store.now (older_in order.now) variable step
        (map field_view fields.old.items) (map field_view fields.new.items)) }
{
    match &store.slots()[variable as usize].cell {
        Cell::Open => Ok(Onward::Ends(Some(Leaf::Free(variable)))),
        Cell::Constant(rigid) => Ok(Onward::Ends(Some(Leaf::Fixed(rigid.clone()?)))),
        Cell::Row(more, end) => {
            push_fields(fields, more)?;
            match end {
                None => Ok(Onward::Ends(None)),
                Some(rest) => Ok(Onward::Next(store.root(*rest))),
            }
        }
        Cell::Bound(_) => unreachable!(),
        Cell::Built(_, _) => unreachable!(),
    }
}

/// The fields that the row `variable` leads to, and what it ends in. Each row on the way is looked at once.
pub fn gather(
    alloc: Global,
    store: &Store,
    order: &Order,
    variable: u32,
) -> Result<Gathered, AllocError>
    requires whole { IsStore store.now }
    requires first { PartsFirst 0 store.now (older_in order.now) }
    requires listed { IsListed (older_in order.now) variable }
    requires row { is_row (slot_at store.now variable).cell ≡ true }
    ensures { IfOk result (λ row. IsRow store.now (older_in order.now) variable (map field_view row.fields.items)
        (end_view row.end)) }
{
    let mut fields = Vec::new(alloc);
    let mut at = variable;
    'rows: loop {
        match step(store, order, &mut fields, at)? {
            Onward::Next(next) => at = next,
            Onward::Ends(end) => {
                let fields = sorted(fields)?;
                return Ok(Gathered { fields, end });
            }
        }
    }
}
