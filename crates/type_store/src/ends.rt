//! What is left of two rows that become the same, beside their common fields.

ghost use Rattle.std.specs.Prelude.{◌≡◌, ◌≢◌, ◌<◌, ◌++◌, ◌∷◌, [], length, take, IfOk, IsTrue, OnOk};
ghost use Rattle.std.specs.Prelude.{Some, None, false, map};
ghost use Rattle.type_store.specs.Ends.{Ended, IsRest, NoEnds, is_open};
ghost use Rattle.type_store.specs.Shape.{IsCell, NoneIn};
ghost use Rattle.type_store.specs.Steps.{IsEnd, IsGraph, is_bound, is_row, put, undone};
ghost use Rattle.type_store.specs.Store.{field_names, slot_at};
ghost use Rattle.type_store.specs.Store as plain;
ghost use Rattle.type_store.specs.View.{field_view, store_view, trail_view, work_view};

use crate::ask::Ask;
use crate::asking::push_rest;
use crate::change::Change;
use crate::cycle::depth;
use crate::join::{ask_kind, fresh, put};
use crate::slot::{Cell, FieldSlot, Slot};
use std::alloc::{AllocError, Global};

/// Whether nothing is known of a variable.
fn is_open(slots: &[Slot], variable: u32) -> bool
    requires { variable < length slots.now }
    ensures { result ≡ is_open (slot_at (store_view slots.now) variable).cell }
{
    match &slots[variable as usize].cell {
        Cell::Open => true,
        Cell::Bound(_) | Cell::Built(_, _) | Cell::Row(_, _) | Cell::Constant(_) => false,
    }
}

/// Whether the variable is where a row ends.
fn leads_to(end: Option<u32>, variable: u32) -> bool
    ensures { IsTrue result → end ≡ Some variable }
{
    match end {
        None => false,
        Some(to) => to == variable,
    }
}

/// A variable more, of which nothing is known. The error means that memory ran out.
fn make_open(alloc: Global, slots: &mut Vec<Slot>, depth: u32) -> Result<u32, AllocError>
    ensures number { IfOk result (λ number. number ≡ length slots.old.items) }
    ensures made { OnOk result (store_view slots.new.items ≡ store_view slots.old.items ++ put plain.Open depth ∷ []) }
    ensures kept { take (length slots.old.items) (store_view slots.new.items) ≡ store_view slots.old.items }
{
    let Ok(number) = u32::try_from(slots.len()) else {
        return Err(AllocError);
    };
    slots.push(fresh(alloc, Cell::Open, depth))?;
    Ok(number)
}

/// The variable, of which nothing is known, becomes these fields and the other end. False where it is known, or is the
/// other end itself. The error means that memory ran out.
fn end_takes(
    alloc: Global,
    slots: &mut Vec<Slot>,
    trail: &mut Vec<Change>,
    work: &mut Vec<Ask>,
    variable: u32,
    fields: Vec<FieldSlot>,
    other: Option<u32>,
) -> Result<bool, AllocError>
    requires graph { IsGraph (store_view slots.old.items) }
    requires inside { variable < length slots.old.items }
    requires free { is_bound (slot_at (store_view slots.old.items) variable).cell ≡ false }
    requires no_row { is_row (slot_at (store_view slots.old.items) variable).cell ≡ false }
    requires cell { IsCell variable (plain.Row (map field_view fields.items) other) }
    requires rest { IsRest (store_view slots.old.items) (map field_view fields.items) other }
    ensures undone { undone (store_view slots.new.items) (trail_view trail.new.items) ≡ undone
        (store_view slots.old.items) (trail_view trail.old.items) }
    ensures yes { IfOk result (λ done. IsTrue done → Ended (store_view slots.old.items) (work_view work.old.items) []
        (map field_view fields.items) (Some variable) other (store_view slots.new.items) (work_view work.new.items)) }
    ensures no { IfOk result (λ done. done ≡ false → NoEnds (store_view slots.old.items) []
        (map field_view fields.items) (Some variable) other) }
{
    if leads_to(other, variable) {
        return Ok(false);
    }
    if !is_open(slots, variable) {
        return Ok(false);
    }
    ask_kind(slots, work, variable)?;
    push_rest(work, other, &fields)?;
    put(alloc, slots, trail, variable, Cell::Row(fields, other))?;
    Ok(true)
}

/// Each of the variables, of which nothing is known, becomes the fields of the other row, over a new variable. The
/// error means that memory ran out.
fn both_take(
    alloc: Global,
    slots: &mut Vec<Slot>,
    trail: &mut Vec<Change>,
    work: &mut Vec<Ask>,
    left: Vec<FieldSlot>,
    right: Vec<FieldSlot>,
    first: u32,
    second: u32,
) -> Result<(), AllocError>
    requires graph { IsGraph (store_view slots.old.items) }
    requires first { first < length slots.old.items }
    requires second { second < length slots.old.items }
    requires differ { first ≢ second }
    requires first_open { (slot_at (store_view slots.old.items) first).cell ≡ plain.Open }
    requires second_open { (slot_at (store_view slots.old.items) second).cell ≡ plain.Open }
    requires left_some { 0 < length left.items }
    requires right_some { 0 < length right.items }
    requires left { IsRest (store_view slots.old.items) (map field_view left.items) (Some first) }
    requires right { IsRest (store_view slots.old.items) (map field_view right.items) (Some second) }
    requires apart { NoneIn (field_names (map field_view left.items)) (field_names (map field_view right.items)) }
    ensures undone { take (length slots.old.items) (undone (store_view slots.new.items) (trail_view trail.new.items))
        ≡ undone (store_view slots.old.items) (trail_view trail.old.items) }
    ensures ended { OnOk result (Ended (store_view slots.old.items) (work_view work.old.items)
        (map field_view left.items) (map field_view right.items) (Some first) (Some second)
        (store_view slots.new.items) (work_view work.new.items)) }
{
    ask_kind(slots, work, first)?;
    ask_kind(slots, work, second)?;
    let lower = depth(slots, first).min(depth(slots, second));
    let number = make_open(alloc, slots, lower)?;
    push_rest(work, Some(number), &right)?;
    push_rest(work, Some(number), &left)?;
    put(alloc, slots, trail, first, Cell::Row(right, Some(number)))?;
    put(alloc, slots, trail, second, Cell::Row(left, Some(number)))
}

/// Makes what is left of two rows that end in variables the same. False where no solution does. The error means that
/// memory ran out.
#[tactic(auto, using(crate::proofs::Growing::undone_same, crate::proofs::Growing::undone_written))]
fn join_variables(
    alloc: Global,
    slots: &mut Vec<Slot>,
    trail: &mut Vec<Change>,
    work: &mut Vec<Ask>,
    left: Vec<FieldSlot>,
    right: Vec<FieldSlot>,
    first: u32,
    second: u32,
) -> Result<bool, AllocError>
    requires graph { IsGraph (store_view slots.old.items) }
    requires first { IsEnd (store_view slots.old.items) (Some first) }
    requires second { IsEnd (store_view slots.old.items) (Some second) }
    requires left { IsRest (store_view slots.old.items) (map field_view left.items) (Some first) }
    requires right { IsRest (store_view slots.old.items) (map field_view right.items) (Some second) }
    requires apart { NoneIn (field_names (map field_view left.items)) (field_names (map field_view right.items)) }
    ensures undone { take (length slots.old.items) (undone (store_view slots.new.items) (trail_view trail.new.items))
        ≡ undone (store_view slots.old.items) (trail_view trail.old.items) }
    ensures yes { IfOk result (λ done. IsTrue done → Ended (store_view slots.old.items) (work_view work.old.items)
        (map field_view left.items) (map field_view right.items) (Some first) (Some second)
        (store_view slots.new.items) (work_view work.new.items)) }
    ensures no { IfOk result (λ done. done ≡ false → NoEnds (store_view slots.old.items) (map field_view left.items)
        (map field_view right.items) (Some first) (Some second)) }
{
    if left.len() == 0 {
        if right.len() == 0 {
            work.push(Ask::Same(first, second))?;
            return Ok(true);
        }
        return end_takes(alloc, slots, trail, work, first, right, Some(second));
    }
    if right.len() == 0 {
        return end_takes(alloc, slots, trail, work, second, left, Some(first));
    }
    if first == second {
        return Ok(false);
    }
    if !is_open(slots, first) {
        return Ok(false);
    }
    if !is_open(slots, second) {
        return Ok(false);
    }
    both_take(alloc, slots, trail, work, left, right, first, second)?;
    Ok(true)
}

/// Makes what is left of two rows the same: of each its other fields, and where it ends. False where no solution does.
/// The error means that memory ran out.
#[tactic(auto, using(crate::proofs::Growing::undone_same, crate::proofs::Growing::undone_written))]
pub(crate) fn join_ends(
    alloc: Global,
    slots: &mut Vec<Slot>,
    trail: &mut Vec<Change>,
    work: &mut Vec<Ask>,
    left: Vec<FieldSlot>,
    right: Vec<FieldSlot>,
    first: Option<u32>,
    second: Option<u32>,
) -> Result<bool, AllocError>
    requires graph { IsGraph (store_view slots.old.items) }
    requires first { IsEnd (store_view slots.old.items) first }
    requires second { IsEnd (store_view slots.old.items) second }
    requires left { IsRest (store_view slots.old.items) (map field_view left.items) first }
    requires right { IsRest (store_view slots.old.items) (map field_view right.items) second }
    requires apart { NoneIn (field_names (map field_view left.items)) (field_names (map field_view right.items)) }
    ensures undone { take (length slots.old.items) (undone (store_view slots.new.items) (trail_view trail.new.items))
        ≡ undone (store_view slots.old.items) (trail_view trail.old.items) }
    ensures yes { IfOk result (λ done. IsTrue done → Ended (store_view slots.old.items) (work_view work.old.items)
        (map field_view left.items) (map field_view right.items) first second (store_view slots.new.items)
        (work_view work.new.items)) }
    ensures no { IfOk result (λ done. done ≡ false → NoEnds (store_view slots.old.items) (map field_view left.items)
        (map field_view right.items) first second) }
{
    match first {
        None => match second {
            None => {
                if left.len() != 0 {
                    return Ok(false);
                }
                if right.len() != 0 {
                    return Ok(false);
                }
                Ok(true)
            }
            Some(end) => {
                if right.len() != 0 {
                    return Ok(false);
                }
                end_takes(alloc, slots, trail, work, end, left, None)
            }
        },
        Some(end) => match second {
            None => {
                if left.len() != 0 {
                    return Ok(false);
                }
                end_takes(alloc, slots, trail, work, end, right, None)
            }
            Some(other) => join_variables(alloc, slots, trail, work, left, right, end, other),
        },
    }
}
