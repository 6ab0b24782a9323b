//! What is asked of one variable.

ghost use Rattle.std.specs.Prelude.{◌≡◌, ◌<◌, ◌++◌, ◌∷◌, [], length, IsTrue, IfOk, false};
ghost use Rattle.elm_type.specs.Classes.{is_below};
ghost use Rattle.type_store.specs.Steps.{IsGraph, Pushed, Stepped, class_asks, lack_asks, undone};
ghost use Rattle.type_store.specs.Solutions.{Clash};
ghost use Rattle.type_store.specs.Solutions as solutions;
ghost use Rattle.type_store.specs.View.{cell_view, store_view, trail_view, work_view};

use crate::ask::Ask;
use crate::asking::push_parts;
use crate::change::{Change, write_class, write_lack};
use crate::lookup::{is_field, is_in};
use crate::orders::{Found, Orders};
use crate::slot::{Cell, Slot};
use elm_base::names::Name;
use elm_type::class::Class;
use elm_type::demands::{Demand, asks, meet};
use std::alloc::AllocError;

/// Whether what meets the first class meets the second.
fn is_below(class: Class, other: Class) -> bool
    ensures { result ≡ is_below class other }
{
    match (class, other) {
        (_, Class::Any) => true,
        (Class::Number, Class::Number | Class::Comparable) => true,
        (Class::Comparable, Class::Comparable) => true,
        (Class::Appendable, Class::Appendable) => true,
        (Class::CompAppend, Class::Comparable | Class::Appendable | Class::CompAppend) => true,
        _ => false,
    }
}

/// Asks what a class asks of what a cell names. False where nothing of its form meets the class.
fn ask_class(work: &mut Vec<Ask>, cell: &Cell, class: Class) -> Result<bool, AllocError>
    ensures { IfOk result (λ done. Pushed (class_asks class (cell_view cell.now)) done (work_view work.old.items)
        (work_view work.new.items)) }
{
    match cell {
        Cell::Open => Ok(true),
        Cell::Bound(to) => {
            work.push(Ask::InClass(*to, class))?;
            Ok(true)
        }
        Cell::Built(head, parts) => match asks(class, head, parts.len()) {
            Demand::Never => Ok(false),
            Demand::Always => Ok(true),
            Demand::OfParts(part_class) => {
                push_parts(work, part_class, parts)?;
                Ok(true)
            }
        },
        Cell::Row(_fields, _end) => Ok(matches!(class, Class::Any)),
        Cell::Constant(rigid) => Ok(is_below(rigid.class(), class)),
    }
}

/// Asks what the lack of a field asks of what a cell names. False where nothing of its form lacks the field.
fn ask_lack(work: &mut Vec<Ask>, cell: &Cell, name: &Name) -> Result<bool, AllocError>
    ensures { IfOk result (λ done. Pushed (lack_asks name.now (cell_view cell.now)) done
        (work_view work.old.items) (work_view work.new.items)) }
{
    match cell {
        Cell::Open => Ok(true),
        Cell::Bound(to) => {
            work.push(Ask::Lacks(*to, name.clone()?))?;
            Ok(true)
        }
        Cell::Built(_head, _parts) => Ok(false),
        Cell::Row(fields, end) => {
            if is_field(name, fields) {
                return Ok(false);
            }
            match end {
                None => Ok(true),
                Some(to) => {
                    work.push(Ask::Lacks(*to, name.clone()?))?;
                    Ok(true)
                }
            }
        }
        Cell::Constant(rigid) => Ok(is_in(name, rigid.lacks())),
    }
}

/// Makes the type of a variable meet a class. What it asks of other variables goes to the work. False where nothing
/// that the variable may be meets the class.
pub(crate) fn step_class(
    slots: &mut [Slot],
    trail: &mut Vec<Change>,
    work: &mut Vec<Ask>,
    variable: u32,
    class: Class,
) -> Result<bool, AllocError>
    requires graph { IsGraph (store_view slots.old) }
    requires inside { variable < length slots.old }
    ensures undone { undone (store_view slots.new) (trail_view trail.new.items) ≡ undone (store_view slots.old)
        (trail_view trail.old.items) }
    ensures yes { IfOk result (λ done. IsTrue done → Stepped (store_view slots.old) (work_view work.old.items)
        (solutions.InClass variable class ∷ []) (store_view slots.new) (work_view work.new.items)) }
    ensures no { IfOk result (λ done. done ≡ false → Clash (store_view slots.old)
        (solutions.InClass variable class ∷ [])) }
{
    let slot = &slots[variable as usize];
    if is_below(slot.class, class) {
        return Ok(true);
    }
    let both = match meet(slot.class, class) {
        None => return Ok(false),
        Some(both) => both,
    };
    if !ask_class(work, &slot.cell, class)? {
        return Ok(false);
    }
    write_class(slots, trail, variable, both)?;
    Ok(true)
}

/// Makes the type of a variable lack a field. What this asks of another variable goes to the work. False where nothing
/// that the variable may be lacks the field.
pub(crate) fn step_lacks(
    slots: &mut [Slot],
    trail: &mut Vec<Change>,
    work: &mut Vec<Ask>,
    orders: &mut Orders,
    variable: u32,
    name: Name,
) -> Result<bool, AllocError>
    requires graph { IsGraph (store_view slots.old) }
    requires inside { variable < length slots.old }
    ensures undone { undone (store_view slots.new) (trail_view trail.new.items) ≡ undone (store_view slots.old)
        (trail_view trail.old.items) }
    ensures yes { IfOk result (λ done. IsTrue done → Stepped (store_view slots.old) (work_view work.old.items)
        (solutions.Lacks variable name ∷ []) (store_view slots.new) (work_view work.new.items)) }
    ensures no { IfOk result (λ done. done ≡ false → Clash (store_view slots.old)
        (solutions.Lacks variable name ∷ [])) }
{
    let slot = &slots[variable as usize];
    let found = orders.find(variable, &slot.lacks, &name)?;
    if let Found::There = found {
        return Ok(true);
    }
    if !ask_lack(work, &slot.cell, &name)? {
        return Ok(false);
    }
    orders.note(variable, found, slot.lacks.len())?;
    write_lack(slots, trail, variable, name)?;
    Ok(true)
}
