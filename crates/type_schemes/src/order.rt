//! The variables that a variable leads to, parts first.

ghost use Rattle.std.specs.Prelude.{◌≡◌, ◌<◌, ◌≤◌, ◌+◌, ◌∷◌, [], length, map, reverse, IfOk, OnOk, ℕ};
ghost use Rattle.type_schemes.specs.Order.{Ordered};
ghost use Rattle.type_schemes.specs.Walk.{IsTable, IsWalk, entered, seen_of, stack_of, work_left};
ghost use Rattle.type_store.specs.Shape.{IsStore, parts_of};
ghost use Rattle.type_store.specs.Store.{end_slots, field_slots};
ghost use Rattle.type_store.specs.View.{cell_view, field_view};

use std::alloc::{AllocError, Global};
use std::collections::{HashMap, HashSet};
use type_store::slot::{Cell, FieldSlot};
use type_store::store::Store;

/// Variables of a store, each once, and the number of each: how many stand before it.
#[derive(Drop)]
pub struct Order {
    pub variables: Vec<u32>,
    pub numbers: HashMap<u32, u32>,
}

/// What is to be done with a variable.
#[derive(Clone, Copy)]
pub enum Task {
    /// To go to the variable that it is bound to in the end, and to what that leads to.
    Enter(u32),
    /// To list it: what it leads to is listed.
    Leave(u32),
}

/// What is to be done, the next one last, the variables that were entered, and those that are listed.
#[derive(Drop)]
pub struct Walk {
    pub todo: Vec<Task>,
    pub seen: HashSet<u32>,
    pub order: Order,
}

/// Adds the tasks to enter these variables.
fn push_all(todo: &mut Vec<Task>, variables: &[u32]) -> Result<(), AllocError>
    ensures { OnOk result (reverse todo.new.items ≡ entered variables.now (reverse todo.old.items)) }
{
    for variable in variables {
        todo.push(Task::Enter(*variable))?;
    }
    Ok(())
}

/// Adds the tasks to enter the types of these fields.
fn push_fields(todo: &mut Vec<Task>, fields: &[FieldSlot]) -> Result<(), AllocError>
    ensures { OnOk result (reverse todo.new.items ≡ entered (field_slots (map field_view fields.now))
        (reverse todo.old.items)) }
{
    for field in fields {
        todo.push(Task::Enter(field.slot))?;
    }
    Ok(())
}

/// Adds the task to enter where a row ends.
fn push_end(todo: &mut Vec<Task>, end: Option<u32>) -> Result<(), AllocError>
    ensures { OnOk result (reverse todo.new.items ≡ entered (end_slots end) (reverse todo.old.items)) }
{
    match end {
        None => Ok(()),
        Some(variable) => {
            todo.push(Task::Enter(variable))?;
            Ok(())
        }
    }
}

/// Adds the tasks to enter what a cell names.
#[tactic(auto, using(crate::proofs::Working::entered_append))]
fn push_parts(todo: &mut Vec<Task>, cell: &Cell) -> Result<(), AllocError>
    ensures { OnOk result (reverse todo.new.items ≡ entered (parts_of (cell_view cell.now)) (reverse todo.old.items)) }
{
    match cell {
        Cell::Open | Cell::Constant(_) => Ok(()),
        Cell::Bound(to) => push_end(todo, Some(*to)),
        Cell::Built(_, parts) => push_all(todo, parts),
        Cell::Row(fields, end) => {
            push_fields(todo, fields)?;
            push_end(todo, *end)?;
            Ok(())
        }
    }
}

/// Enters a variable. The error means that memory ran out.
fn enter(store: &Store, floor: u64, walk: &mut Walk, variable: u32) -> Result<(), AllocError>
    requires whole { IsStore store.now }
    requires inside { variable < length store.now }
    ensures walk { OnOk result ((start : ℕ) → IsWalk floor store.now start (Task.Enter variable ∷ stack_of walk.old)
        walk.old → IsWalk floor store.now start (stack_of walk.new) walk.new) }
    ensures work { OnOk result (work_left store.now (stack_of walk.new) (seen_of walk.new)
        ≤ work_left store.now (stack_of walk.old) (seen_of walk.old)) }
{
    let at = store.root(variable);
    let slot = &store.slots()[at as usize];
    if u64::from(slot.depth) < floor {
        return Ok(());
    }
    if walk.seen.insert(at)? {
        walk.todo.push(Task::Leave(at))?;
        push_parts(&mut walk.todo, &slot.cell)?;
    }
    Ok(())
}

/// Lists a variable. The error means that memory or numbers ran out.
fn leave(order: &mut Order, variable: u32) -> Result<(), AllocError>
    requires { IsTable order.old }
    ensures table { OnOk result (IsTable order.new) }
    ensures list { OnOk result (reverse order.new.variables.items ≡ variable ∷ reverse order.old.variables.items) }
{
    let Ok(number) = u32::try_from(order.variables.len()) else {
        return Err(AllocError);
    };
    let _ = order.numbers.insert(variable, number)?;
    order.variables.push(variable)?;
    Ok(())
}

/// The variables that the variable `variable` leads to, itself among them, that were made inside `floor` definitions or
/// more, each once, in an order in which parts stand before what is made of them. Of a chain of variables that are
/// bound, only the end is listed. Each is looked at once. The error means that memory or numbers ran out.
pub fn parts_first(
    alloc: Global,
    store: &Store,
    variable: u32,
    floor: u64,
) -> Result<Order, AllocError>
    requires whole { IsStore store.now }
    requires inside { variable < length store.now }
    ensures { IfOk result (λ order. Ordered floor store.now variable order) }
{
    let mut walk = Walk {
        todo: Vec::new(alloc),
        seen: HashSet::new(alloc),
        order: Order {
            variables: Vec::new(alloc),
            numbers: HashMap::new(alloc),
        },
    };
    walk.todo.push(Task::Enter(variable))?;
    while let Some(task) = walk.todo.pop() {
        match task {
            Task::Enter(next) => enter(store, floor, &mut walk, next)?,
            Task::Leave(next) => leave(&mut walk.order, next)?,
        }
    }
    Ok(walk.order)
}
