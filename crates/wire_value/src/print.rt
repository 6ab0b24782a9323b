//! The text of a wire value, printed into one buffer. What is still to be written stands on a stack of tasks, so that
//! no value is too deep.

ghost use Rattle.std.specs.Prelude.{◌≡◌, ◌++◌, IfOk, OnOk, map, codes};
ghost use Rattle.wire_value.specs.View.{wire_view, wires_of};
ghost use Rattle.wire_value.specs.Text.{wire_text, wires_text};
ghost use Rattle.wire_value.specs.Tasks.{Leaves, task_text, task_weight, wire_weight, wires_weight};

use crate::Wire;
use crate::object::{put_members, put_object};
use crate::spelling::{bool_bytes, put_int};
use crate::task::Task;
use elm_base::quoted::write_text;
use std::alloc::{AllocError, Global};

/// The text of a value: compact JSON in ASCII.
pub fn to_text(alloc: Global, wire: &Wire) -> Result<Vec<u8>, AllocError>
    ensures { IfOk result (λ text. text.items ≡ wire_text (wire_view wire.now)) }
{
    let mut text = Vec::new(alloc);
    let mut tasks = Vec::new(alloc);
    tasks.push(Task::Value(wire))?;
    while let Some(task) = tasks.pop() {
        put_task(&mut text, &mut tasks, task)?;
    }
    Ok(text)
}

/// Writes what stands in front of a task's parts, and leaves the parts.
fn put_task<'a>(
    text: &mut Vec<u8>,
    tasks: &mut Vec<Task<'a>>,
    task: Task<'a>,
) -> Result<(), AllocError>
    ensures { OnOk result (Leaves (task_text task.entry)
        (task_weight task.entry) text.old.items tasks.old.items text.new.items tasks.new.items) }
{
    match task {
        Task::Value(wire) => put_value(text, tasks, wire),
        Task::Items(items) => put_items(text, tasks, items),
        Task::Members(members) => put_members(text, tasks, members),
    }
}

/// Writes a value up to its first part, and leaves the parts.
fn put_value<'a>(
    text: &mut Vec<u8>,
    tasks: &mut Vec<Task<'a>>,
    wire: &'a Wire,
) -> Result<(), AllocError>
    ensures { OnOk result (Leaves (wire_text (wire_view wire.now))
        (wire_weight (wire_view wire.now)) text.old.items tasks.old.items text.new.items tasks.new.items) }
{
    match wire {
        Wire::Null => text.extend_from_slice(b"null"),
        Wire::Bool(value) => text.extend_from_slice(bool_bytes(*value)),
        Wire::Int(value) => put_int(text, *value),
        Wire::Text(units) => write_text(text, units.as_slice()),
        Wire::List(items) => {
            text.push(b'[')?;
            put_list(text, tasks, items.as_slice())
        }
        Wire::Object(members) => {
            text.push(b'{')?;
            put_object(text, tasks, members.as_slice())
        }
    }
}

/// Leaves the items of a list, or writes its end.
fn put_list<'a>(
    text: &mut Vec<u8>,
    tasks: &mut Vec<Task<'a>>,
    items: &'a [Wire],
) -> Result<(), AllocError>
    ensures { OnOk result (Leaves (wires_text (wires_of (map wire_view items.now)) ++ codes "]")
        (wires_weight (wires_of (map wire_view items.now)))
        text.old.items tasks.old.items text.new.items tasks.new.items) }
{
    let Some((first, rest)) = items.split_first() else {
        return Ok(text.push(b']')?);
    };
    tasks.push(Task::Items(rest))?;
    tasks.push(Task::Value(first))?;
    Ok(())
}

/// Writes the comma before items, and leaves them, or writes the end of the list.
fn put_items<'a>(
    text: &mut Vec<u8>,
    tasks: &mut Vec<Task<'a>>,
    items: &'a [Wire],
) -> Result<(), AllocError>
    ensures { OnOk result (Leaves (task_text (Task.Items items.entry))
        (task_weight (Task.Items items.entry)) text.old.items tasks.old.items text.new.items tasks.new.items) }
{
    if !items.is_empty() {
        text.push(b',')?;
    }
    put_list(text, tasks, items)
}
