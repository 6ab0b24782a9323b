//! The fields of objects.

ghost use Rattle.std.specs.Prelude.{◌≤◌, ℕ, List, length, OnOk};
ghost use Rattle.js_printer.specs.Tasks.{IsStep};

use crate::task::{Task, push_parts};
use elm_base::quoted::write_text;
use js_tree::tree::Node;
use js_tree::trees::Trees;
use std::alloc::AllocError;

/// Leaves the fields of an object, with commas between them.
pub fn leave_members(tasks: &mut Vec<Task>, trees: &Trees, place: usize) -> Result<(), AllocError>
    requires { place ≤ length trees.now }
    ensures { (text : List ℕ) → OnOk result (IsStep trees.now
        (Task.Members place) text tasks.old.items text tasks.new.items) }
{
    let Some(node) = trees.node(place) else {
        return Ok(());
    };
    let Node::Field(_) = node else {
        return Ok(());
    };
    let before = trees.below(place - 1);
    push_parts(tasks, &[Task::MembersBefore(before), Task::Member(place)])
}

/// Leaves fields that another one follows, each with the comma after it.
pub fn leave_members_before(
    tasks: &mut Vec<Task>,
    trees: &Trees,
    place: usize,
) -> Result<(), AllocError>
    requires { place ≤ length trees.now }
    ensures { (text : List ℕ) → OnOk result (IsStep trees.now
        (Task.MembersBefore place) text tasks.old.items text tasks.new.items) }
{
    let Some(node) = trees.node(place) else {
        return Ok(());
    };
    let Node::Field(_) = node else {
        return Ok(());
    };
    let before = trees.below(place - 1);
    push_parts(
        tasks,
        &[
            Task::MembersBefore(before),
            Task::Member(place),
            Task::Bytes(b","),
        ],
    )
}

/// Writes the name of the last field, and leaves its value.
pub fn write_member(
    text: &mut Vec<u8>,
    tasks: &mut Vec<Task>,
    trees: &Trees,
    place: usize,
) -> Result<(), AllocError>
    requires { place ≤ length trees.now }
    ensures { OnOk result (IsStep trees.now
        (Task.Member place) text.old.items tasks.old.items text.new.items tasks.new.items) }
{
    let Some(node) = trees.node(place) else {
        return Ok(());
    };
    let Node::Field(name) = node else {
        return Ok(());
    };
    write_text(text, name.as_slice())?;
    text.push(b':')?;
    push_parts(tasks, &[Task::Expression(place - 1)])
}
