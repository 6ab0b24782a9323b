//! Statements and blocks.

ghost use Rattle.std.specs.Prelude.{◌≡◌, ◌≤◌, ℕ, List, [], ◌∷◌, ◌++◌, codes, length, reverse, OnOk};
ghost use Rattle.js_tree.specs.Text.{name_text};
ghost use Rattle.js_tree.specs.Postorder.{name_view};
ghost use Rattle.js_printer.specs.Tasks.{IsStep};

use crate::spelling::write_name;
use crate::task::{Task, push_parts};
use js_tree::tree::{Name, Node};
use js_tree::trees::Trees;
use std::alloc::AllocError;

/// Writes a name that gets a value, and leaves the value, which ends at that place, and what stands after it.
pub fn write_value(
    text: &mut Vec<u8>,
    tasks: &mut Vec<Task>,
    name: &Name,
    place: usize,
    end: &'static [u8],
) -> Result<(), AllocError>
    ensures written { OnOk result (text.new.items ≡ text.old.items ++ (name_text (name_view name.now) ++ codes "=")) }
    ensures left { OnOk result (tasks.new.items ≡ tasks.old.items
        ++ reverse (Task.Expression place ∷ Task.Bytes end.entry ∷ [])) }
{
    write_name(text, name)?;
    text.push(b'=')?;
    push_parts(tasks, &[Task::Expression(place), Task::Bytes(end)])
}

/// Leaves the statements of a block before its last one.
pub fn leave_statements(
    tasks: &mut Vec<Task>,
    trees: &Trees,
    place: usize,
) -> Result<(), AllocError>
    requires { place ≤ length trees.now }
    ensures { (text : List ℕ) → OnOk result (IsStep trees.now
        (Task.Statements place) text tasks.old.items text tasks.new.items) }
{
    let Some(node) = trees.node(place) else {
        return Ok(());
    };
    match node {
        Node::Const(_) | Node::Let(_) | Node::Assign(_) => {
            let before = trees.below(place - 1);
            push_parts(tasks, &[Task::Statements(before), Task::Statement(place)])
        }
        _ => Ok(()),
    }
}

/// Writes a statement up to its value, and leaves the value.
pub fn write_statement(
    text: &mut Vec<u8>,
    tasks: &mut Vec<Task>,
    trees: &Trees,
    place: usize,
) -> Result<(), AllocError>
    requires { place ≤ length trees.now }
    ensures { OnOk result (IsStep trees.now
        (Task.Statement place) text.old.items tasks.old.items text.new.items tasks.new.items) }
{
    let Some(node) = trees.node(place) else {
        return Ok(());
    };
    match node {
        Node::Const(name) => {
            text.extend_from_slice(b"const ")?;
            write_value(text, tasks, name, place - 1, b";")
        }
        Node::Let(name) => {
            text.extend_from_slice(b"let ")?;
            write_value(text, tasks, name, place - 1, b";")
        }
        Node::Assign(name) => write_value(text, tasks, name, place - 1, b";"),
        _ => Ok(()),
    }
}

/// Writes a block up to its first part, and leaves the parts.
pub fn write_block(
    text: &mut Vec<u8>,
    tasks: &mut Vec<Task>,
    trees: &Trees,
    place: usize,
) -> Result<(), AllocError>
    requires { place ≤ length trees.now }
    ensures { OnOk result (IsStep trees.now
        (Task.Block place) text.old.items tasks.old.items text.new.items tasks.new.items) }
{
    let Some(node) = trees.node(place) else {
        return text.extend_from_slice(b"continue;");
    };
    let last = place - 1;
    match node {
        Node::Return => {
            text.extend_from_slice(b"return ")?;
            push_parts(tasks, &[Task::Expression(last), Task::Bytes(b";")])
        }
        Node::If => {
            let middle = trees.below(last);
            text.extend_from_slice(b"if(")?;
            push_parts(
                tasks,
                &[
                    Task::Expression(trees.below(middle)),
                    Task::Bytes(b"){"),
                    Task::Block(middle),
                    Task::Bytes(b"}else{"),
                    Task::Block(last),
                    Task::Bytes(b"}"),
                ],
            )
        }
        Node::While => {
            text.extend_from_slice(b"while(true){")?;
            push_parts(tasks, &[Task::Block(last), Task::Bytes(b"}")])
        }
        Node::Ended => push_parts(
            tasks,
            &[Task::Statements(trees.below(last)), Task::Block(last)],
        ),
        _ => text.extend_from_slice(b"continue;"),
    }
}
