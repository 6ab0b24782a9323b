//! The lines of a program.

ghost use Rattle.std.specs.Prelude.{◌≡◌, ◌≤◌, ◌++◌, ℕ, List, length, OnOk};
ghost use Rattle.js_tree.specs.Text.{fields_text, outs_fields};
ghost use Rattle.js_printer.specs.Tasks.{IsStep};

use crate::spelling::write_comma;
use crate::statement::write_value;
use crate::task::{Task, push_parts};
use elm_base::quoted::write_text;
use elm_base::units::Units;
use js_tree::runtime::{HEAD, TAIL};
use js_tree::tree::Node;
use js_tree::trees::Trees;
use std::alloc::AllocError;

/// Leaves the lines of constants.
pub fn leave_lines(tasks: &mut Vec<Task>, trees: &Trees, place: usize) -> Result<(), AllocError>
    requires { place ≤ length trees.now }
    ensures { (text : List ℕ) → OnOk result (IsStep trees.now
        (Task.Lines place) text tasks.old.items text tasks.new.items) }
{
    let Some(node) = trees.node(place) else {
        return Ok(());
    };
    let Node::Line(_) = node else {
        return Ok(());
    };
    let before = trees.below(place - 1);
    push_parts(tasks, &[Task::Lines(before), Task::Line(place)])
}

/// Writes a constant's line up to its value, and leaves the value.
pub fn write_line(
    text: &mut Vec<u8>,
    tasks: &mut Vec<Task>,
    trees: &Trees,
    place: usize,
) -> Result<(), AllocError>
    requires { place ≤ length trees.now }
    ensures { OnOk result (IsStep trees.now
        (Task.Line place) text.old.items tasks.old.items text.new.items tasks.new.items) }
{
    let Some(node) = trees.node(place) else {
        return Ok(());
    };
    let Node::Line(name) = node else {
        return Ok(());
    };
    text.extend_from_slice(b"const ")?;
    write_value(text, tasks, name, place - 1, b";\n")
}

/// Writes the fixed text in front of a program, and leaves its lines and the fixed text after it.
pub fn write_program(
    text: &mut Vec<u8>,
    tasks: &mut Vec<Task>,
    trees: &Trees,
    place: usize,
) -> Result<(), AllocError>
    requires { place ≤ length trees.now }
    ensures { OnOk result (IsStep trees.now
        (Task.Program place) text.old.items tasks.old.items text.new.items tasks.new.items) }
{
    let Some(node) = trees.node(place) else {
        return Ok(());
    };
    let Node::Program { .. } = node else {
        return Ok(());
    };
    let flags = trees.below(place - 1);
    let main = trees.below(flags);
    let lines = trees.below(main);
    text.extend_from_slice(HEAD)?;
    push_parts(
        tasks,
        &[Task::Lines(lines), Task::Main(place), Task::Bytes(TAIL)],
    )
}

/// Writes the line of `_main` up to the program that it holds, and leaves the rest of the line.
pub fn write_main(
    text: &mut Vec<u8>,
    tasks: &mut Vec<Task>,
    trees: &Trees,
    place: usize,
) -> Result<(), AllocError>
    requires { place ≤ length trees.now }
    ensures { OnOk result (IsStep trees.now
        (Task.Main place) text.old.items tasks.old.items text.new.items tasks.new.items) }
{
    let Some(node) = trees.node(place) else {
        return Ok(());
    };
    let Node::Program { name, .. } = node else {
        return Ok(());
    };
    let ins = place - 1;
    let flags = trees.below(ins);
    let main = trees.below(flags);
    text.extend_from_slice(br##"const _main={"name":"##)?;
    write_text(text, name.as_slice())?;
    text.extend_from_slice(br##","program":"##)?;
    push_parts(
        tasks,
        &[
            Task::Expression(main),
            Task::Bytes(br##","flags":"##),
            Task::Expression(flags),
            Task::Bytes(br##","ins":{"##),
            Task::Members(ins),
            Task::Bytes(br##"},"outs":{"##),
            Task::Outs(place),
            Task::Bytes(b"}};\n"),
        ],
    )
}

/// Writes the outgoing ports of a program, as fields.
pub fn write_outs(text: &mut Vec<u8>, trees: &Trees, place: usize) -> Result<(), AllocError>
    requires { place ≤ length trees.now }
    ensures { (tasks : List Task) → OnOk result (IsStep trees.now
        (Task.Outs place) text.old.items tasks text.new.items tasks) }
{
    let Some(node) = trees.node(place) else {
        return Ok(());
    };
    let Node::Program { outs, .. } = node else {
        return Ok(());
    };
    write_ports(text, outs)
}

/// Writes ports as fields.
fn write_ports(text: &mut Vec<u8>, ports: &Vec<Units>) -> Result<(), AllocError>
    ensures { OnOk result (text.new.items ≡ text.old.items ++ fields_text (outs_fields ports.now.items)) }
{
    let mut is_first = true;
    for port in ports {
        write_comma(text, is_first)?;
        write_text(text, port.as_slice())?;
        text.extend_from_slice(b":0")?;
        is_first = false;
    }
    Ok(())
}
