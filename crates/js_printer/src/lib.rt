//! The text of trees, printed into one buffer. What is still to be written stands on a stack of tasks, so that no tree
//! is too deep.
#![tactic(auto)]

ghost use Rattle.std.specs.Prelude.{◌≡◌, ◌≤◌, length, OnOk, IfOk};
ghost use Rattle.js_tree.specs.Tree.{Program};
ghost use Rattle.js_tree.specs.Text.{JsText};
ghost use Rattle.js_tree.specs.Postorder.{ProgramOf, trees_of, top, trees_at};
ghost use Rattle.js_printer.specs.Whole.{tree_text};
ghost use Rattle.js_printer.specs.Tasks.{IsInside, IsStep, task_text};

mod expression;
mod object;
mod program;
mod spelling;
mod statement;
mod task;

use expression::{leave_items, leave_items_before, write_expression, write_key};
use js_tree::runtime::{HEAD, TAIL};
use js_tree::tree::Node;
use js_tree::trees::Trees;
use object::{leave_members, leave_members_before, write_member};
use program::{leave_lines, write_line, write_main, write_outs, write_program};
use statement::{leave_statements, write_block, write_statement};
use std::alloc::{AllocError, Global};
use task::Task;

/// Room for the text of a node, as it is in most programs.
const NODE_ROOM: usize = 16;

/// The text of the last one of the trees.
pub fn print(alloc: Global, trees: &Trees) -> Result<Vec<u8>, AllocError>
    ensures text { IfOk result (λ bytes. bytes.items ≡ tree_text (top (trees_of trees.now))) }
    ensures program { IfOk result (λ bytes. (p : Program) → top (trees_of trees.now) ≡ ProgramOf p
        → JsText p bytes.items) }
{
    let task = task_of(trees, trees.len());
    let mut text = Vec::with_capacity(alloc, room(task, trees.len()))?;
    let mut tasks = Vec::new(alloc);
    tasks.push(task)?;
    while let Some(task) = tasks.pop() {
        write_task(&mut text, &mut tasks, trees, task)?;
    }
    Ok(text)
}

/// Room for the text of so many nodes, by a first guess.
fn room(task: Task, nodes: usize) -> usize {
    let lines = nodes.saturating_mul(NODE_ROOM);
    match task {
        Task::Program(_) => lines.saturating_add(HEAD.len() + TAIL.len()),
        _ => lines,
    }
}

/// The task of a whole tree, by its kind.
fn task_of(trees: &Trees, place: usize) -> Task
    requires { place ≤ length trees.now }
    ensures text { task_text trees.now result ≡ tree_text (top (trees_at trees.now place)) }
    ensures inside { IsInside (length trees.now) result }
{
    let Some(node) = trees.node(place) else {
        return Task::Expression(place);
    };
    match node {
        Node::NoItem | Node::Item => Task::Items(place),
        Node::NoField | Node::Field(_) => Task::Members(place),
        Node::NoStatement | Node::Const(_) | Node::Let(_) | Node::Assign(_) => Task::Statements(
            place,
        ),
        Node::Return | Node::If | Node::While | Node::Continue | Node::Ended => Task::Block(place),
        Node::NoLine | Node::Line(_) => Task::Lines(place),
        Node::Program { .. } => Task::Program(place),
        _ => Task::Expression(place),
    }
}

/// Writes what stands in front of a task's parts, and leaves the parts.
fn write_task(
    text: &mut Vec<u8>,
    tasks: &mut Vec<Task>,
    trees: &Trees,
    task: Task,
) -> Result<(), AllocError>
    requires { IsInside (length trees.now) task }
    ensures { OnOk result (IsStep trees.now task text.old.items tasks.old.items text.new.items tasks.new.items) }
{
    match task {
        Task::Bytes(bytes) => text.extend_from_slice(bytes),
        Task::Expression(place) => write_expression(text, tasks, trees, place),
        Task::Key(place) => write_key(text, trees, place),
        Task::Items(place) => leave_items(tasks, trees, place),
        Task::ItemsBefore(place) => leave_items_before(tasks, trees, place),
        Task::Members(place) => leave_members(tasks, trees, place),
        Task::MembersBefore(place) => leave_members_before(tasks, trees, place),
        Task::Member(place) => write_member(text, tasks, trees, place),
        Task::Statements(place) => leave_statements(tasks, trees, place),
        Task::Statement(place) => write_statement(text, tasks, trees, place),
        Task::Block(place) => write_block(text, tasks, trees, place),
        Task::Lines(place) => leave_lines(tasks, trees, place),
        Task::Line(place) => write_line(text, tasks, trees, place),
        Task::Program(place) => write_program(text, tasks, trees, place),
        Task::Main(place) => write_main(text, tasks, trees, place),
        Task::Outs(place) => write_outs(text, trees, place),
    }
}
