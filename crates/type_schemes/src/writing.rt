//! Types of a store, written out node by node. What waits stands in a list, so that no type is too deep.

ghost use Rattle.std.specs.Prelude.{◌≡◌, ◌++◌, length, map, reverse, true, IfOk, OnOk};
ghost use Rattle.elm_type.specs.Spelling.{record_node, spell};
ghost use Rattle.elm_type.specs.View.{end_view};
ghost use Rattle.type_schemes.specs.Order.{IsListed, PartsFirst};
ghost use Rattle.type_schemes.specs.Bases.{type_in};
ghost use Rattle.type_schemes.specs.Reading.{read_in};
ghost use Rattle.type_schemes.specs.Rows.{CanRead, is_row, older_in};
ghost use Rattle.type_schemes.specs.Tasks.{Writes, task_nodes, task_variable};
ghost use Rattle.type_schemes.specs.declared.writing.Task.TheVariants as task;
ghost use Rattle.type_store.specs.Shape.{IsStore};
ghost use Rattle.type_store.specs.Store.{slot_at};

use crate::order::Order;
use crate::rows::{Gathered, gather};
use elm_type::node::{Leaf, Node};
use std::alloc::{AllocError, Global};
use type_store::slot::{Cell, FieldSlot};
use type_store::store::Store;

/// What is to be written: the type of a variable, or a field with its type.
#[derive(Drop)]
pub enum Task {
    Whole(u32),
    Part(FieldSlot),
}

/// The nodes that are written, and what is to be written, the next task last.
#[derive(Drop)]
pub struct Writer {
    pub nodes: Vec<Node>,
    pub todo: Vec<Task>,
}

/// Adds the tasks to write the types of variables, the first one next.
fn push_types(todo: &mut Vec<Task>, variables: &[u32]) -> Result<(), AllocError>
    ensures { OnOk result (reverse todo.new.items ≡ map task.Whole variables.now ++ reverse todo.old.items) }
{
    let count = variables.len();
    for place in 0..count {
        todo.push(Task::Whole(variables[count - 1 - place]))?;
    }
    Ok(())
}

/// Adds the tasks to write fields, the first one next.
fn push_fields(todo: &mut Vec<Task>, fields: Vec<FieldSlot>) -> Result<(), AllocError>
    ensures { OnOk result (reverse todo.new.items ≡ map task.Part fields.items ++ reverse todo.old.items) }
{
    let mut fields = fields;
    while let Some(field) = fields.pop() {
        todo.push(Task::Part(field))?;
    }
    Ok(())
}

/// The node of a record.
fn record_node(row: &Gathered) -> Result<Node, AllocError>
    ensures { IfOk result (λ node. node ≡ record_node (length row.now.fields.items) (end_view row.now.end)) }
{
    let count = row.fields.len();
    match &row.end {
        None => Ok(Node::Record(count)),
        Some(leaf) => Ok(Node::Open(leaf.copy()?, count)),
    }
}

/// Writes the node of a record, and adds the tasks to write its fields.
fn write_record(
    alloc: Global,
    store: &Store,
    order: &Order,
    writer: &mut Writer,
    variable: u32,
) -> Result<(), AllocError>
    requires whole { IsStore store.now }
    requires first { PartsFirst 0 store.now (older_in order.now) }
    requires listed { IsListed (older_in order.now) variable }
    requires row { is_row (slot_at store.now variable).cell ≡ true }
    ensures { OnOk result (Writes store.now (older_in order.now) (type_in store.now (older_in order.now))
        (spell (read_in store.now (older_in order.now) variable)) writer.old writer.new) }
{
    let row = gather(alloc, store, order, variable)?;
    writer.nodes.push(record_node(&row)?)?;
    push_fields(&mut writer.todo, row.fields)?;
    Ok(())
}

/// Writes the node of the type of a variable, and adds the tasks to write its parts.
fn write_type(
    alloc: Global,
    store: &Store,
    order: &Order,
    writer: &mut Writer,
    variable: u32,
) -> Result<(), AllocError>
    requires whole { IsStore store.now }
    requires first { PartsFirst 0 store.now (older_in order.now) }
    requires known { CanRead store.now (older_in order.now) variable }
    ensures { OnOk result (Writes store.now (older_in order.now) (type_in store.now (older_in order.now))
        (spell (type_in store.now (older_in order.now) variable)) writer.old writer.new) }
{
    let at = store.root(variable);
    match &store.slots()[at as usize].cell {
        Cell::Open => writer.nodes.push(Node::Open(Leaf::Free(at), 0))?,
        Cell::Constant(rigid) => writer
            .nodes
            .push(Node::Open(Leaf::Fixed(rigid.clone()?), 0))?,
        Cell::Built(head, parts) => {
            writer.nodes.push(Node::Made(head.copy()?, parts.len()))?;
            push_types(&mut writer.todo, parts)?;
        }
        Cell::Row(_, _) => write_record(alloc, store, order, writer, at)?,
        Cell::Bound(_) => unreachable!(),
    }
    Ok(())
}

/// Does a task.
fn write_task(
    alloc: Global,
    store: &Store,
    order: &Order,
    writer: &mut Writer,
    task: Task,
) -> Result<(), AllocError>
    requires whole { IsStore store.now }
    requires first { PartsFirst 0 store.now (older_in order.now) }
    requires known { CanRead store.now (older_in order.now) (task_variable task) }
    ensures { OnOk result (Writes store.now (older_in order.now) (type_in store.now (older_in order.now))
        (task_nodes (type_in store.now (older_in order.now)) task) writer.old writer.new) }
{
    match task {
        Task::Whole(variable) => write_type(alloc, store, order, writer, variable),
        Task::Part(field) => {
            let FieldSlot { name, slot } = field;
            writer.nodes.push(Node::Field(name))?;
            write_type(alloc, store, order, writer, slot)
        }
    }
}

/// The nodes of the type of a variable. The error means that memory ran out.
pub fn nodes(
    alloc: Global,
    store: &Store,
    order: &Order,
    variable: u32,
) -> Result<Vec<Node>, AllocError>
    requires whole { IsStore store.now }
    requires first { PartsFirst 0 store.now (older_in order.now) }
    requires known { CanRead store.now (older_in order.now) variable }
    ensures { IfOk result (λ nodes. nodes.items ≡ spell (type_in store.now (older_in order.now) variable)) }
{
    let mut writer = Writer {
        nodes: Vec::new(alloc),
        todo: Vec::new(alloc),
    };
    writer.todo.push(Task::Whole(variable))?;
    while let Some(task) = writer.todo.pop() {
        write_task(alloc, store, order, &mut writer, task)?;
    }
    Ok(writer.nodes)
}
