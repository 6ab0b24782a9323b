//! Types that are written, as variables of a store.

ghost use Rattle.std.specs.Prelude.{◌≡◌, ◌≤◌, ◌+◌, ℕ, List, [], ◌∷◌, length, take, drop, map, IfOk, OnOk};
ghost use Rattle.std.specs.List.{AllByRecursion};
ghost use Rattle.elm_type.specs.Spelling.{type_of, AreSpelled};
ghost use Rattle.elm_type.specs.View.{type_view};
ghost use Rattle.elm_type.specs.declared.node.Leaf.TheVariants as leaf;
ghost use Rattle.elm_type.specs.declared.node.Node.TheVariants as node;
ghost use Rattle.type_store.specs.Shape.{IsStore, Ascending};
ghost use Rattle.type_store.specs.View.{field_view};
ghost use Rattle.type_walks.specs.Links.{Live};
ghost use Rattle.infer_steps.specs.View.{here};
ghost use Rattle.infer_types.specs.Stacks.{waiting, slots, names};
ghost use Rattle.infer_types.specs.Writing.{LeafFits, NodeFits, NodeWritten, CanWrite, Writes};
ghost use Rattle.infer_types.specs.Functions.{FunctionWritten};

use crate::arrows::parameter_lengths;
use crate::stack::take_parts;
use elm_base::names::Name;
use elm_base::units::Units;
use elm_type::head::Head;
use elm_type::node::{Leaf, Node};
use elm_type::ty::Ty;
use infer_steps::make::{built, row};
use infer_steps::state::State;
use std::alloc::{AllocError, Global};
use type_store::slot::FieldSlot;
use type_walks::type_steps_laws::lack_law;

/// The variables of fields.
fn slots_of(alloc: Global, fields: &[FieldSlot]) -> Result<Vec<u32>, AllocError>
    ensures { IfOk result (λ vs. vs.items ≡ slots (map field_view fields.now)) }
{
    let mut variables = Vec::with_capacity(alloc, fields.len())?;
    for field in fields {
        variables.push(field.slot)?;
    }
    Ok(variables)
}

/// Lets a variable wait under a name.
fn push_part(stack: &mut Vec<FieldSlot>, name: &Name, slot: u32) -> Result<(), AllocError>
    ensures { OnOk result (waiting stack.new.items ≡ (name.now, slot) ∷ waiting stack.old.items) }
{
    stack.push(FieldSlot {
        name: name.clone()?,
        slot,
    })?;
    Ok(())
}

/// Writes a type of a head.
fn write_made(
    alloc: Global,
    state: &mut State,
    stack: &mut Vec<FieldSlot>,
    head: &Head,
    count: usize,
    blank: &Name,
) -> Result<(), AllocError>
    requires blank { blank.now ≡ [] }
    requires whole { IsStore (here state.old).store }
    requires waiting { AllByRecursion (Live (here state.old).depth (here state.old).store)
        (slots (waiting stack.old.items)) }
    ensures { (leaves : List ℕ) → OnOk result (NodeWritten leaves (node.Made head.now count) (waiting stack.old.items)
        (here state.old) (waiting stack.new.items) (here state.new)) }
{
    let parts = take_parts(stack, count)?;
    let variables = slots_of(alloc, &parts)?;
    let copy = head.copy()?;
    let slot = built(state, copy, variables)?;
    push_part(stack, blank, slot)?;
    Ok(())
}

/// Writes a record without further fields.
fn write_record(
    state: &mut State,
    stack: &mut Vec<FieldSlot>,
    count: usize,
    blank: &Name,
) -> Result<(), AllocError>
    requires blank { blank.now ≡ [] }
    requires whole { IsStore (here state.old).store }
    requires waiting { AllByRecursion (Live (here state.old).depth (here state.old).store)
        (slots (waiting stack.old.items)) }
    requires ascending { Ascending (take count (names (waiting stack.old.items))) }
    ensures { (leaves : List ℕ) → OnOk result (NodeWritten leaves (node.Record count) (waiting stack.old.items)
        (here state.old) (waiting stack.new.items) (here state.new)) }
{
    lack_law();
    let fields = take_parts(stack, count)?;
    let slot = row(state, fields, None)?;
    push_part(stack, blank, slot)?;
    Ok(())
}

/// Writes a record over the variable `end`, or `end` itself where there are no fields.
fn write_open(
    state: &mut State,
    stack: &mut Vec<FieldSlot>,
    leaves: &[u32],
    number: u32,
    count: usize,
    blank: &Name,
) -> Result<(), AllocError>
    requires blank { blank.now ≡ [] }
    requires whole { IsStore (here state.old).store }
    requires waiting { AllByRecursion (Live (here state.old).depth (here state.old).store)
        (slots (waiting stack.old.items)) }
    requires leaves { AllByRecursion (Live (here state.old).depth (here state.old).store) leaves.now }
    requires fits { LeafFits (here state.old).store leaves.now (leaf.Free number)
        (take count (names (waiting stack.old.items))) }
    ensures { OnOk result (NodeWritten leaves.now (node.Open (leaf.Free number) count) (waiting stack.old.items)
        (here state.old) (waiting stack.new.items) (here state.new)) }
{
    lack_law();
    let end = leaves[number as usize];
    let fields = take_parts(stack, count)?;
    if fields.len() == 0 {
        push_part(stack, blank, end)?;
        return Ok(());
    }
    let slot = row(state, fields, Some(end))?;
    push_part(stack, blank, slot)?;
    Ok(())
}

/// Names the type that waits first.
fn write_name(state: &State, stack: &mut Vec<FieldSlot>, name: &Name) -> Result<(), AllocError>
    requires whole { IsStore (here state.now).store }
    requires waiting { AllByRecursion (Live (here state.now).depth (here state.now).store)
        (slots (waiting stack.old.items)) }
    ensures { (leaves : List ℕ) → OnOk result (NodeWritten leaves (node.Field name.now) (waiting stack.old.items)
        (here state.now) (waiting stack.new.items) (here state.now)) }
{
    let _depth = state.depth;
    match stack.pop() {
        Some(part) => {
            push_part(stack, name, part.slot)?;
            Ok(())
        }
        None => Ok(()),
    }
}

/// Writes what the node says.
fn write_node(
    alloc: Global,
    state: &mut State,
    stack: &mut Vec<FieldSlot>,
    node: &Node,
    leaves: &[u32],
    blank: &Name,
) -> Result<(), AllocError>
    requires blank { blank.now ≡ [] }
    requires whole { IsStore (here state.old).store }
    requires waiting { AllByRecursion (Live (here state.old).depth (here state.old).store)
        (slots (waiting stack.old.items)) }
    requires leaves { AllByRecursion (Live (here state.old).depth (here state.old).store) leaves.now }
    requires fits { NodeFits (here state.old).store leaves.now node.now (names (waiting stack.old.items)) }
    ensures { OnOk result (NodeWritten leaves.now node.now (waiting stack.old.items) (here state.old)
        (waiting stack.new.items) (here state.new)) }
{
    match node {
        Node::Made(head, count) => write_made(alloc, state, stack, head, *count, blank),
        Node::Record(count) => write_record(state, stack, *count, blank),
        Node::Open(leaf, count) => match leaf {
            Leaf::Free(number) => write_open(state, stack, leaves, *number, *count, blank),
            Leaf::Fixed(_) => unreachable!(),
        },
        Node::Field(name) => write_name(state, stack, name),
    }
}

/// Writes the type of these nodes, from the last one on.
fn write_nodes(
    alloc: Global,
    state: &mut State,
    nodes: &[Node],
    leaves: &[u32],
) -> Result<u32, AllocError>
    requires spelled { AreSpelled nodes.now }
    requires whole { IsStore (here state.old).store }
    requires leaves { AllByRecursion (Live (here state.old).depth (here state.old).store) leaves.now }
    requires can { CanWrite (here state.old).store leaves.now (type_of nodes.now) }
    ensures { IfOk result (λ v. Writes leaves.now (type_of nodes.now) (here state.old) (here state.new) v) }
{
    let blank = Name::new(alloc, Units::from_vec(Vec::new(alloc)))?;
    let count = nodes.len();
    let mut stack = Vec::new(alloc);
    for i in 0..count {
        write_node(
            alloc,
            state,
            &mut stack,
            &nodes[count - 1 - i],
            leaves,
            &blank,
        )?;
    }
    match stack.pop() {
        Some(part) => Ok(part.slot),
        None => unreachable!(),
    }
}

/// Makes a variable for the type `ty`, whose variables stand for the types of the variables `leaves`, by their numbers.
/// It has no constants. What its records end in is known to lack their fields. The error is that memory or numbers ran
/// out.
pub fn write(alloc: Global, state: &mut State, leaves: &[u32], ty: &Ty) -> Result<u32, AllocError>
    requires whole { IsStore (here state.old).store }
    requires leaves { AllByRecursion (Live (here state.old).depth (here state.old).store) leaves.now }
    requires can { CanWrite (here state.old).store leaves.now (type_view ty.now) }
    ensures { IfOk result (λ v. Writes leaves.now (type_view ty.now) (here state.old) (here state.new) v) }
{
    let variable = write_nodes(alloc, state, &ty.nodes, leaves)?;
    Ok(variable)
}

/// The variables of the type of a function, taken apart: that of its result, and those of its parameters.
#[derive(Drop)]
pub struct Parts {
    pub result: u32,
    pub parameters: Vec<u32>,
}

/// Writes the type of `count` nodes, from the node `start` on.
fn write_part(
    alloc: Global,
    state: &mut State,
    nodes: &[Node],
    start: usize,
    count: usize,
    leaves: &[u32],
) -> Result<u32, AllocError>
    requires inside { start + count ≤ length nodes.now }
    requires spelled { AreSpelled (take count (drop start nodes.now)) }
    requires whole { IsStore (here state.old).store }
    requires leaves { AllByRecursion (Live (here state.old).depth (here state.old).store) leaves.now }
    requires can { CanWrite (here state.old).store leaves.now (type_of (take count (drop start nodes.now))) }
    ensures { IfOk result (λ v. Writes leaves.now (type_of (take count (drop start nodes.now))) (here state.old)
        (here state.new) v) }
{
    let end = start + count;
    let variable = write_nodes(alloc, state, &nodes[start..end], leaves)?;
    Ok(variable)
}

/// Writes the types of the parameters and of the result of the functions of the type of these nodes.
fn parts_of(
    alloc: Global,
    state: &mut State,
    nodes: &[Node],
    leaves: &[u32],
    arity: usize,
) -> Result<Parts, AllocError>
    requires spelled { AreSpelled nodes.now }
    requires whole { IsStore (here state.old).store }
    requires leaves { AllByRecursion (Live (here state.old).depth (here state.old).store) leaves.now }
    requires can { CanWrite (here state.old).store leaves.now (type_of nodes.now) }
    ensures { IfOk result (λ p. FunctionWritten leaves.now arity (type_of nodes.now) (here state.old) (here state.new)
        p.result p.parameters.items) }
{
    let lengths = parameter_lengths(alloc, nodes, arity)?;
    let mut parameters = Vec::new(alloc);
    let mut start = 0;
    for length in &lengths {
        let parameter = write_part(alloc, state, nodes, start + 1, *length, leaves)?;
        parameters.push(parameter)?;
        start = start + 1 + *length;
    }
    let result = write_part(alloc, state, nodes, start, nodes.len() - start, leaves)?;
    Ok(Parts { result, parameters })
}

/// Makes variables for the types of the first `arity` parameters and of the result of the functions of the type `ty`:
/// for fewer parameters, where the type has fewer. Its variables stand for the types of the variables `leaves`, by
/// their numbers. It has no constants. What its records end in is known to lack their fields. The error is that memory
/// or numbers ran out.
pub fn write_parts(
    alloc: Global,
    state: &mut State,
    leaves: &[u32],
    ty: &Ty,
    arity: usize,
) -> Result<Parts, AllocError>
    requires whole { IsStore (here state.old).store }
    requires leaves { AllByRecursion (Live (here state.old).depth (here state.old).store) leaves.now }
    requires can { CanWrite (here state.old).store leaves.now (type_view ty.now) }
    ensures { IfOk result (λ p. FunctionWritten leaves.now arity (type_view ty.now) (here state.old) (here state.new)
        p.result p.parameters.items) }
{
    let parts = parts_of(alloc, state, &ty.nodes, leaves, arity)?;
    Ok(parts)
}
