//! Which nodes are those of a type. A stack tells of each type that was read whether it has the name of a field.

ghost use Rattle.std.specs.Prelude.{◌≡◌, IfOk, reverse, Some, None, if◌then◌else◌};
ghost use Rattle.interface.specs.Shapes.{left_after, fronted_by, shaped, shapes_of, is_one, are_shaped};

use elm_type::node::Node;
use std::alloc::{AllocError, Global};

/// Takes so many types off the stack, of which each has the name of a field or none has. Answers whether they were
/// there.
fn take_off(stack: &mut Vec<bool>, count: usize, named: bool) -> bool
    ensures { left_after named count (reverse stack.old.items) ≡
        (if result then Some (reverse stack.new.items) else None) }
{
    for _ in 0..count {
        match stack.pop() {
            None => return false,
            Some(has_name) => {
                if has_name != named {
                    return false;
                }
            }
        }
    }
    true
}

/// Puts one type in the place of so many.
fn replace(
    stack: &mut Vec<bool>,
    count: usize,
    named: bool,
    has_name: bool,
) -> Result<bool, AllocError>
    ensures { IfOk result (λ taken. fronted_by has_name (left_after named count (reverse stack.old.items))
        ≡ (if taken then Some (reverse stack.new.items) else None)) }
{
    if !take_off(stack, count, named) {
        return Ok(false);
    }
    stack.push(has_name)?;
    Ok(true)
}

/// Reads a node in front of those that were read.
fn add_node(stack: &mut Vec<bool>, node: &Node) -> Result<bool, AllocError>
    ensures { IfOk result (λ taken. shaped node.now (reverse stack.old.items)
        ≡ (if taken then Some (reverse stack.new.items) else None)) }
{
    match node {
        Node::Made(_, count) => replace(stack, *count, false, false),
        Node::Record(count) => replace(stack, *count, true, false),
        Node::Open(_, count) => replace(stack, *count, true, false),
        Node::Field(_) => replace(stack, 1, false, true),
    }
}

/// Whether there is one type alone, without a name.
fn is_one(stack: &[bool]) -> bool
    ensures { result ≡ is_one (reverse stack.now) }
{
    match stack {
        [has_name] => !*has_name,
        _ => false,
    }
}

/// Whether the nodes are those of one type. The error means that memory ran out.
pub(crate) fn are_of_one(alloc: Global, nodes: &[Node]) -> Result<bool, AllocError>
    ensures { IfOk result (λ one. one ≡ are_shaped (shapes_of nodes.now)) }
{
    let mut stack = Vec::new(alloc);
    let mut index = nodes.len();
    while index > 0 {
        index -= 1;
        if !add_node(&mut stack, &nodes[index])? {
            return Ok(false);
        }
    }
    Ok(is_one(&stack))
}
