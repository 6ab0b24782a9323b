//! What is done with the values of the parts of an expression.

ghost use Rattle.std.specs.Prelude.{◌≡◌, ◌∷◌, List, OnOk};
ghost use Rattle.elm_canon.specs.View.{op_view};
ghost use Rattle.js_tree.specs.Tree.{Js, JInt, NoJs};
ghost use Rattle.js_tree.specs.Postorder.{Tree, Expression, Items, NoItem, Item, items};
ghost use Rattle.js_tree.specs.Postorder.{items_then, trees_of, top, below};
ghost use Rattle.js_tree.specs.Postorder.{expression, operator_view};
ghost use Rattle.js_emit.specs.Operators.{perform_js, connective_js, is_false};
ghost use Rattle.js_emit.specs.Parts.{count_items, with_parts};
ghost use Rattle.js_emit.specs.Ends.{arithmetic, called, compared, bare_ended, items_ended};
ghost use Rattle.js_emit.specs.Ends.{update_ended, ended, blank_js};
ghost use Rattle.js_emit.specs.Ends.{dropped_js};

use crate::objects::end_object;
use crate::shape::{Shape, add, begin, names_of, shape_of};
use elm_canon::tree::{Connective, Op, Operator};
use elm_canon::unions::Tag;
use js_tree::tree;
use js_tree::tree::{Helper, Node};
use js_tree::trees::Trees;
use std::alloc::{AllocError, Global};

/// The operator of the output for one that may pass over its right operand.
pub fn js_connective(connective: Connective) -> tree::Operator
    ensures { operator_view result ≡ connective_js connective }
{
    match connective {
        Connective::And => tree::Operator::And,
        Connective::Or => tree::Operator::Or,
    }
}

/// Begins an operation with so many parts. Each of them is then added as an expression, and taken by `add_part`, and
/// after the last of them `end_op` makes the operation of them. The error means that memory ran out.
pub fn begin_op(alloc: Global, trees: &mut Trees, op: &Op, count: usize) -> Result<(), AllocError>
    ensures { OnOk result (trees_of trees.new ≡ with_parts (op_view op.now) count NoItem (trees_of trees.old)) }
{
    begin(alloc, trees, shape_of(op, count))
}

/// Takes the last tree as the next part of an operation with `count` parts, of which `done` were taken before. The
/// error means that memory ran out.
pub fn add_part(
    alloc: Global,
    trees: &mut Trees,
    op: &Op,
    count: usize,
    done: usize,
) -> Result<(), AllocError>
    ensures { OnOk result ((before : Items) (x : Js) (ts : List Tree) → count_items before ≡ done
        → trees_of trees.old ≡ Expression x ∷ with_parts (op_view op.now) count before ts
        → trees_of trees.new ≡ with_parts (op_view op.now) count (Item before x) ts) }
{
    add(alloc, trees, shape_of(op, count), names_of(op), done)
}

/// The operator of the output for two numbers.
fn js_arithmetic(operator: Operator) -> tree::Operator
    ensures { operator_view result ≡ arithmetic operator }
{
    match operator {
        Operator::Subtract => tree::Operator::Minus,
        Operator::Multiply => tree::Operator::Times,
        _ => tree::Operator::Plus,
    }
}

/// Says whether the last tree is false.
fn push_is_false(trees: &mut Trees) -> Result<(), AllocError>
    ensures { OnOk result (trees_of trees.new
        ≡ Expression (is_false (expression (top (trees_of trees.old)))) ∷ below (trees_of trees.old)) }
{
    trees.push(Node::Bool(false))?;
    trees.push(Node::Binary(tree::Operator::StrictEquals))
}

/// Says whether the order of the items that stand last has that number.
fn push_compared(trees: &mut Trees, number: i64) -> Result<(), AllocError>
    ensures { OnOk result (trees_of trees.new
        ≡ Expression (compared (items_then (items (top (trees_of trees.old))) NoJs) (JInt number))
        ∷ below (trees_of trees.old)) }
{
    trees.push(Node::Helper(Helper::Compare))?;
    trees.push(Node::Int(number))?;
    trees.push(Node::Binary(tree::Operator::StrictEquals))
}

/// Makes the items that stand last what the operator makes of them.
fn call_operator(trees: &mut Trees, operator: Operator) -> Result<(), AllocError>
    ensures { OnOk result (trees_of trees.new
        ≡ Expression (called operator (items_then (items (top (trees_of trees.old))) NoJs))
        ∷ below (trees_of trees.old)) }
{
    match operator {
        Operator::Divide => trees.push(Node::Helper(Helper::Quotient)),
        Operator::Append => trees.push(Node::Helper(Helper::Append)),
        Operator::Unequal => {
            trees.push(Node::Helper(Helper::Equal))?;
            push_is_false(trees)
        }
        Operator::Less => push_compared(trees, -1),
        Operator::Greater => push_compared(trees, 1),
        Operator::AtMost => {
            push_compared(trees, 1)?;
            push_is_false(trees)
        }
        Operator::AtLeast => {
            push_compared(trees, -1)?;
            push_is_false(trees)
        }
        _ => trees.push(Node::Helper(Helper::Equal)),
    }
}

/// Adds what is made of a constructor whose fields are dropped.
pub fn push_blank(trees: &mut Trees, tag: Tag) -> Result<(), AllocError>
    ensures { OnOk result (trees_of trees.new ≡ Expression (blank_js tag) ∷ trees_of trees.old) }
{
    match tag {
        Tag::Truth(truth) => trees.push(Node::Bool(truth)),
        Tag::Number(_) | Tag::Blank => trees.push(Node::Int(0)),
    }
}

/// Adds what is made of parts that are dropped.
fn push_dropped(trees: &mut Trees, op: &Op) -> Result<(), AllocError>
    ensures { OnOk result (trees_of trees.new ≡ Expression (dropped_js (op_view op.now)) ∷ trees_of trees.old) }
{
    match op {
        Op::Build(_, _, alternative) => push_blank(trees, alternative.tag),
        _ => trees.push(Node::Int(0)),
    }
}

/// Makes the operation of parts that stand there as expressions.
fn end_bare(trees: &mut Trees, op: &Op) -> Result<(), AllocError>
    ensures { OnOk result (trees_of trees.new ≡ bare_ended (op_view op.now) (trees_of trees.old)) }
{
    match op {
        Op::Binary(_, operator) => trees.push(Node::Binary(js_arithmetic(*operator))),
        _ => Ok(()),
    }
}

/// Makes the operation of parts that stand there as items.
fn end_items(trees: &mut Trees, op: &Op) -> Result<(), AllocError>
    ensures { OnOk result (trees_of trees.new ≡ items_ended (op_view op.now) (trees_of trees.old)) }
{
    match op {
        Op::Binary(_, operator) => call_operator(trees, *operator),
        _ => trees.push(Node::List),
    }
}

/// Makes an update of its record and its fields.
fn end_update(trees: &mut Trees) -> Result<(), AllocError>
    ensures { OnOk result (trees_of trees.new ≡ update_ended (trees_of trees.old)) }
{
    trees.push(Node::Object)?;
    trees.push(Node::Item)?;
    trees.push(Node::Helper(Helper::Update))
}

/// Makes the operation of its parts.
fn end_shape(trees: &mut Trees, shape: Shape, op: &Op) -> Result<(), AllocError>
    ensures { OnOk result (trees_of trees.new ≡ ended shape (op_view op.now) (trees_of trees.old)) }
{
    match shape {
        Shape::Dropped => push_dropped(trees, op),
        Shape::Bare => end_bare(trees, op),
        Shape::AfterZero => trees.push(Node::Binary(tree::Operator::Minus)),
        Shape::Items => end_items(trees, op),
        Shape::Tagged(_) | Shape::Record => end_object(trees),
        Shape::Update => end_update(trees),
    }
}

/// Ends an operation, whose parts were all taken. The error means that memory ran out.
pub fn end_op(trees: &mut Trees, op: &Op, count: usize) -> Result<(), AllocError>
    ensures { OnOk result ((before : Items) (ts : List Tree) → count_items before ≡ count
        → trees_of trees.old ≡ with_parts (op_view op.now) count before ts
        → trees_of trees.new ≡ Expression (perform_js (op_view op.now) (items_then before NoJs)) ∷ ts) }
{
    end_shape(trees, shape_of(op, count), op)
}
