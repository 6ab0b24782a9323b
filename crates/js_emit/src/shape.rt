//! How the parts of an operation wait until it is whole.

ghost use Rattle.std.specs.Prelude.{◌≡◌, ◌∷◌, drop, OnOk};
ghost use Rattle.elm_canon.specs.View.{op_view};
ghost use Rattle.js_tree.specs.Postorder.{trees_of};
ghost use Rattle.js_emit.specs.Parts.{build_shape, operator_shape, shape_of, names_of};
ghost use Rattle.js_emit.specs.Parts.{begun, added, field_added};

use crate::objects::{add_named, add_numbered, begin_tagged};
use crate::push::drop_last;
use elm_base::names::Name;
use elm_canon::tree::{Op, Operator};
use elm_canon::unions::Tag;
use js_tree::tree::Node;
use js_tree::trees::Trees;
use std::alloc::{AllocError, Global};

/// How the parts of an operation wait until it is whole.
#[derive(Clone, Copy)]
pub enum Shape {
    /// They are dropped.
    Dropped,
    /// As expressions.
    Bare,
    /// After the number 0.
    AfterZero,
    Items,
    /// As the parts of an object with that tag.
    Tagged(i64),
    /// As the fields of an object.
    Record,
    /// As a record and the fields of what changes.
    Update,
}

/// The shape of a constructor's fields.
pub fn build_shape(tag: Tag) -> Shape
    ensures { result ≡ build_shape tag }
{
    match tag {
        Tag::Number(number) => Shape::Tagged(number),
        Tag::Truth(_) | Tag::Blank => Shape::Dropped,
    }
}

/// The shape of two operands.
fn operator_shape(operator: Operator) -> Shape
    ensures { result ≡ operator_shape operator }
{
    match operator {
        Operator::Add | Operator::Subtract | Operator::Multiply => Shape::Bare,
        Operator::Cons => Shape::Tagged(1),
        _ => Shape::Items,
    }
}

/// The shape of so many parts of an operation.
pub fn shape_of(op: &Op, count: usize) -> Shape
    ensures { result ≡ shape_of (op_view op.now) count }
{
    match op {
        Op::Tuple => {
            if count == 0 {
                Shape::Dropped
            } else {
                Shape::Tagged(0)
            }
        }
        Op::List => {
            if count == 0 {
                Shape::Tagged(0)
            } else {
                Shape::Items
            }
        }
        Op::Build(_, _, alternative) => build_shape(alternative.tag),
        Op::Record(_) => Shape::Record,
        Op::Update(_) => {
            if count == 0 {
                Shape::Dropped
            } else {
                Shape::Update
            }
        }
        Op::Negate => {
            if count == 1 {
                Shape::AfterZero
            } else {
                Shape::Dropped
            }
        }
        Op::Binary(_, operator) => {
            if count == 2 {
                operator_shape(*operator)
            } else {
                Shape::Dropped
            }
        }
    }
}

/// The names of the fields of an operation.
pub fn names_of(op: &Op) -> &[Name]
    ensures { result.now ≡ names_of (op_view op.now) }
{
    match op {
        Op::Record(names) | Op::Update(names) => names,
        _ => &[],
    }
}

/// Begins parts of that shape.
pub fn begin(alloc: Global, trees: &mut Trees, shape: Shape) -> Result<(), AllocError>
    ensures { OnOk result (trees_of trees.new ≡ begun shape (trees_of trees.old)) }
{
    match shape {
        Shape::Dropped | Shape::Bare => Ok(()),
        Shape::AfterZero => trees.push(Node::Int(0)),
        Shape::Items | Shape::Update => trees.push(Node::NoItem),
        Shape::Tagged(tag) => begin_tagged(alloc, trees, tag),
        Shape::Record => trees.push(Node::NoField),
    }
}

/// Makes the last tree the field whose name stands at that place, or drops it.
fn add_field(
    alloc: Global,
    trees: &mut Trees,
    names: &[Name],
    place: usize,
) -> Result<(), AllocError>
    ensures { OnOk result (trees_of trees.new ≡ field_added (drop place names.now) (trees_of trees.old)) }
{
    if place < names.len() {
        add_named(alloc, trees, &names[place])
    } else {
        drop_last(trees);
        Ok(())
    }
}

/// Makes the last tree the part of that number.
pub fn add(
    alloc: Global,
    trees: &mut Trees,
    shape: Shape,
    names: &[Name],
    number: usize,
) -> Result<(), AllocError>
    ensures { OnOk result (trees_of trees.new ≡ added shape names.now number (trees_of trees.old)) }
{
    match shape {
        Shape::Dropped => {
            drop_last(trees);
            Ok(())
        }
        Shape::Bare | Shape::AfterZero => Ok(()),
        Shape::Items => trees.push(Node::Item),
        Shape::Tagged(_) => add_numbered(alloc, trees, number),
        Shape::Record => add_field(alloc, trees, names, number),
        Shape::Update => {
            if number == 0 {
                trees.push(Node::Item)?;
                trees.push(Node::NoField)
            } else {
                add_field(alloc, trees, names, number - 1)
            }
        }
    }
}
