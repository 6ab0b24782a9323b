//! Functions without a body: constructors, ports and functions of the core.

ghost use Rattle.std.specs.Prelude.{◌≡◌, ◌∷◌, List, OnOk, length};
ghost use Rattle.elm_canon.specs.Tree.{OutPort, InPort};
ghost use Rattle.elm_canon.specs.View.{known_view, payload_view};
ghost use Rattle.elm_meaning.specs.Functions.{Given, Core, primitive_arity};
ghost use Rattle.js_tree.specs.Tree.{Js, JObject, Return};
ghost use Rattle.js_tree.specs.Postorder.{Tree, Expression, trees_of, helper_view};
ghost use Rattle.js_emit.specs.Names.{build_js, fields_js, made_names, now, vars};
ghost use Rattle.js_emit.specs.Operators.{arrows_of, bodiless_js, given_js, helper};
ghost use Rattle.js_emit.specs.Parts.{waiting};
ghost use Rattle.js_emit.specs.Open.{opens, made_items};
ghost use Rattle.js_emit.specs.Primitives.{primitive_view};

use crate::arrows::{begin_made, end_made};
use crate::codecs::push_encoder;
use crate::names::units_of;
use crate::objects::{add_numbered, begin_tagged, end_object};
use crate::parts::push_blank;
use crate::push::push_made;
use crate::shape::{Shape, add, begin};
use elm_base::names::Name;
use elm_canon::tree::{Known, Payload};
use elm_canon::unions::Tag;
use js_tree::tree::{Helper, Node};
use js_tree::trees::Trees;
use std::alloc::{AllocError, Global};

/// A function of the core that no text of the language can say.
#[derive(Clone, Copy)]
pub enum Primitive {
    /// Crashes with a text.
    Crash,
    /// What is left of a division, with the sign of what is divided.
    Remainder,
    /// What is left of a division, with the sign of the divisor.
    Modulo,
    BitAnd,
    BitOr,
    BitXor,
    BitNot,
    ShiftLeft,
    ShiftRight,
    ShiftRightZero,
    /// A number in decimal.
    FromInt,
    /// How many units a text has.
    Length,
    /// The unit at a place of a text.
    UnitAt,
    /// The text of one unit.
    FromUnit,
    /// A text from one place to another.
    Slice,
    /// Where a text stands first, from a place on, in another.
    Find,
    /// A value as one of another type.
    Same,
    /// -1, 0 or 1, by the order of two values.
    Compare,
}

/// The function of the fixed text that it is.
fn js_helper(primitive: Primitive) -> Helper
    ensures { helper_view result ≡ helper (primitive_view primitive) }
{
    match primitive {
        Primitive::Crash => Helper::Crash,
        Primitive::Remainder => Helper::Remainder,
        Primitive::Modulo => Helper::Modulo,
        Primitive::BitAnd => Helper::BitAnd,
        Primitive::BitOr => Helper::BitOr,
        Primitive::BitXor => Helper::BitXor,
        Primitive::BitNot => Helper::BitNot,
        Primitive::ShiftLeft => Helper::ShiftLeft,
        Primitive::ShiftRight => Helper::ShiftRight,
        Primitive::ShiftRightZero => Helper::ShiftRightZero,
        Primitive::FromInt => Helper::FromInt,
        Primitive::Length => Helper::Length,
        Primitive::UnitAt => Helper::UnitAt,
        Primitive::FromUnit => Helper::FromUnit,
        Primitive::Slice => Helper::Slice,
        Primitive::Find => Helper::Find,
        Primitive::Same => Helper::Same,
        Primitive::Compare => Helper::Compare,
    }
}

/// How many arguments it takes.
fn arity(primitive: Primitive) -> usize
    ensures { result ≡ primitive_arity (primitive_view primitive) }
{
    match primitive {
        Primitive::Crash
        | Primitive::BitNot
        | Primitive::FromInt
        | Primitive::Length
        | Primitive::FromUnit
        | Primitive::Same => 1,
        Primitive::Slice | Primitive::Find => 3,
        _ => 2,
    }
}

/// Adds the first so many made names as parts of that shape.
#[tactic(auto, using(crate::proofs::MadeParts::made_step))]
fn push_parts(
    alloc: Global,
    trees: &mut Trees,
    shape: Shape,
    names: &[Name],
    count: usize,
) -> Result<(), AllocError>
    ensures { OnOk result (trees_of trees.new ≡ waiting shape names.now (made_items count) (trees_of trees.old)) }
{
    begin(alloc, trees, shape)?;
    for i in 0..count {
        push_made(trees, i as u64)?;
        add(alloc, trees, shape, names, i)?;
    }
    Ok(())
}

/// Adds what a constructor makes of so many made names.
#[tactic(auto, using(crate::proofs::MadeParts::tagged_made))]
fn push_build(alloc: Global, trees: &mut Trees, tag: Tag, count: usize) -> Result<(), AllocError>
    ensures { OnOk result (trees_of trees.new
        ≡ Expression (build_js tag (vars (made_names 0 count))) ∷ trees_of trees.old) }
{
    match tag {
        Tag::Number(number) => {
            push_parts(alloc, trees, Shape::Tagged(number), &[], count)?;
            end_object(trees)
        }
        Tag::Truth(_) | Tag::Blank => push_blank(trees, tag),
    }
}

/// Adds the record of these fields, whose values are made names in turn.
#[tactic(auto, using(crate::proofs::MadeParts::record_made))]
fn push_record(alloc: Global, trees: &mut Trees, names: &[Name]) -> Result<(), AllocError>
    ensures { OnOk result (trees_of trees.new
        ≡ Expression (JObject (fields_js names.now (vars (made_names 0 (length names.now))))) ∷ trees_of trees.old) }
{
    push_parts(alloc, trees, Shape::Record, names, names.len())?;
    end_object(trees)
}

/// Adds what is sent through a port of that name, which is the made name 0, encoded.
fn push_sent(
    alloc: Global,
    trees: &mut Trees,
    port: &Name,
    payload: &Payload,
) -> Result<(), AllocError>
    ensures { OnOk result (trees_of trees.new
        ≡ Expression (given_js (OutPort port.now (payload_view payload.now)) (vars (made_names 0 1)))
        ∷ trees_of trees.old) }
{
    begin_tagged(alloc, trees, 0)?;
    trees.push(Node::Text(units_of(alloc, port)?))?;
    add_numbered(alloc, trees, 0)?;
    push_encoder(alloc, trees, payload)?;
    push_made(trees, 0)?;
    trees.push(Node::Call)?;
    add_numbered(alloc, trees, 1)?;
    end_object(trees)
}

/// Adds what listens at a port of that name, with the made name 0.
fn push_heard(
    alloc: Global,
    trees: &mut Trees,
    port: &Name,
    payload: &Payload,
) -> Result<(), AllocError>
    ensures { OnOk result (trees_of trees.new
        ≡ Expression (given_js (InPort port.now (payload_view payload.now)) (vars (made_names 0 1)))
        ∷ trees_of trees.old) }
{
    begin_tagged(alloc, trees, 0)?;
    trees.push(Node::Text(units_of(alloc, port)?))?;
    add_numbered(alloc, trees, 0)?;
    push_made(trees, 0)?;
    add_numbered(alloc, trees, 1)?;
    end_object(trees)
}

/// Makes the last tree what so many functions return, which are begun.
fn end_value(trees: &mut Trees, count: usize) -> Result<(), AllocError>
    ensures { OnOk result ((x : Js) (ts : List Tree) → trees_of trees.old ≡ Expression x ∷ opens count ts
        → trees_of trees.new ≡ Expression (now (arrows_of (made_names 0 count) (Return x))) ∷ ts) }
{
    if count == 0 {
        return Ok(());
    }
    trees.push(Node::Return)?;
    end_made(trees, 0, count)
}

/// Adds a constructor, a record's constructor or a port, as a function of its arguments in turn. The error means that
/// memory ran out.
pub fn push_known(alloc: Global, trees: &mut Trees, known: &Known) -> Result<(), AllocError>
    ensures { OnOk result (trees_of trees.new
        ≡ Expression (bodiless_js (Given (known_view known.now))) ∷ trees_of trees.old) }
{
    match known {
        Known::Maker(alternative) => {
            begin_made(trees, alternative.arity)?;
            push_build(alloc, trees, alternative.tag, alternative.arity)?;
            end_value(trees, alternative.arity)
        }
        Known::RecordMaker(names) => {
            begin_made(trees, names.len())?;
            push_record(alloc, trees, names)?;
            end_value(trees, names.len())
        }
        Known::OutPort(port, payload) => {
            begin_made(trees, 1)?;
            push_sent(alloc, trees, port, payload)?;
            end_value(trees, 1)
        }
        Known::InPort(port, payload) => {
            begin_made(trees, 1)?;
            push_heard(alloc, trees, port, payload)?;
            end_value(trees, 1)
        }
    }
}

/// Adds a function of the core, as a function of its arguments in turn. The error means that memory ran out.
pub fn push_primitive(
    alloc: Global,
    trees: &mut Trees,
    primitive: Primitive,
) -> Result<(), AllocError>
    ensures { OnOk result (trees_of trees.new
        ≡ Expression (bodiless_js (Core (primitive_view primitive))) ∷ trees_of trees.old) }
{
    let count = arity(primitive);
    begin_made(trees, count)?;
    push_parts(alloc, trees, Shape::Items, &[], count)?;
    trees.push(Node::Helper(js_helper(primitive)))?;
    end_value(trees, count)
}
