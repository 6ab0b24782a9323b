//! Expressions, and the parts of their lists.

ghost use Rattle.std.specs.Prelude.{◌≡◌, ◌≤◌, ℕ, List, length, OnOk};
ghost use Rattle.js_tree.specs.Postorder.{operator_view, helper_view};
ghost use Rattle.js_tree.specs.Text.{bool_text, operator_text, helper_text};
ghost use Rattle.js_printer.specs.Tasks.{IsStep};

use crate::spelling::{write_int, write_name};
use crate::task::{Task, push_parts};
use elm_base::quoted::write_text;
use js_tree::tree::{Helper, Node, Operator};
use js_tree::trees::Trees;
use std::alloc::AllocError;

/// The text of an operator.
fn operator_bytes(operator: Operator) -> &'static [u8]
    ensures { result.now ≡ operator_text (operator_view operator) }
{
    match operator {
        Operator::Plus => b"+",
        Operator::Minus => b"-",
        Operator::Times => b"*",
        Operator::StrictEquals => b"===",
        Operator::And => b"&&",
        Operator::Or => b"||",
    }
}

/// The text of a truth value.
fn bool_bytes(value: bool) -> &'static [u8]
    ensures { result.now ≡ bool_text value }
{
    if value { b"true" } else { b"false" }
}

/// The name of a function of the fixed text.
fn helper_bytes(helper: Helper) -> &'static [u8]
    ensures { result.now ≡ helper_text (helper_view helper) }
{
    match helper {
        Helper::Crash => b"_crash",
        Helper::Quotient => b"_quot",
        Helper::Remainder => b"_rem",
        Helper::Modulo => b"_mod",
        Helper::BitAnd => b"_and",
        Helper::BitOr => b"_or",
        Helper::BitXor => b"_xor",
        Helper::BitNot => b"_not",
        Helper::ShiftLeft => b"_shl",
        Helper::ShiftRight => b"_shr",
        Helper::ShiftRightZero => b"_shz",
        Helper::FromInt => b"_fromInt",
        Helper::Length => b"_length",
        Helper::UnitAt => b"_unitAt",
        Helper::FromUnit => b"_fromUnit",
        Helper::Slice => b"_slice",
        Helper::Find => b"_find",
        Helper::Same => b"_same",
        Helper::Update => b"_update",
        Helper::ArrayOf => b"_array",
        Helper::Append => b"_append",
        Helper::Pairs => b"_pairs",
        Helper::Size => b"_size",
        Helper::Equal => b"_eq",
        Helper::Compare => b"_cmp",
        Helper::DecodeInt => b"_dInt",
        Helper::DecodeBool => b"_dBool",
        Helper::DecodeText => b"_dText",
        Helper::DecodeNull => b"_dNull",
        Helper::DecodeAny => b"_dAny",
        Helper::DecodeMaybe => b"_dMaybe",
        Helper::All => b"_all",
        Helper::DecodeList => b"_dList",
        Helper::DecodeTuple => b"_dTuple",
        Helper::DecodeRecord => b"_dRecord",
        Helper::EncodeSame => b"_eSame",
        Helper::EncodeNull => b"_eNull",
        Helper::EncodeMaybe => b"_eMaybe",
        Helper::EncodeList => b"_eList",
        Helper::EncodeTuple => b"_eTuple",
        Helper::EncodeRecord => b"_eRecord",
    }
}

/// Writes an expression up to its first part, and leaves the parts.
pub fn write_expression(
    text: &mut Vec<u8>,
    tasks: &mut Vec<Task>,
    trees: &Trees,
    place: usize,
) -> Result<(), AllocError>
    requires { place ≤ length trees.now }
    ensures { OnOk result (IsStep trees.now
        (Task.Expression place) text.old.items tasks.old.items text.new.items tasks.new.items) }
{
    let Some(node) = trees.node(place) else {
        return text.extend_from_slice(b"0");
    };
    let last = place - 1;
    match node {
        Node::Int(value) => write_int(text, *value),
        Node::Bool(value) => text.extend_from_slice(bool_bytes(*value)),
        Node::Text(units) => write_text(text, units.as_slice()),
        Node::Var(name) => write_name(text, name),
        Node::Arrow(parameter) => {
            text.push(b'(')?;
            write_name(text, parameter)?;
            text.extend_from_slice(b"=>{")?;
            push_parts(tasks, &[Task::Block(last), Task::Bytes(b"})")])
        }
        Node::Block => {
            text.extend_from_slice(b"(()=>{")?;
            push_parts(tasks, &[Task::Block(last), Task::Bytes(b"})()")])
        }
        Node::Call => push_parts(
            tasks,
            &[
                Task::Expression(trees.below(last)),
                Task::Bytes(b"("),
                Task::Expression(last),
                Task::Bytes(b")"),
            ],
        ),
        Node::Binary(operator) => {
            let left = trees.below(last);
            text.push(b'(')?;
            push_parts(
                tasks,
                &[
                    Task::Expression(left),
                    Task::Bytes(operator_bytes(*operator)),
                    Task::Expression(last),
                    Task::Bytes(b")"),
                ],
            )
        }
        Node::Conditional => {
            let middle = trees.below(last);
            text.push(b'(')?;
            push_parts(
                tasks,
                &[
                    Task::Expression(trees.below(middle)),
                    Task::Bytes(b"?"),
                    Task::Expression(middle),
                    Task::Bytes(b":"),
                    Task::Expression(last),
                    Task::Bytes(b")"),
                ],
            )
        }
        Node::Object => {
            text.push(b'{')?;
            push_parts(tasks, &[Task::Members(last), Task::Bytes(b"}")])
        }
        Node::Property(_) => push_parts(tasks, &[Task::Expression(last), Task::Key(place)]),
        Node::List => {
            text.extend_from_slice(b"_list([")?;
            push_parts(tasks, &[Task::Items(last), Task::Bytes(b"])")])
        }
        Node::Helper(helper) => {
            text.extend_from_slice(helper_bytes(*helper))?;
            text.push(b'(')?;
            push_parts(tasks, &[Task::Items(last), Task::Bytes(b")")])
        }
        _ => text.extend_from_slice(b"0"),
    }
}

/// Writes the brackets after an object, with the name of its field.
pub fn write_key(text: &mut Vec<u8>, trees: &Trees, place: usize) -> Result<(), AllocError>
    requires { place ≤ length trees.now }
    ensures { (tasks : List Task) → OnOk result (IsStep trees.now
        (Task.Key place) text.old.items tasks text.new.items tasks) }
{
    let Some(node) = trees.node(place) else {
        return Ok(());
    };
    let Node::Property(name) = node else {
        return Ok(());
    };
    text.push(b'[')?;
    write_text(text, name.as_slice())?;
    text.extend_from_slice(b"]")
}

/// Leaves the items of a list, with commas between them.
pub fn leave_items(tasks: &mut Vec<Task>, trees: &Trees, place: usize) -> Result<(), AllocError>
    requires { place ≤ length trees.now }
    ensures { (text : List ℕ) → OnOk result (IsStep trees.now
        (Task.Items place) text tasks.old.items text tasks.new.items) }
{
    let Some(node) = trees.node(place) else {
        return Ok(());
    };
    let Node::Item = node else {
        return Ok(());
    };
    let last = place - 1;
    push_parts(
        tasks,
        &[Task::ItemsBefore(trees.below(last)), Task::Expression(last)],
    )
}

/// Leaves items that another one follows, each with the comma after it.
pub fn leave_items_before(
    tasks: &mut Vec<Task>,
    trees: &Trees,
    place: usize,
) -> Result<(), AllocError>
    requires { place ≤ length trees.now }
    ensures { (text : List ℕ) → OnOk result (IsStep trees.now
        (Task.ItemsBefore place) text tasks.old.items text tasks.new.items) }
{
    let Some(node) = trees.node(place) else {
        return Ok(());
    };
    let Node::Item = node else {
        return Ok(());
    };
    let last = place - 1;
    push_parts(
        tasks,
        &[
            Task::ItemsBefore(trees.below(last)),
            Task::Expression(last),
            Task::Bytes(b","),
        ],
    )
}
