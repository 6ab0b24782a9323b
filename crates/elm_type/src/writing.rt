//! A walk over the nodes of a type, which writes its text.

ghost use Rattle.std.specs.Prelude.{◌≡◌, ◌∷◌, ◌++◌, ◌<◌, ◌-◌, [], reverse, nat_eq, if◌then◌else◌, codes, IfOk, OnOk};
ghost use Rattle.elm_type.specs.View.{type_view};
ghost use Rattle.elm_type.specs.Spelling.{leaf_of};
ghost use Rattle.elm_type.specs.Text.{type_name, text_in, is_core, leaf_name};
ghost use Rattle.elm_type.specs.Frames.{separator_of, colon_of, around_of, next_of, frame, function_closing};
ghost use Rattle.elm_type.specs.Frames.{applied_closing, bracket, opening_text, frame_of, Wrote};

use crate::ascii::is_text;
use crate::frame::{
    Around, Closing, Frame, Kind, close_all, colon, has_fields, next, next_frame, push_frame, put,
    separator, standing,
};
use crate::head::Head;
use crate::node::{Leaf, Node};
use crate::ty::Ty;
use elm_base::names::Name;
use std::alloc::{AllocError, Global};

/// Adds the units of a name.
fn put_name(text: &mut Vec<u16>, name: &Name) -> Result<(), AllocError>
    ensures { OnOk result (text.new.items ≡ text.old.items ++ name.now) }
{
    text.extend_from_slice(name.as_slice())
}

/// Adds the name of a variable or a constant. The names of variables are listed by their numbers.
fn put_leaf(text: &mut Vec<u16>, leaf: &Leaf, names: &[Name]) -> Result<(), AllocError>
    ensures { OnOk result (text.new.items ≡ text.old.items ++ leaf_name names.now (leaf_of leaf.now)) }
{
    match leaf {
        Leaf::Free(number) => match names.get(*number as usize) {
            Some(name) => put_name(text, name),
            None => Ok(()),
        },
        Leaf::Fixed(constant) => put_name(text, constant.name()),
    }
}

/// Whether the language brings the module of this name.
fn is_core(home: &Name) -> bool
    ensures { result ≡ is_core home.now }
{
    is_text(home, b"Basics")
        || is_text(home, b"Bitwise")
        || is_text(home, b"Char")
        || is_text(home, b"Debug")
        || is_text(home, b"Dict")
        || is_text(home, b"List")
        || is_text(home, b"Maybe")
        || is_text(home, b"Platform")
        || is_text(home, b"Platform.Cmd")
        || is_text(home, b"Platform.Sub")
        || is_text(home, b"Result")
        || is_text(home, b"Set")
        || is_text(home, b"String")
        || is_text(home, b"Tuple")
}

/// Adds the name of a type of the module `home`, with the module where the language does not bring it.
fn put_type_name(text: &mut Vec<u16>, home: &Name, name: &Name) -> Result<(), AllocError>
    ensures { OnOk result (text.new.items ≡ text.old.items ++ type_name home.now name.now) }
{
    if is_core(home) {
        put_name(text, name)?;
        return Ok(());
    }
    put_name(text, home)?;
    put(text, b".")?;
    put_name(text, name)?;
    Ok(())
}

/// What closes a function.
fn function_end(around: Around) -> Closing
    ensures { result ≡ function_closing around }
{
    match around {
        Around::Alone => Closing::Nothing,
        Around::Parameter | Around::Argument => Closing::Bracket,
    }
}

/// What closes a type with arguments.
fn applied_end(around: Around) -> Closing
    ensures { result ≡ applied_closing around }
{
    match around {
        Around::Alone | Around::Parameter => Closing::Nothing,
        Around::Argument => Closing::Bracket,
    }
}

/// The bracket that belongs to what closes a type.
fn open_bracket(closing: Closing) -> &'static [u8]
    ensures { result.now ≡ bracket closing }
{
    match closing {
        Closing::Bracket => b"(",
        Closing::Nothing | Closing::TupleEnd | Closing::RecordEnd => b"",
    }
}

/// What closes a tuple or a record of so many parts: `end`, or nothing where there are none.
fn end_of(parts: usize, end: Closing) -> Closing
    ensures { result ≡ (if nat_eq parts 0 then Closing.Nothing else end) }
{
    if parts == 0 { Closing::Nothing } else { end }
}

/// The frame of the parts of a node.
fn frame_of(around: Around, node: &Node) -> Frame
    ensures { result ≡ frame_of around node.now }
{
    match node {
        Node::Made(Head::Named(..), parts) => Frame {
            kind: Kind::Arguments,
            left: *parts,
            closing: end_of(*parts, applied_end(around)),
        },
        Node::Made(Head::Function, parts) => Frame {
            kind: Kind::Parameters,
            left: *parts,
            closing: function_end(around),
        },
        Node::Made(Head::Tuple, parts) => Frame {
            kind: Kind::Parts,
            left: *parts,
            closing: end_of(*parts, Closing::TupleEnd),
        },
        Node::Record(parts) | Node::Open(_, parts) => Frame {
            kind: Kind::Fields,
            left: *parts,
            closing: end_of(*parts, Closing::RecordEnd),
        },
        Node::Field(_) => Frame {
            kind: Kind::Single,
            left: 0,
            closing: Closing::Nothing,
        },
    }
}

/// Adds what stands before the arguments of a type of the module `home`.
fn put_named(
    text: &mut Vec<u16>,
    around: Around,
    home: &Name,
    name: &Name,
    parts: usize,
) -> Result<(), AllocError>
    ensures { OnOk result (text.new.items ≡ text.old.items ++
        (if nat_eq parts 0 then type_name home.now name.now else bracket (applied_closing around)
        ++ type_name home.now name.now)) }
{
    if parts == 0 {
        return put_type_name(text, home, name);
    }
    put(text, open_bracket(applied_end(around)))?;
    put_type_name(text, home, name)
}

/// Adds what stands before the fields of an open record, or the variable.
fn put_open(
    text: &mut Vec<u16>,
    leaf: &Leaf,
    names: &[Name],
    parts: usize,
) -> Result<(), AllocError>
    ensures { OnOk result (text.new.items ≡ text.old.items ++
        (if nat_eq parts 0 then leaf_name names.now (leaf_of leaf.now) else codes "{ "
        ++ (leaf_name names.now (leaf_of leaf.now) ++ codes " | "))) }
{
    if parts == 0 {
        return put_leaf(text, leaf, names);
    }
    put(text, b"{ ")?;
    put_leaf(text, leaf, names)?;
    put(text, b" | ")
}

/// Adds what stands before the parts of a node.
fn put_opening(
    text: &mut Vec<u16>,
    around: Around,
    node: &Node,
    names: &[Name],
) -> Result<(), AllocError>
    ensures { OnOk result (text.new.items ≡ text.old.items ++ opening_text (leaf_name names.now) around node.now) }
{
    match node {
        Node::Made(Head::Named(home, name), parts) => {
            put_named(text, around, home, name, *parts)
        }
        Node::Made(Head::Function, _) => put(text, open_bracket(function_end(around))),
        Node::Made(Head::Tuple, parts) => put(text, if *parts == 0 { b"()" } else { b"( " }),
        Node::Record(parts) => put(text, if *parts == 0 { b"{}" } else { b"{ " }),
        Node::Open(leaf, parts) => put_open(text, leaf, names, *parts),
        Node::Field(_) => Ok(()),
    }
}

/// Writes the node of a type, the next part of a frame that was taken off.
fn write_type(
    node: &Node,
    top: Frame,
    names: &[Name],
    frames: &mut Vec<Frame>,
    text: &mut Vec<u16>,
) -> Result<(), AllocError>
    requires { 0 < top.left }
    ensures text { OnOk result (text.new.items ≡ ((text.old.items ++ separator_of top.kind) ++ colon_of top.kind)
        ++ opening_text (leaf_name names.now) (around_of top.kind (top.left - 1)) node.now) }
    ensures frames { OnOk result (reverse frames.new.items ≡ frame_of (around_of top.kind (top.left - 1)) node.now
        ∷ frame (next_of top.kind) (top.left - 1) top.closing ∷ reverse frames.old.items) }
{
    let left = top.left - 1;
    let around = standing(top.kind, left);
    put(text, separator(top.kind))?;
    put(text, colon(top.kind))?;
    put_opening(text, around, node, names)?;
    let rest = Frame {
        kind: next(top.kind),
        left,
        closing: top.closing,
    };
    push_frame(frames, rest)?;
    push_frame(frames, frame_of(around, node))
}

/// Writes the name of a field, the next part of a frame that was taken off.
fn write_field(
    name: &Name,
    top: Frame,
    frames: &mut Vec<Frame>,
    text: &mut Vec<u16>,
) -> Result<(), AllocError>
    requires { 0 < top.left }
    ensures text { OnOk result (text.new.items ≡ ((text.old.items ++ separator_of top.kind) ++ name.now)
        ++ colon_of top.kind) }
    ensures frames { OnOk result (reverse frames.new.items ≡ frame Kind.Single 1 Closing.Nothing
        ∷ frame (next_of top.kind) (top.left - 1) top.closing ∷ reverse frames.old.items) }
{
    put(text, separator(top.kind))?;
    put_name(text, name)?;
    put(text, colon(top.kind))?;
    let rest = Frame {
        kind: next(top.kind),
        left: top.left - 1,
        closing: top.closing,
    };
    push_frame(frames, rest)?;
    let field = Frame {
        kind: Kind::Single,
        left: 1,
        closing: Closing::Nothing,
    };
    push_frame(frames, field)
}

/// Writes a node, the next part of a frame that was taken off.
fn write_part(
    node: &Node,
    top: Frame,
    names: &[Name],
    frames: &mut Vec<Frame>,
    text: &mut Vec<u16>,
) -> Result<(), AllocError>
    requires { 0 < top.left }
    ensures { OnOk result (Wrote (leaf_name names.now) node.now text.old.items text.new.items
        (top ∷ reverse frames.old.items) (reverse frames.new.items)) }
{
    match node {
        Node::Field(name) => {
            if has_fields(top.kind) {
                write_field(name, top, frames, text)?;
                return Ok(());
            }
            push_frame(frames, top)?;
            Ok(())
        }
        other => {
            write_type(other, top, names, frames, text)?;
            Ok(())
        }
    }
}

/// Writes a node.
fn write_node(
    node: &Node,
    names: &[Name],
    frames: &mut Vec<Frame>,
    text: &mut Vec<u16>,
) -> Result<(), AllocError>
    ensures { OnOk result (Wrote (leaf_name names.now) node.now text.old.items text.new.items
        (reverse frames.old.items) (reverse frames.new.items)) }
{
    match next_frame(frames, text)? {
        None => Ok(()),
        Some(top) => write_part(node, top, names, frames, text),
    }
}

/// The text of a type, in UTF-16 units. `names` has the names of its variables by their numbers. The error means that
/// memory ran out.
pub fn write(alloc: Global, ty: &Ty, names: &[Name]) -> Result<Vec<u16>, AllocError>
    ensures { IfOk result (λ text. text.items ≡ text_in (leaf_name names.now) Around.Alone (type_view ty.now)) }
{
    let mut text = Vec::new(alloc);
    let mut frames = Vec::new(alloc);
    let whole = Frame {
        kind: Kind::Single,
        left: 1,
        closing: Closing::Nothing,
    };
    push_frame(&mut frames, whole)?;
    for node in &ty.nodes {
        write_node(node, names, &mut frames, &mut text)?;
    }
    close_all(frames, &mut text)?;
    Ok(text)
}
