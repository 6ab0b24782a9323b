//! What the type of a program's `main` says.

ghost use Rattle.std.specs.Prelude.{◌≡◌, ℕ, Some, codes, drop, map, IfOk};
ghost use Rattle.canon_type.specs.Ports.{is_type};
ghost use Rattle.elm_type.specs.Types.{ElmType, Leaf};
ghost use Rattle.elm_type.specs.View.{scheme_view, type_view, kind_view};
ghost use Rattle.port_payload.specs.Entry as spec;
ghost use Rattle.port_payload.specs.Entry.{entry_view, flags_in, with_flags};
ghost use Rattle.port_payload.specs.Fronts.{is_program_head, is_program_node, is_tuple_head, is_unit_node, first_is};

use crate::fields::flags_at;
use crate::part::second_type;
use elm_base::names::Name;
use elm_canon::tree::Payload;
use elm_type::head::Head;
use elm_type::node::Node;
use elm_type::scheme::Scheme;
use elm_type::type_text;
use std::alloc::{AllocError, Global};

/// What the type of a program's `main` says.
#[derive(Drop)]
pub enum EntryType {
    /// It is a program. Of flags of type `()`, which are read from everything, nothing is told.
    Program(Option<Payload>),
    /// It is a program, and there can be no flags of the type of its flags, with this text in UTF-8.
    BadFlags(Vec<u8>),
    /// It is not a program, and has this text in UTF-8.
    NoProgram(Vec<u8>),
}

/// `Platform`
const PLATFORM: [u16; 8] = [80, 108, 97, 116, 102, 111, 114, 109];

/// `Program`
const PROGRAM: [u16; 7] = [80, 114, 111, 103, 114, 97, 109];

/// Whether the type `name` of the module `home` is `Program`.
fn is_program_name(home: &Name, name: &Name) -> bool
    ensures { result ≡ is_type (codes "Platform") (codes "Program") home.now name.now }
{
    home.as_slice() == PLATFORM.as_slice() && name.as_slice() == PROGRAM.as_slice()
}

/// Whether it is the head of the type `Program`.
fn is_program_head(head: &Head) -> bool
    ensures { result ≡ is_program_head head.now }
{
    match head {
        Head::Named(home, name) => is_program_name(home, name),
        Head::Function => false,
        Head::Tuple => false,
    }
}

/// Whether it is the node of a type `Program` of three parts.
fn is_program_node(node: &Node) -> bool
    ensures { result ≡ is_program_node node.now }
{
    match node {
        Node::Made(head, count) => *count == 3 && is_program_head(head),
        Node::Record(_) => false,
        Node::Open(_, _) => false,
        Node::Field(_) => false,
    }
}

/// Whether the first node is that of a type `Program` of three parts.
fn is_program(nodes: &[Node]) -> bool
    ensures { result ≡ first_is is_program_node nodes.now }
{
    match nodes {
        [] => false,
        [node, ..] => is_program_node(node),
    }
}

/// Whether it is the head of tuples.
fn is_tuple_head(head: &Head) -> bool
    ensures { result ≡ is_tuple_head head.now }
{
    match head {
        Head::Named(_, _) => false,
        Head::Function => false,
        Head::Tuple => true,
    }
}

/// Whether it is the node of the type `()`.
fn is_unit_node(node: &Node) -> bool
    ensures { result ≡ is_unit_node node.now }
{
    match node {
        Node::Made(head, count) => *count == 0 && is_tuple_head(head),
        Node::Record(_) => false,
        Node::Open(_, _) => false,
        Node::Field(_) => false,
    }
}

/// Whether the second node is that of the type `()`.
fn is_unit(nodes: &[Node]) -> bool
    ensures { result ≡ first_is is_unit_node (drop 1 nodes.now) }
{
    match nodes {
        [] => false,
        [_] => false,
        [_, node, ..] => is_unit_node(node),
    }
}

/// What a program's type says.
fn program_type(alloc: Global, scheme: &Scheme) -> Result<EntryType, AllocError>
    requires { (t : ElmType (Leaf ℕ)) × (flags_in (type_view scheme.now.ty) ≡ Some t) }
    ensures { IfOk result (λ e. (t : ElmType (Leaf ℕ)) → flags_in (type_view scheme.now.ty) ≡ Some t
        → entry_view e ≡ with_flags (map kind_view scheme.now.kinds.items) t) }
{
    if is_unit(&scheme.ty.nodes) {
        return Ok(EntryType::Program(None));
    }
    match flags_at(alloc, &scheme.ty.nodes, 1)? {
        Some(payload) => Ok(EntryType::Program(Some(payload))),
        None => {
            let flags = second_type(alloc, scheme)?;
            Ok(EntryType::BadFlags(type_text(alloc, &flags)?))
        }
    }
}

/// What the type `scheme` of a program's `main` says: whether it is a program, and what its flags are. The error means
/// that memory ran out.
pub fn entry_type(alloc: Global, scheme: &Scheme) -> Result<EntryType, AllocError>
    ensures { IfOk result (λ e. entry_view e ≡ spec.entry_type (scheme_view scheme.now)) }
{
    if is_program(&scheme.ty.nodes) {
        let entry = program_type(alloc, scheme)?;
        Ok(entry)
    } else {
        Ok(EntryType::NoProgram(type_text(alloc, scheme)?))
    }
}
