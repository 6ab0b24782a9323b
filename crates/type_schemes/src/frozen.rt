//! Frozen types.

use elm_base::names::Name;
use elm_type::head::Head;
use elm_type::scheme::Kind;

/// A part of a frozen type.
#[derive(Clone, Copy)]
pub enum Part {
    /// A type of the list, by its place.
    Inner(u32),
    /// The type of a variable of the store, by its number.
    Outer(u32),
}

/// The name of a field, and its type.
#[derive(Drop)]
pub struct FieldPart {
    pub name: Name,
    pub part: Part,
}

/// One level of a frozen type.
#[derive(Drop)]
pub enum FrozenCell {
    /// Any type of this kind.
    Open(Kind),
    /// A type of this head, with its parts.
    Built(Head, Vec<Part>),
    /// A record with these fields, in ascending order of their names, and those of another part, if there is one.
    Row(Vec<FieldPart>, Option<Part>),
}

/// The type of a general name: a list, in which parts stand before what is made of them, and which part is the type.
#[derive(Drop)]
pub struct Frozen {
    pub cells: Vec<FrozenCell>,
    pub root: Part,
}
