//! Wire values.

use elm_base::units::Units;

/// A value that crosses between a program and its host: JSON (RFC 8259) without fractions, with texts as UTF-16
/// units, lone surrogates included.
#[cycle(wire)]
#[derive(Debug, Drop, PartialEq)]
pub enum Wire {
    Null,
    Bool(bool),
    /// A whole number, between plus and minus 9007199254740991.
    Int(i64),
    Text(Units),
    List(Vec<Wire>),
    /// The members, in the order of their names' units, each name once.
    Object(Vec<Member>),
}

/// A member of an object.
#[cycle(wire)]
#[derive(Debug, Drop, PartialEq)]
pub struct Member {
    pub name: Units,
    pub value: Wire,
}
