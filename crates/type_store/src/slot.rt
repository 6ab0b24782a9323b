//! Type variables, and what is known of them.

use elm_base::names::Name;
use elm_type::class::Class;
use elm_type::head::Head;
use elm_type::rigid::Rigid;

/// A field of a record: its name, and the variable of its type.
#[derive(Drop)]
pub struct FieldSlot {
    pub name: Name,
    pub slot: u32,
}

/// What is known of a variable's type, beside its kind. The parts of a type are variables too.
#[derive(Drop)]
pub enum Cell {
    /// Nothing.
    Open,
    /// It is the type of a variable that was made before.
    Bound(u32),
    /// A type of this head, with its parts.
    Built(Head, Vec<u32>),
    /// A record with these fields, in ascending order of their names, and those of a variable, if there is one.
    Row(Vec<FieldSlot>, Option<u32>),
    /// A rigid constant.
    Constant(Rigid),
}

/// A variable: what is known of its type, the class that it is of, the fields that it lacks, and how many definitions
/// it was made inside, or a lower number, where a variable with that number leads to it.
#[derive(Drop)]
pub struct Slot {
    pub cell: Cell,
    pub class: Class,
    pub lacks: Vec<Name>,
    pub depth: u32,
}
