//! Types of declarations, as they are read from the last step to the first.

ghost use Rattle.std.specs.Prelude.{◌≤◌, length};

use elm_base::names::Name;
use elm_canon::tree::{Annotation, FieldType};

/// The types of a function from the last to the first.
#[derive(Drop)]
pub(crate) struct OpenFunction {
    pub(crate) types: Vec<Annotation>,
    ghost some: { 2 ≤ length types.items },
}

/// A type to which parts, fields or parameters may still be added. They stand from the last to the first.
#[derive(Drop)]
pub(crate) enum Opened {
    Variable(Name),
    Named(Name, Name, Vec<Annotation>),
    Function(OpenFunction),
    Tuple(Vec<Annotation>),
    Record(Option<Name>, Vec<FieldType>),
}
