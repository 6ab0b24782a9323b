//! The steps of a type of a declaration.

use elm_base::names::Name;

/// A step, which stands before the types that it is made of.
#[derive(Drop)]
pub(crate) enum Step {
    /// A variable.
    Variable(Name),
    /// A type of a module, by the module and the name, without arguments.
    Named(Name, Name),
    /// `()`
    Tuple,
    /// `{}`
    Record,
    /// A record over a variable, without fields.
    Extended(Name),
    /// The second type after it, with the first as one more argument or part, before the others.
    Part,
    /// A function of the first type after it to the second.
    Function,
    /// The record that is the second type after it, with one more field of this name and of the first type, before the
    /// others.
    Field(Name),
}
