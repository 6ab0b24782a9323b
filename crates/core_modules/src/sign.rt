//! Types and declared unions, spelled sign by sign.

use elm_canon::unions::Tag;

/// A sign. It stands in front of its parts.
#[derive(Clone, Copy)]
pub(crate) enum Sign {
    /// A variable, by its name.
    Variable(&'static [u8]),
    /// A type of a module, by the module, the name and how many arguments it has.
    Named(&'static [u8], &'static [u8], usize),
    /// A function. Its parameter and its result follow.
    Function,
    /// A tuple of so many parts.
    Tuple(usize),
    /// A record of so many fields.
    Record(usize),
    /// A field. Its type follows.
    Field(&'static [u8]),
    /// A union, by its name, its module, and how many constructors and parameters it has.
    Union(&'static [u8], &'static [u8], usize, usize),
    /// A constructor, by its name, its tag and how many fields it has.
    Maker(&'static [u8], Tag, usize),
    /// The fields of a constructor: so many.
    Fields(usize),
}
