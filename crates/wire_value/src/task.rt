//! Pieces of a text that are still to be written. A step of a piece writes its front and leaves its parts, which come
//! next.

use crate::{Member, Wire};

/// A piece of a text that is still to be written.
#[derive(Clone, Copy)]
pub enum Task<'a> {
    /// A value.
    Value(&'a Wire),
    /// Items after another one, and the end of the list.
    Items(&'a [Wire]),
    /// Members after another one, and the end of the object.
    Members(&'a [Member]),
}
