//! The nodes of a type.

ghost use Rattle.std.specs.Prelude.{◌≡◌, IfOk};

use crate::head::Head;
use crate::rigid::Rigid;
use elm_base::names::Name;
use std::alloc::AllocError;

/// A variable, or a rigid constant.
#[derive(Drop)]
pub enum Leaf {
    /// A variable, by its number.
    Free(u32),
    /// A rigid constant.
    Fixed(Rigid),
}

/// A node of a type.
#[derive(Drop)]
pub enum Node {
    /// A type of a head, before so many parts.
    Made(Head, usize),
    /// A record without further fields, before so many fields.
    Record(usize),
    /// A record over a variable, before so many fields. Without fields it is the variable.
    Open(Leaf, usize),
    /// The name of a field, before its type.
    Field(Name),
}

impl Leaf {
    /// The same variable or constant once more. The error means that memory ran out.
    pub fn copy(&self) -> Result<Leaf, AllocError>
        ensures { IfOk result (λ copy. copy ≡ self.now) }
    {
        match self {
            Leaf::Free(number) => Ok(Leaf::Free(*number)),
            Leaf::Fixed(constant) => Ok(Leaf::Fixed(constant.clone()?)),
        }
    }
}

impl Node {
    /// The same node once more. Names and constants are shared. The error means that memory ran out.
    pub fn copy(&self) -> Result<Node, AllocError>
        ensures { IfOk result (λ copy. copy ≡ self.now) }
    {
        match self {
            Node::Made(head, count) => Ok(Node::Made(head.copy()?, *count)),
            Node::Record(count) => Ok(Node::Record(*count)),
            Node::Open(leaf, count) => Ok(Node::Open(leaf.copy()?, *count)),
            Node::Field(name) => Ok(Node::Field(name.clone()?)),
        }
    }
}
