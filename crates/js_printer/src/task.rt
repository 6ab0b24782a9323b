//! Pieces of a text that are still to be written. A step of a piece writes its front and leaves its parts, which come
//! next.

ghost use Rattle.std.specs.Prelude.{◌≡◌, ◌++◌, reverse, OnOk};

use std::alloc::AllocError;

/// A piece of a text that is still to be written. A place is where the tree ends that the piece is of.
#[derive(Clone, Copy, Debug)]
pub enum Task {
    /// These bytes.
    Bytes(&'static [u8]),
    /// An expression.
    Expression(usize),
    /// The brackets after an object, with the name of its field.
    Key(usize),
    /// Items with commas between them.
    Items(usize),
    /// Items, each ended by its comma.
    ItemsBefore(usize),
    /// Fields with commas between them.
    Members(usize),
    /// Fields, each ended by its comma.
    MembersBefore(usize),
    /// The last one of fields.
    Member(usize),
    /// The statements of a block before its last one.
    Statements(usize),
    /// The last one of these.
    Statement(usize),
    /// A whole block.
    Block(usize),
    /// The lines of constants.
    Lines(usize),
    /// The last one of lines.
    Line(usize),
    /// A whole program.
    Program(usize),
    /// The line of `_main` of a program.
    Main(usize),
    /// The outgoing ports of a program, as fields.
    Outs(usize),
}

/// Puts pieces before those that are left, the first of which is the last in the list.
pub fn push_parts(tasks: &mut Vec<Task>, parts: &[Task]) -> Result<(), AllocError>
    ensures { OnOk result (tasks.new.items ≡ tasks.old.items ++ reverse parts.now) }
{
    for part in parts.iter().rev() {
        tasks.push(*part)?;
    }
    Ok(())
}
