//! Where an expression or a block stands, from the inside.

ghost use Rattle.std.specs.Prelude.{◌≡◌, [], ◌∷◌, IfSome, IfNone, OnOk, OnErr, reverse};

use elm_base::units::Units;
use js_tree::tree::{Helper, Name, Operator};
use std::alloc::{AllocError, Global};
use std::marker::Model;

/// What an expression or a block stands in. The trees that were read before it lie on those of what is round it.
#[derive(Drop)]
pub enum Frame {
    /// The argument of the call of the last tree.
    Argument,
    /// The first expression in a bracket.
    First,
    /// The right one of an operator, after the last tree.
    Right(Operator),
    /// After the question mark, of the test that the last tree is.
    Then,
    /// After the colon.
    Else,
    /// The value of a field, after the fields before it.
    Field(Units),
    /// In a list, after the items before it.
    List,
    /// An argument of a function of the fixed text.
    Given(Helper),
    /// In a statement, after those before it.
    Const(Name),
    Let(Name),
    Assign(Name),
    Return,
    Test,
    /// In a line, after those before it.
    Line(Name),
    /// The decoder of the flags, after the lines and the program.
    Flags,
    /// The decoder of an incoming port, after the ports before it.
    Port(Units),
    /// The block of a function, of one that is called at once, after if and else, and of a loop.
    Body(Name),
    Called,
    ThenBlock,
    ElseBlock,
    Loop,
}

/// A stack of frames. A contract sees it as the list of the frames, the innermost one first.
#[derive(Drop)]
pub struct Frames {
    stack: Vec<Frame>,
}

impl Model for Frames {
    ghost use Rattle.std.specs.Prelude.{List, reverse};
    ghost use Rattle.js_scope.specs.declared.frames.Frame.{Frame};

    ghost Value = { List Frame };

    ghost view = { λ f. reverse f.stack.items };
}

impl Frames {
    /// No frames.
    pub fn new(alloc: Global) -> Frames
        ensures { result ≡ [] }
    {
        Frames {
            stack: Vec::new(alloc),
        }
    }

    /// Puts a frame inside of the others. The error means that memory ran out, and then they are as before.
    pub fn push(&mut self, frame: Frame) -> Result<(), AllocError>
        ensures ok { OnOk result (self.new ≡ frame ∷ self.old) }
        ensures err { OnErr result (self.new ≡ self.old) }
    {
        self.stack.push(frame)?;
        Ok(())
    }

    /// Takes the innermost frame off, if there is one.
    pub fn pop(&mut self) -> Option<Frame>
        ensures some { IfSome result (λ frame. self.old ≡ frame ∷ self.new) }
        ensures none { IfNone result (self.old ≡ []) }
        ensures left { IfNone result (self.new ≡ []) }
    {
        self.stack.pop()
    }
}
