//! What is left to do of a walk over trees.

ghost use Rattle.std.specs.Prelude.{◌≡◌, List, [], ◌∷◌, OnOk, IfSome, IfNone, reverse};

use std::alloc::{AllocError, Global};
use std::marker::Model;

/// Something left to do, mostly for the tree that ends at a place.
#[derive(Clone, Copy)]
pub(crate) enum Task {
    /// To visit an expression.
    Expression(usize),
    /// To visit the items of a list.
    Items(usize),
    /// To visit the fields of an object.
    Members(usize),
    /// To visit statements that others follow.
    Statements(usize),
    /// To visit a whole block whose names are bound.
    Block(usize),
    /// To visit a whole block that is nested in another.
    Inner(usize),
    /// To visit lines.
    Lines(usize),
    /// To bind the names that a block declares.
    BlockNames(usize),
    /// To bind the names that statements declare.
    StatementNames(usize),
    /// To bind the names of lines.
    LineNames(usize),
    /// To leave a block: how many names were bound before it, and when the function round it began.
    Leave { bound: usize, start: usize },
}

/// Tasks, the next one first.
#[derive(Drop)]
pub(crate) struct Tasks {
    tasks: Vec<Task>,
}

impl Model for Tasks {
    ghost use Rattle.std.specs.Prelude.{List, reverse};
    ghost use Rattle.js_scope.specs.declared.tasks.Task.{Task};

    ghost Value = { List Task };

    ghost view = { λ t. reverse t.tasks.items };
}

impl Tasks {
    /// Nothing to do.
    pub(crate) fn new(alloc: Global) -> Tasks
        ensures { result ≡ [] }
    {
        Tasks {
            tasks: Vec::new(alloc),
        }
    }

    /// Adds a task, which is done next.
    pub(crate) fn push(&mut self, task: Task) -> Result<(), AllocError>
        ensures { OnOk result (self.new ≡ task ∷ self.old) }
    {
        self.tasks.push(task)?;
        Ok(())
    }

    /// Takes the next task.
    pub(crate) fn pop(&mut self) -> Option<Task>
        ensures some { IfSome result (λ task. self.old ≡ task ∷ self.new) }
        ensures none { IfNone result (self.old ≡ []) }
    {
        self.tasks.pop()
    }
}
