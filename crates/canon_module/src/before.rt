//! The annotation before a declaration.

ghost use Rattle.std.specs.Prelude.{◌≡◌, Some, None, OnOk, IsOkAnd};

use crate::outcomes::{keep, set};
use elm_canon::tree::Annotation;
use std::alloc::AllocError;
use std::marker::Model;

/// The annotation that stands before a declaration, if one does. A contract sees that alone.
#[derive(Drop)]
pub struct Before {
    annotation: Option<Annotation>,
}

impl Model for Before {
    ghost use Rattle.std.specs.Prelude.{Option};
    ghost use Rattle.std.specs.Coded.{codes};
    ghost use Rattle.elm_canon.specs.contracts.tree.Annotation as row;
    ghost use Rattle.elm_canon.specs.declared.tree.Annotation.{Annotation};

    ghost Value = { Option Annotation };

    ghost coded = { Prim.hlevel (codes, row.the_row.coded) };

    ghost view = { λ b. b.annotation };
}

impl Before {
    /// None.
    pub(crate) fn none() -> Before
        ensures { result ≡ None }
    {
        Before { annotation: None }
    }

    /// None stands there any more.
    pub(crate) fn forget(&mut self)
        ensures { self.new ≡ None }
    {
        set(&mut self.annotation, None);
    }

    /// This one stands there, if it is made.
    pub(crate) fn keep(&mut self, made: Result<Annotation, AllocError>) -> Result<(), AllocError>
        ensures { OnOk result (IsOkAnd made (λ annotation. self.new ≡ Some annotation)) }
    {
        keep(&mut self.annotation, made)
    }

    /// Takes it out.
    pub(crate) fn take(&mut self) -> Option<Annotation>
        ensures taken { result ≡ self.old }
        ensures left { self.new ≡ None }
    {
        self.annotation.take()
    }
}
