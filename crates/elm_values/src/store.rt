//! The stacks as one value.

use crate::value::Stacks;
use std::marker::Model;

/// The stacks. A contract sees them as they are.
#[derive(Drop)]
pub struct Store {
    pub held: Stacks,
}

impl Model for Store {
    ghost use Rattle.std.specs.Coded.{codes};
    ghost use Rattle.elm_values.specs.declared.value.Stacks.{Stacks};
    ghost use Rattle.elm_values.specs.contracts.value.Stacks as stacks;

    ghost Value = { Stacks };

    ghost coded = { Prim.hlevel (codes, stacks.the_row.coded) };

    ghost view = { λ s. s.held };
}
