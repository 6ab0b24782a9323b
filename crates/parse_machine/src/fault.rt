//! Why tokens were not read.

ghost use Rattle.std.specs.Prelude.{◌≡◌};
ghost use Rattle.parse_machine.specs.declared.fault.Fault.TheVariants.{Memory};

use crate::table::{Step, Token};
use std::alloc::AllocError;

/// Why tokens were not read.
#[derive(Drop)]
pub enum Fault<'a> {
    /// Out of memory.
    Memory,
    /// The tokens before `at` begin some text of the kind, and no text goes on as `at` does.
    At {
        /// The tokens from the fault on. It is empty where the text ends too early.
        at: &'a [Token],
        /// The steps that read the tokens before the fault.
        steps: Vec<Step>,
    },
}

impl<'a> From<AllocError> for Fault<'a> {
    ghost from_gives = { λ _ e. e ≡ Memory };

    fn from(_e: AllocError) -> Fault<'a> {
        Fault::Memory
    }
}
