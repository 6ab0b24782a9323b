//! The command line of `elmc`: `elmc make ENTRY --output=FILE [--jobs=N]` and `elmc run JSFILE INPUTS [--fuel=N]`.
//!
//! `clap` reads the words. `specs/Given.antt` says what they mean without it.
#![tactic(auto)]

ghost use Rattle.std.specs.Prelude.{◌≡◌, IfOk, map, option_map, string_bytes};
ghost use Rattle.command_line.specs.Command.{meaning};
ghost use Rattle.command_line.specs.Given.{command_line};
ghost use Rattle.command_line.specs.Laws.{Laws};
ghost use Rattle.command_line.specs.Examples.{Examples};

mod by_clap;
mod numbers;
mod words;

use by_clap::command_by_clap;
use std::alloc::{AllocError, Global};
pub use words::Command;

/// The command that the words of the process ask for. The first word is the name of the program. The result is `None`
/// if the words are not a command; `--help` and `--version` are not. The only error is out of memory.
pub fn command<'a>(alloc: Global, words: &'a [String]) -> Result<Option<Command<'a>>, AllocError>
    ensures { IfOk result (λ r. option_map meaning r ≡ command_line (map string_bytes words.now)) }
{
    command_by_clap(alloc, words)
}

/// Laws of command lines.
pub fn laws()
    ensures { Laws }
{}

/// Command lines, and what they are.
pub fn examples()
    ensures { Examples }
{}
