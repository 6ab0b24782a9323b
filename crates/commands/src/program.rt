//! The one call that `main` makes.

ghost use Rattle.std.specs.Prelude.{◌<◌, map, string_bytes};
ghost use Rattle.command_line.specs.Given.{command_line};
ghost use Rattle.elm_files.specs.Answers.{NoneFull};
ghost use Rattle.commands.specs.Outside.{outside};
ghost use Rattle.commands.specs.Promise.{KeepsPromise};

use crate::make::make_program;
use crate::report::{out_of_memory, said};
use crate::run::run_program;
use build_safety::laws::safety_law;
use build_workers::Gate;
use command_line::{Command, command};
use elm_files::{Files, Sink};
use std::alloc::Global;
use std::sync::Wait;
use std::thread::Threads;

/// What is printed for words that are not a command.
const USAGE: &[u8] = b"usage: elmc make ENTRY --output=FILE [--jobs=N]
usage: elmc run JSFILE INPUTS [--fuel=N]
usage: elmc session SCRIPT
usage: elmc gen COUNT SEED [--jobs=N]
";

/// Runs the command that `words` ask for over `files`. The first word is the name of the program. What the command
/// prints goes to `out`, and why it is refused to `err`. `gate` stands around the
/// compile of a build.
///
/// Returns the exit status of the process: 0 if the command is done; 1 if it is refused, or if a run ended before every
/// input was given; 2 if the words are not a command; 3 if a call on a file or a sink failed; 4 if memory ran out. The
/// first of these to occur ends the command.
pub fn top<R: Threads + Wait + Sync, F: Files, O: Sink, E: Sink, G: Gate + Sync>(
    rt: &R,
    alloc: Global,
    words: &[String],
    files: &mut F,
    out: &mut O,
    err: &mut E,
    gate: &G,
) -> u8
    requires files { NoneFull (F.faults files.old) }
    requires out { O.faults out.old < 18446744073709551615 }
    requires err { E.faults err.old < 18446744073709551615 }

    // The words and the files alone give the effect of the command (`specs/Effect.antt`). The promise has a field for
    // each fact (`specs/Promise.antt`): what a status says of the effect, and what is printed and left if a call fails.
    ensures { KeepsPromise (command_line (map string_bytes words.now)) result
        (outside F.Files O.Sink E.Sink files.old out.old err.old)
        (outside F.Files O.Sink E.Sink files.new out.new err.new) }
{
    safety_law();
    let Ok(asked) = command(alloc, words) else {
        return out_of_memory(err);
    };
    match asked {
        Some(
            Command::Make {
                entry,
                output,
                jobs,
            },
        ) => make_program(rt, alloc, files, out, err, entry, output, jobs, gate),
        Some(
            Command::Run {
                program,
                inputs,
                fuel,
            },
        ) => run_program(alloc, files, out, err, program, inputs, fuel),
        None => said(err, USAGE, 2),
    }
}
