//! `elmc run`.

ghost use Rattle.std.specs.Prelude.{◌<◌, Some};
ghost use Rattle.command_line.specs.Command as command;
ghost use Rattle.elm_files.specs.Answers.{NoneFull};
ghost use Rattle.commands.specs.Outside.{outside};
ghost use Rattle.commands.specs.Promise.{KeepsPromise};

use crate::report::{file_failed, out_of_memory, said};
use elm_files::{Files, Sink};
use run_files::{Ended, RunEnd, run};
use std::alloc::Global;

/// Runs the JavaScript in the file at `program` on the inputs in the file at `inputs`. Prints the text of the run on
/// `out`, or on `err` why there is none. `fuel` is the number of calls of functions and turns of loops that the start
/// may take. Each input may take the same again.
///
/// Returns the exit status of the process: 0 if every input was given; 1 if the run ended before that, or is refused; 3
/// if a call on a file or a sink failed; 4 if memory ran out.
pub fn run_program<F: Files, O: Sink, E: Sink>(
    alloc: Global,
    files: &mut F,
    out: &mut O,
    err: &mut E,
    program: &str,
    inputs: &str,
    fuel: u32,
) -> u8
    requires files { NoneFull (F.faults files.old) }
    requires out { O.faults out.old < 18446744073709551615 }
    requires err { E.faults err.old < 18446744073709551615 }
    ensures { KeepsPromise (Some (command.run program.now inputs.now fuel)) result
        (outside F.Files O.Sink E.Sink files.old out.old err.old)
        (outside F.Files O.Sink E.Sink files.new out.new err.new) }
{
    match run(alloc, files, out, program, inputs, fuel) {
        Ok(Ended::Ready) => 0,
        Ok(Ended::Stopped) => 1,
        Ok(Ended::Refused(line)) => said(err, &line, 1),
        Err(RunEnd::File(path)) => file_failed(err, &path),
        Err(RunEnd::Sink) => 3,
        Err(RunEnd::NoMemory) => out_of_memory(err),
    }
}
