//! `elmc make`.

ghost use Rattle.std.specs.Prelude.{◌<◌, Some};
ghost use Rattle.command_line.specs.Command.{make};
ghost use Rattle.elm_files.specs.Answers.{NoneFull};
ghost use Rattle.commands.specs.Outside.{outside};
ghost use Rattle.commands.specs.Promise.{KeepsPromise};

use crate::report::{file_failed, out_of_memory, printed, said};
use build_safety::laws::safety_law;
use build_workers::Gate;
use elm_files::{Files, Sink};
use elm_make::{BuildEnd, Outcome, build};
use std::alloc::Global;
use std::sync::Wait;
use std::thread::Threads;

/// Builds the program of the module at `entry`, and of all modules that it imports, into the file at `output`. Prints
/// on `out` that the program is written, or on `err` why it is not. `jobs` is the number of workers (1 to 64), and does
/// nothing yet. `gate` stands around the compile of all modules.
///
/// Returns the exit status of the process: 0 if the program is written; 1 if it is refused; 3 if a call on a file or a
/// sink failed; 4 if memory ran out.
pub fn make_program<R: Threads + Wait + Sync, F: Files, O: Sink, E: Sink, G: Gate + Sync>(
    rt: &R,
    alloc: Global,
    files: &mut F,
    out: &mut O,
    err: &mut E,
    entry: &str,
    output: &str,
    jobs: u32,
    gate: &G,
) -> u8
    requires files { NoneFull (F.faults files.old) }
    requires out { O.faults out.old < 18446744073709551615 }
    requires err { E.faults err.old < 18446744073709551615 }
    ensures { KeepsPromise (Some (make entry.now output.now jobs)) result
        (outside F.Files O.Sink E.Sink files.old out.old err.old)
        (outside F.Files O.Sink E.Sink files.new out.new err.new) }
{
    safety_law();
    match build(rt, alloc, files, entry, output, jobs, gate) {
        Ok(built) => match &built.outcome {
            Outcome::Text(_) => printed(out, err, &built.lines),
            Outcome::Stopped(_) | Outcome::Faulty(_) => said(err, &built.lines, 1),
        },
        Err(BuildEnd::File(path)) => file_failed(err, &path),
        Err(BuildEnd::NoMemory) => out_of_memory(err),
    }
}
