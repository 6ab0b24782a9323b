//! What the program prints on its sinks.

ghost use Rattle.std.specs.Prelude.{◌≡◌, ◌<◌, IfOk};
ghost use Rattle.elm_files.specs.Answers.{FailedIffRose};
ghost use Rattle.elm_files.specs.States.{sink_state};
ghost use Rattle.elm_files.specs.Texts.{LongerByPart, longer};
ghost use Rattle.commands.specs.Causes.{failure_line, memory_line};
ghost use Rattle.commands.specs.Report.{Prints, Says};

use elm_base::text::Text;
use elm_files::{FileError, Sink};

/// Prints a line on `out`, and returns 0; 3 if that fails, and 4 if memory runs out.
pub fn printed<O: Sink, E: Sink>(out: &mut O, err: &mut E, line: &[u8]) -> u8
    requires { O.faults out.old < 18446744073709551615 }
    ensures { Prints line.now
        (sink_state O.Sink out.old) (sink_state O.Sink out.new)
        (sink_state E.Sink err.old) (sink_state E.Sink err.new) result }
{
    match out.put(line) {
        Ok(()) => 0,
        Err(FileError::Failed) => 3,
        Err(FileError::NoMemory) => out_of_memory(err),
    }
}

/// Prints lines on `err`, and returns `status`; 3 if that fails, and 4 if memory runs out.
pub fn said<E: Sink>(err: &mut E, lines: &[u8], status: u8) -> u8
    requires { E.faults err.old < 18446744073709551615 }
    ensures { Says lines.now status (sink_state E.Sink err.old) (sink_state E.Sink err.new) result }
{
    match err.put(lines) {
        Ok(()) => status,
        Err(FileError::Failed) => 3,
        Err(FileError::NoMemory) => out_of_memory(err),
    }
}

/// Reports that the file at `path` failed. This needs no memory, so out of memory never hides the failure.
pub fn file_failed<E: Sink>(err: &mut E, path: &Text) -> u8
    ensures status { result ≡ 3 }
    ensures told { LongerByPart (E.text err.old) (failure_line path.now) (E.text err.new) }
{
    let _ = put_failure(err, path);
    3
}

/// Prints `elmc: failed: PATH`, piece by piece.
fn put_failure<E: Sink>(err: &mut E, path: &Text) -> Result<(), FileError>
    ensures whole { IfOk result (λ _. E.text err.new ≡ longer (E.text err.old) (failure_line path.now)) }
    ensures part { LongerByPart (E.text err.old) (failure_line path.now) (E.text err.new) }
    ensures failed { FailedIffRose result (E.faults err.old) (E.faults err.new) }
{
    err.put(b"elmc: failed: ")?;
    err.put(path.as_bytes())?;
    err.put(b"\n")
}

/// Reports that memory ran out.
pub fn out_of_memory<E: Sink>(err: &mut E) -> u8
    ensures status { result ≡ 4 }
    ensures told { LongerByPart (E.text err.old) memory_line (E.text err.new) }
{
    let _ = err.put(b"elmc: out of memory\n");
    4
}
