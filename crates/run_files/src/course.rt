//! One run over two files.

ghost use Rattle.std.specs.Prelude.{◌≡◌, ◌<◌, ◌≤◌, IfErr, IfOk, IfSome, length};
ghost use Rattle.elm_files.specs.Answers.{NoneFull};
ghost use Rattle.js_tree.specs.Postorder.{ProgramOf, trees_of, top};
ghost use Rattle.js_tree.specs.Tree as plain;
ghost use Rattle.js_code.specs.Program.{program_view};
ghost use Rattle.js_code.specs.Ports.{names_of};
ghost use Rattle.run_files.specs.Given.{given};
ghost use Rattle.run_files.specs.Runs as runs;
ghost use Rattle.run_files.specs.Runs.{outcome_for};
ghost use Rattle.run_files.specs.RunEnd.{IsRun, HasCause, IsToldIfRose, LeavesAtEnd, Says};
ghost use Rattle.run_files.specs.Steps.{file_found, found_view, IsFileEnd, IsRunBy, IsShort, IsStop, OfProgram, OfText};
ghost use Rattle.run_files.specs.Steps.{StopsAt};

use crate::given::{Given, read_inputs};
use crate::lines::line_at;
use crate::session::run_session;
use bumpalo::Bump;
use elm_base::fault::Code;
use elm_base::position::Pos;
use elm_base::text::Text;
use elm_files::{FileError, Files, Got, Sink};
use js_code::load::load;
use js_code::program::Program;
use js_scope::{Refusal, read};
use js_tree::laws::stop_law;
use js_tree::trees::Trees;
use std::alloc::{AllocError, Global};

/// The most bytes that the text of a program may have.
const MAX_PROGRAM: u64 = 67_108_864;

/// The most bytes that the text of inputs may have.
const MAX_INPUTS: u64 = 4_194_304;

/// Keeps the value until the process ends. The values and the environments of a run refer to its code, so it is lent for
/// as long as that, and they have no lifetime of their own.
fn kept<'a, T: Drop + 'a>(alloc: Global, value: T) -> Result<&'a T, AllocError>
    ensures { IfOk result (λ kept. kept.now ≡ value) }
{
    let kept = Box::new(alloc, value)?;
    Ok(Box::leak(kept))
}

/// How a run ended.
#[derive(Drop)]
pub enum Ended {
    /// Every input was given.
    Ready,
    /// The run ended before that, and the line of its end was put.
    Stopped,
    /// There was no run. This line, with its line feed, says why.
    Refused(Vec<u8>),
}

/// Why a run was not done.
#[derive(Drop)]
pub enum RunEnd {
    /// A call on the file of this path failed.
    File(Text),
    /// A call on the sink failed.
    Sink,
    /// Memory ran out.
    NoMemory,
}

impl From<AllocError> for RunEnd {
    ghost use Rattle.std.specs.Prelude.{◌≡◌};
    ghost use Rattle.run_files.specs.declared.course.RunEnd.TheVariants.{NoMemory};

    ghost from_gives = { λ _ e. e ≡ NoMemory };

    fn from(_error: AllocError) -> RunEnd {
        RunEnd::NoMemory
    }
}

/// What a file holds, or the line of its fault.
#[derive(Drop)]
enum Found {
    Text(Vec<u8>),
    Refused(Vec<u8>),
}

/// The line of a fault of the whole file at `path`.
fn file_line(alloc: Global, code: Code, path: &str) -> Result<Vec<u8>, AllocError>
    ensures { IfOk result (λ line. line.items ≡ runs.file_line code path.now) }
{
    line_at(alloc, code, path, Pos { row: 1, column: 1 }, b"")
}

/// Reads the file at `path`, which may have at most `limit` bytes.
fn read_file<F: Files>(
    alloc: Global,
    files: &mut F,
    path: &str,
    limit: u64,
) -> Result<Found, RunEnd>
    requires { NoneFull (F.faults files.old) }
    ensures found { IfOk result (λ found. IfSome (F.tree files.old)
        (λ tree. found_view found ≡ file_found path.now limit (tree path.now))) }
    ensures short { IfOk result (IsShort limit) }
    ensures keeps { F.tree files.new ≡ F.tree files.old }
    ensures no_fault { IfOk result (λ _. F.faults files.new ≡ F.faults files.old) }
    ensures failed { IfErr result (λ end. IsFileEnd end (F.faults files.old) (F.faults files.new)) }
{
    let name = Text::copy(alloc, path.as_bytes())?;
    match files.read(path, limit) {
        Ok(Got::Bytes(text)) => Ok(Found::Text(text)),
        Ok(Got::TooLong) => {
            let line = file_line(alloc, Code::GivenFileTooLarge, path)?;
            Ok(Found::Refused(line))
        }
        Ok(Got::Absent) => {
            let line = file_line(alloc, Code::FileMissing, path)?;
            Ok(Found::Refused(line))
        }
        Err(FileError::Failed) => Err(RunEnd::File(name)),
        Err(FileError::NoMemory) => Err(RunEnd::NoMemory),
    }
}

/// Runs a program with the text of its inputs, which stands in the file at `path`.
fn run_given<O: Sink>(
    alloc: Global,
    bump: &'static Bump,
    out: &mut O,
    program: &Program,
    path: &str,
    text: &[u8],
    fuel: u32,
) -> Result<Ended, RunEnd>
    requires short { length text.now ≤ 4194304 }
    requires out { O.faults out.old < 18446744073709551615 }
    ensures said { IfOk result (λ ended. Says ended (outcome_for (program_view program.now) fuel path.now
        (given (names_of (program_view program.now).ins) text.now)) (O.text out.old) (O.text out.new)) }
    ensures no_fault { IfOk result (λ _. O.faults out.new ≡ O.faults out.old) }
    ensures part { IfErr result (λ end. StopsAt end (outcome_for (program_view program.now) fuel path.now
        (given (names_of (program_view program.now).ins) text.now)) (O.text out.old) (O.text out.new)
        (O.faults out.old) (O.faults out.new)) }
{
    match read_inputs(alloc, text, program.ins)? {
        Given::BadLine(row) => {
            let place = Pos { row, column: 1 };
            let line = line_at(alloc, Code::BadInputLine, path, place, b"")?;
            Ok(Ended::Refused(line))
        }
        Given::UnknownPort(row, port) => {
            let place = Pos { row, column: 1 };
            let line = line_at(alloc, Code::UnknownPort, path, place, port.as_bytes())?;
            Ok(Ended::Refused(line))
        }
        Given::Inputs(flags, inputs) => {
            run_session(alloc, bump, out, program, &flags, &inputs, fuel)
        }
    }
}

/// Runs a program with the inputs in the file `inputs`.
fn run_program<F: Files, O: Sink>(
    alloc: Global,
    bump: &'static Bump,
    files: &mut F,
    out: &mut O,
    program: &Program,
    inputs: &str,
    fuel: u32,
) -> Result<Ended, RunEnd>
    requires files { NoneFull (F.faults files.old) }
    requires out { O.faults out.old < 18446744073709551615 }
    ensures ran { IfOk result (λ ended. IsRunBy (F.tree files.old)
        (OfProgram (program_view program.now) fuel inputs.now) (O.text out.old) (O.text out.new) ended) }
    ensures keeps { F.tree files.new ≡ F.tree files.old }
    ensures no_fault { IfOk result (λ _. (F.faults files.new ≡ F.faults files.old)
        × (O.faults out.new ≡ O.faults out.old)) }
    ensures stopped { IfErr result (λ end. IsStop end (F.tree files.old)
        (OfProgram (program_view program.now) fuel inputs.now) (O.text out.old) (O.text out.new) (F.faults files.old)
        (F.faults files.new) (O.faults out.old) (O.faults out.new)) }
{
    match read_file(alloc, files, inputs, MAX_INPUTS)? {
        Found::Refused(line) => Ok(Ended::Refused(line)),
        Found::Text(text) => run_given(alloc, bump, out, program, inputs, &text, fuel),
    }
}

/// Runs the program that the last tree is, with the inputs in the file `inputs`.
fn run_trees<F: Files, O: Sink>(
    alloc: Global,
    files: &mut F,
    out: &mut O,
    trees: &'static Trees,
    inputs: &str,
    fuel: u32,
) -> Result<Ended, RunEnd>
    requires files { NoneFull (F.faults files.old) }
    requires out { O.faults out.old < 18446744073709551615 }
    ensures ran { IfOk result (λ ended. (p : plain.Program) → top (trees_of trees.now) ≡ ProgramOf p
        → IsRunBy (F.tree files.old) (OfProgram p fuel inputs.now) (O.text out.old) (O.text out.new) ended) }
    ensures keeps { F.tree files.new ≡ F.tree files.old }
    ensures no_fault { IfOk result (λ _. (F.faults files.new ≡ F.faults files.old)
        × (O.faults out.new ≡ O.faults out.old)) }
    ensures stopped { IfErr result (λ end. (p : plain.Program) → top (trees_of trees.now) ≡ ProgramOf p
        → IsStop end (F.tree files.old) (OfProgram p fuel inputs.now) (O.text out.old) (O.text out.new)
        (F.faults files.old) (F.faults files.new) (O.faults out.old) (O.faults out.new)) }
{
    let bump = kept(alloc, Bump::new(alloc))?;
    match load(alloc, bump, trees)? {
        Some(program) => run_program(alloc, bump, files, out, &program, inputs, fuel),
        // This does not happen: what was read is a program.
        None => Err(RunEnd::NoMemory),
    }
}

/// Runs the output whose text stands in the file `program`, with the inputs in the file `inputs`.
fn run_source<F: Files, O: Sink>(
    alloc: Global,
    files: &mut F,
    out: &mut O,
    program: &str,
    text: &[u8],
    inputs: &str,
    fuel: u32,
) -> Result<Ended, RunEnd>
    requires short { length text.now ≤ 67108864 }
    requires files { NoneFull (F.faults files.old) }
    requires out { O.faults out.old < 18446744073709551615 }
    ensures ran { IfOk result (λ ended. IsRunBy (F.tree files.old) (OfText program.now text.now fuel inputs.now)
        (O.text out.old) (O.text out.new) ended) }
    ensures keeps { F.tree files.new ≡ F.tree files.old }
    ensures no_fault { IfOk result (λ _. (F.faults files.new ≡ F.faults files.old)
        × (O.faults out.new ≡ O.faults out.old)) }
    ensures stopped { IfErr result (λ end. IsStop end (F.tree files.old) (OfText program.now text.now fuel inputs.now)
        (O.text out.old) (O.text out.new) (F.faults files.old) (F.faults files.new) (O.faults out.old)
        (O.faults out.new)) }
{
    stop_law();
    match read(alloc, text) {
        Ok(trees) => {
            let lent = kept(alloc, trees)?;
            run_trees(alloc, files, out, lent, inputs, fuel)
        }
        Err(Refusal::At(place)) => {
            let line = line_at(alloc, Code::NotElmcOutput, program, place, b"")?;
            Ok(Ended::Refused(line))
        }
        Err(Refusal::NoMemory) => Err(RunEnd::NoMemory),
    }
}

/// Runs the output in the file `program` with the flags and the inputs in the file `inputs`. Puts a line for each send,
/// for each refused input, and for an end before every input was given, as they arise.
///
/// Both are paths of `files`. `fuel` is the number of calls and turns of loops that the start may take. Each input may
/// take the same again. The memory of the program's code is not given back before the process ends.
pub fn run<F: Files, O: Sink>(
    alloc: Global,
    files: &mut F,
    out: &mut O,
    program: &str,
    inputs: &str,
    fuel: u32,
) -> Result<Ended, RunEnd>
    requires files { NoneFull (F.faults files.old) }
    requires out { O.faults out.old < 18446744073709551615 }

    // The outcome, what the run puts, and what it leaves.
    ensures ran { IfOk result (λ ended. IsRun (F.tree files.old) program.now inputs.now fuel (O.text out.old)
        (O.text out.new) ended) }
    ensures keeps { F.tree files.new ≡ F.tree files.old }
    ensures no_fault { IfOk result (λ _. (F.faults files.new ≡ F.faults files.old)
        × (O.faults out.new ≡ O.faults out.old)) }

    // Why there is no outcome, and what the run leaves then.
    ensures cause { IfErr result (λ end. HasCause end (F.faults files.old) (F.faults files.new) (O.faults out.old)
        (O.faults out.new)) }
    ensures told { IfErr result (λ end. IsToldIfRose end (F.faults files.old) (F.faults files.new) (O.faults out.old)
        (O.faults out.new)) }
    ensures part { IfErr result (λ end. LeavesAtEnd end (F.tree files.old) program.now inputs.now fuel
        (O.text out.old) (O.text out.new)) }
{
    match read_file(alloc, files, program, MAX_PROGRAM)? {
        Found::Refused(line) => Ok(Ended::Refused(line)),
        Found::Text(text) => run_source(alloc, files, out, program, &text, inputs, fuel),
    }
}
