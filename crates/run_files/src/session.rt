//! A run, printed line by line.

ghost use Rattle.std.specs.Prelude.{◌≡◌, ◌<◌, IfErr, IfOk, OnOk, map};
ghost use Rattle.elm_files.specs.Texts.{longer};
ghost use Rattle.wire_value.specs.View.{wire_view};
ghost use Rattle.js_code.specs.Program.{program_view};
ghost use Rattle.js_meaning.specs.Run.{JsRun};
ghost use Rattle.js_run.specs.Sessions.{answer_input, told};
ghost use Rattle.js_run.specs.Views.{answer_view, app_view, end_view, machine_of};
ghost use Rattle.run_files.specs.Told.{told_text};
ghost use Rattle.run_files.specs.View.{input_view};
ghost use Rattle.run_files.specs.Steps.{answer_text, begun_trace, goes_on, is_done, IsBegun, IsRunning, PutsPart};
ghost use Rattle.run_files.specs.Steps.{Tells};

use crate::course::{Ended, RunEnd};
use crate::given::Input;
use crate::lines::{input_lines, start_lines};
use bumpalo::Bump;
use elm_files::{FileError, Sink};
use js_code::program::Program;
use js_run::app::{Answer, App, End, input, laws, start};
use std::alloc::Global;
use wire_value::Wire;

/// Whether the start is done.
fn is_done(end: &End) -> bool
    ensures { result ≡ is_done (end_view end.now) }
{
    match end {
        End::Ready => true,
        End::Refused | End::Crashed(_) | End::OutOfFuel | End::Unsafe | End::Stuck => false,
    }
}

/// Whether an input is done or refused, so that the next one can be given.
fn goes_on(end: &End) -> bool
    ensures { result ≡ goes_on (end_view end.now) }
{
    match end {
        End::Ready | End::Refused => true,
        End::Crashed(_) | End::OutOfFuel | End::Unsafe | End::Stuck => false,
    }
}

/// Puts lines on the sink.
fn put<O: Sink>(out: &mut O, lines: &[u8]) -> Result<(), RunEnd>
    requires { O.faults out.old < 18446744073709551615 }
    ensures ok { OnOk result (O.text out.new ≡ longer (O.text out.old) lines.now) }
    ensures no_fault { OnOk result (O.faults out.new ≡ O.faults out.old) }
    ensures part { IfErr result (λ end. PutsPart end lines.now (O.text out.old) (O.text out.new) (O.faults out.old)
        (O.faults out.new)) }
{
    match out.put(lines) {
        Ok(()) => Ok(()),
        Err(FileError::Failed) => Err(RunEnd::Sink),
        Err(FileError::NoMemory) => Err(RunEnd::NoMemory),
    }
}

/// Gives an input to a waiting program, and puts the lines of its answer. Returns whether the next input can be given.
#[tactic(auto, using(crate::proofs::Remains::nothing))]
fn give<O: Sink>(
    alloc: Global,
    app: &mut App,
    out: &mut O,
    given: &Input,
    fuel: u32,
) -> Result<bool, RunEnd>
    requires { O.faults out.old < 18446744073709551615 }
    ensures app { IfOk result (λ on. app_view app.new ≡ (answer_input (machine_of app.old) fuel (input_view given.now)
        (app_view app.old)).0) }
    ensures on { IfOk result (λ on. on ≡ goes_on (answer_input (machine_of app.old) fuel (input_view given.now)
        (app_view app.old)).1.1) }
    ensures text { IfOk result (λ on. O.text out.new ≡ longer (O.text out.old)
        (answer_text given.now.port (answer_input (machine_of app.old) fuel (input_view given.now)
        (app_view app.old)).1)) }
    ensures keeps { machine_of app.new ≡ machine_of app.old }
    ensures no_fault { IfOk result (λ _. O.faults out.new ≡ O.faults out.old) }
    ensures part { IfErr result (λ end. PutsPart end (answer_text given.now.port
        (answer_input (machine_of app.old) fuel (input_view given.now) (app_view app.old)).1) (O.text out.old)
        (O.text out.new) (O.faults out.old) (O.faults out.new)) }
{
    let answer = input(alloc, app, given.port.as_slice(), &given.value, fuel)?;
    let lines = input_lines(alloc, given.port.as_slice(), &answer)?;
    put(out, &lines)?;
    Ok(goes_on(&answer.end))
}

/// Gives a waiting program its inputs, one after the other, until it ends.
fn give_all<O: Sink>(
    alloc: Global,
    app: &mut App,
    out: &mut O,
    inputs: &[Input],
    fuel: u32,
) -> Result<Ended, RunEnd>
    requires running { IsRunning (app_view app.old) }
    requires out { O.faults out.old < 18446744073709551615 }
    ensures told { IfOk result (λ ended. Tells ended (told (machine_of app.old) fuel (map input_view inputs.now)
        (app_view app.old)) (O.text out.old) (O.text out.new)) }
    ensures no_fault { IfOk result (λ _. O.faults out.new ≡ O.faults out.old) }
    ensures part { IfErr result (λ end. PutsPart end (told_text
        (told (machine_of app.old) fuel (map input_view inputs.now) (app_view app.old))) (O.text out.old)
        (O.text out.new) (O.faults out.old) (O.faults out.new)) }
{
    for given in inputs {
        match give(alloc, app, out, given, fuel) {
            Ok(true) => (),
            Ok(false) => return Ok(Ended::Stopped),
            Err(end) => return Err(end),
        }
    }
    Ok(Ended::Ready)
}

/// Puts the lines of the start, and gives the program its inputs if the start is done.
#[tactic(auto, using(crate::proofs::Remains::nothing))]
fn go_on<O: Sink>(
    alloc: Global,
    app: &mut App,
    answer: &Answer,
    out: &mut O,
    inputs: &[Input],
    fuel: u32,
) -> Result<Ended, RunEnd>
    requires begun { IsBegun (app_view app.old) (answer_view answer.now).1 }
    requires out { O.faults out.old < 18446744073709551615 }
    ensures told { IfOk result (λ ended. Tells ended (begun_trace (machine_of app.old) fuel
        (map input_view inputs.now) (app_view app.old) (answer_view answer.now).0) (O.text out.old) (O.text out.new)) }
    ensures no_fault { IfOk result (λ _. O.faults out.new ≡ O.faults out.old) }
    ensures part { IfErr result (λ end. PutsPart end (told_text
        (begun_trace (machine_of app.old) fuel (map input_view inputs.now) (app_view app.old)
        (answer_view answer.now).0)) (O.text out.old) (O.text out.new) (O.faults out.old) (O.faults out.new)) }
{
    let lines = start_lines(alloc, answer)?;
    if let Err(end) = put(out, &lines) {
        return Err(end);
    }
    if !is_done(&answer.end) {
        return Ok(Ended::Stopped);
    }
    give_all(alloc, app, out, inputs, fuel)
}

/// Starts a program with its flags, gives it its inputs, and puts the lines of its answers as they arise.
#[tactic(auto, using(crate::proofs::Remains::nothing, crate::proofs::Giving::session_begun))]
pub fn run_session<O: Sink>(
    alloc: Global,
    bump: &'static Bump,
    out: &mut O,
    program: &Program,
    flags: &Wire,
    inputs: &[Input],
    fuel: u32,
) -> Result<Ended, RunEnd>
    requires { O.faults out.old < 18446744073709551615 }
    ensures told { IfOk result (λ ended. Tells ended (JsRun (program_view program.now) (wire_view flags.now)
        (map input_view inputs.now) fuel) (O.text out.old) (O.text out.new)) }
    ensures no_fault { IfOk result (λ _. O.faults out.new ≡ O.faults out.old) }
    ensures part { IfErr result (λ end. PutsPart end (told_text
        (JsRun (program_view program.now) (wire_view flags.now) (map input_view inputs.now) fuel)) (O.text out.old)
        (O.text out.new) (O.faults out.old) (O.faults out.new)) }
{
    laws();
    let (mut app, answer) = start(alloc, bump, program, flags, fuel)?;
    go_on(alloc, &mut app, &answer, out, inputs, fuel)
}
