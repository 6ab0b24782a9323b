//! Lines of faults, and those of an answer.

ghost use Rattle.std.specs.Prelude.{◌≡◌, ◌++◌, IfOk, OnOk};
ghost use Rattle.js_run.specs.Stages.{sends_view};
ghost use Rattle.js_run.specs.Sessions.{last_of};
ghost use Rattle.js_run.specs.Views.{answer_view, end_view};
ghost use Rattle.run_files.specs.Told.{last_line, sends_text};
ghost use Rattle.run_files.specs.Runs as runs;
ghost use Rattle.run_files.specs.Steps.{answer_text, end_line, start_text};

use crate::told::{
    put_crash, put_flags_refused, put_out_of_fuel, put_refused, put_send, put_stuck, put_unsafe,
};
use elm_base::fault::{Code, Fault, fault_line};
use elm_base::position::{Pos, Region};
use elm_base::text::Text;
use js_run::app::{Answer, End};
use js_run::stage::Sent;
use std::alloc::{AllocError, Global};

/// The line of a fault in the file at `path`.
pub fn line_at(
    alloc: Global,
    code: Code,
    path: &str,
    place: Pos,
    detail: &[u8],
) -> Result<Vec<u8>, AllocError>
    ensures { IfOk result (λ line. line.items ≡ runs.line_at code path.now place.row place.column detail.now) }
{
    let fault = Fault {
        code,
        path: Text::copy(alloc, path.as_bytes())?,
        region: Region {
            start: place,
            end: place,
        },
        detail: Text::copy(alloc, detail)?,
    };
    fault_line(alloc, &fault)
}

/// Adds the lines of sends.
fn put_sends(alloc: Global, out: &mut Vec<u8>, sends: &[Sent]) -> Result<(), AllocError>
    ensures { OnOk result (out.new.items ≡ out.old.items ++ sends_text (sends_view sends.now)) }
{
    for sent in sends {
        put_send(alloc, out, sent.port.as_slice(), &sent.value)?;
    }
    Ok(())
}

/// Adds the line of an end of the start, if it has one.
fn put_last(out: &mut Vec<u8>, end: &End) -> Result<(), AllocError>
    ensures { OnOk result (out.new.items ≡ out.old.items ++ last_line (last_of (end_view end.now))) }
{
    match end {
        End::Ready => Ok(()),
        End::Refused => put_flags_refused(out),
        End::Crashed(text) => put_crash(out, text.as_slice()),
        End::OutOfFuel => put_out_of_fuel(out),
        End::Unsafe => put_unsafe(out),
        End::Stuck => put_stuck(out),
    }
}

/// Adds the line of an end of an input at this port, if it has one.
fn put_end(alloc: Global, out: &mut Vec<u8>, port: &[u16], end: &End) -> Result<(), AllocError>
    ensures { OnOk result (out.new.items ≡ out.old.items ++ end_line port.now (end_view end.now)) }
{
    match end {
        End::Ready => Ok(()),
        End::Refused => put_refused(alloc, out, port),
        End::Crashed(text) => put_crash(out, text.as_slice()),
        End::OutOfFuel => put_out_of_fuel(out),
        End::Unsafe => put_unsafe(out),
        End::Stuck => put_stuck(out),
    }
}

/// The lines of the start.
pub fn start_lines(alloc: Global, answer: &Answer) -> Result<Vec<u8>, AllocError>
    ensures { IfOk result (λ lines. lines.items ≡ start_text (answer_view answer.now)) }
{
    let mut lines = Vec::new(alloc);
    put_sends(alloc, &mut lines, &answer.sends)?;
    put_last(&mut lines, &answer.end)?;
    Ok(lines)
}

/// The lines of an input at this port.
pub fn input_lines(alloc: Global, port: &[u16], answer: &Answer) -> Result<Vec<u8>, AllocError>
    ensures { IfOk result (λ lines. lines.items ≡ answer_text port.now (answer_view answer.now)) }
{
    let mut lines = Vec::new(alloc);
    put_sends(alloc, &mut lines, &answer.sends)?;
    put_end(alloc, &mut lines, port, &answer.end)?;
    Ok(lines)
}
