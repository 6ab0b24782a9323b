//! The lines that a run prints.

ghost use Rattle.std.specs.Prelude.{◌≡◌, ◌++◌, IfOk, OnOk, map};
ghost use Rattle.runs.specs.Trace.{FlagsRefused, Crashed, OutOfFuel, Unsafe, Stuck};
ghost use Rattle.wire_value.specs.View.{wire_view};
ghost use Rattle.run_files.specs.Told.{send_line, refused_line, last_line, port_text};

use std::alloc::{AllocError, Global};
use wire_value::{Wire, put_text, to_text};

/// Adds the name of a port, with U+FFFD for a lone surrogate.
fn put_port(alloc: Global, out: &mut Vec<u8>, port: &[u16]) -> Result<(), AllocError>
    ensures { OnOk result (out.new.items ≡ out.old.items ++ port_text port.now) }
{
    let text = String::from_utf16_lossy(alloc, port)?;
    out.extend_from_slice(text.as_bytes())
}

/// Adds the line of a send: the port, a space, and the value in compact JSON.
pub fn put_send(
    alloc: Global,
    out: &mut Vec<u8>,
    port: &[u16],
    value: &Wire,
) -> Result<(), AllocError>
    ensures { OnOk result (out.new.items ≡ out.old.items ++ send_line port.now (wire_view value.now)) }
{
    let text = to_text(alloc, value)?;
    put_port(alloc, out, port)?;
    out.push(b' ')?;
    out.extend_from_slice(&text)?;
    out.push(b'\n')?;
    Ok(())
}

/// Adds the line of an input that was refused, at this port.
pub fn put_refused(alloc: Global, out: &mut Vec<u8>, port: &[u16]) -> Result<(), AllocError>
    ensures { OnOk result (out.new.items ≡ out.old.items ++ refused_line port.now) }
{
    out.extend_from_slice(b"! refused ")?;
    put_port(alloc, out, port)?;
    out.push(b'\n')?;
    Ok(())
}

/// Adds the line of flags that were refused.
pub fn put_flags_refused(out: &mut Vec<u8>) -> Result<(), AllocError>
    ensures { OnOk result (out.new.items ≡ out.old.items ++ last_line FlagsRefused) }
{
    out.extend_from_slice(b"! refused flags\n")
}

/// Adds the line of a crash with this text.
pub fn put_crash(out: &mut Vec<u8>, text: &[u16]) -> Result<(), AllocError>
    ensures { OnOk result (out.new.items ≡ out.old.items ++ last_line (Crashed text.now)) }
{
    out.extend_from_slice(b"! crash ")?;
    put_text(out, text)?;
    out.push(b'\n')?;
    Ok(())
}

/// Adds the line of a run that ran out of fuel.
pub fn put_out_of_fuel(out: &mut Vec<u8>) -> Result<(), AllocError>
    ensures { OnOk result (out.new.items ≡ out.old.items ++ last_line OutOfFuel) }
{
    out.extend_from_slice(b"! out of fuel\n")
}

/// Adds the line of a run that met a number that is not exact.
pub fn put_unsafe(out: &mut Vec<u8>) -> Result<(), AllocError>
    ensures { OnOk result (out.new.items ≡ out.old.items ++ last_line Unsafe) }
{
    out.extend_from_slice(b"! unsafe\n")
}

/// Adds the line of a run that got stuck: no rule applies.
pub fn put_stuck(out: &mut Vec<u8>) -> Result<(), AllocError>
    ensures { OnOk result (out.new.items ≡ out.old.items ++ last_line Stuck) }
{
    out.extend_from_slice(b"! stuck\n")
}
