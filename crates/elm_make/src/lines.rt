//! The lines that a build prints.

ghost use Rattle.std.specs.Prelude.{◌≡◌, IfOk};
ghost use Rattle.project_parts.specs.Outcomes as outcome;
ghost use Rattle.project_parts.specs.Outcomes.{compiled_line};

use elm_base::fault::{Code, Fault, fault_line};
use elm_base::position::{Pos, Region};
use elm_base::text::Text;
use std::alloc::{AllocError, Global};

/// A fault without detail at the start of the file at `path`.
pub(crate) fn start_fault(alloc: Global, code: Code, path: &str) -> Result<Fault, AllocError>
    ensures { IfOk result (λ fault. fault ≡ outcome.start_fault code path.now) }
{
    let start = Pos { row: 1, column: 1 };
    let path = Text::copy(alloc, path.as_bytes())?;
    let detail = Text::empty(alloc);
    Ok(Fault {
        code,
        path,
        region: Region { start, end: start },
        detail,
    })
}

/// The lines of faults, in order.
#[tactic(auto, using(crate::proofs::Printed::lines_more))]
pub(crate) fn fault_lines(alloc: Global, faults: &[Fault]) -> Result<Vec<u8>, AllocError>
    ensures { IfOk result (λ lines. lines.items ≡ outcome.fault_lines faults.now) }
{
    let mut lines = Vec::new(alloc);
    for fault in faults {
        let line = fault_line(alloc, fault)?;
        lines.extend_from_slice(&line)?;
    }
    Ok(lines)
}

/// `compiled to FILE, modules: N`
pub(crate) fn compiled(alloc: Global, file: &str, modules: u32) -> Result<Vec<u8>, AllocError>
    ensures { IfOk result (λ line. line.items ≡ compiled_line file.now modules) }
{
    let line = format!(in alloc; "compiled to {file}, modules: {modules}\n")?;
    Ok(line.into_bytes())
}
