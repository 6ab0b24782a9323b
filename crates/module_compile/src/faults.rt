//! Faults of a file.

ghost use Rattle.std.specs.Prelude.{◌≡◌, ◌∷◌, [], map, IfOk};
ghost use Rattle.elm_lexer.specs.View.{fault_view};
ghost use Rattle.canon_env.specs.Sites.{utf8};
ghost use Rattle.module_made.specs.Made.{fault_in, text_finding, type_finding, too_large};

use canon_env::finding::Finding;
use elm_base::fault::{Code, Fault};
use elm_base::position::{Pos, Region};
use elm_base::text::Text;
use elm_lexer::TextFault;
use std::alloc::{AllocError, Global};

/// A fault of the file at `path`.
fn fault_at(
    alloc: Global,
    path: &str,
    code: Code,
    place: Pos,
    detail: &[u8],
) -> Result<Fault, AllocError>
    ensures { IfOk result (λ f. f ≡ fault_in path.now (record { code = code; place = place; detail = detail.now })) }
{
    Ok(Fault {
        code,
        path: Text::copy(alloc, path.as_bytes())?,
        region: Region {
            start: place,
            end: place,
        },
        detail: Text::copy(alloc, detail)?,
    })
}

/// The faults `findings` of the file at `path`. The error means that memory ran out.
pub fn faults_of(alloc: Global, path: &str, findings: &[Finding]) -> Result<Vec<Fault>, AllocError>
    ensures { IfOk result (λ v. v.items ≡ map (fault_in path.now) findings.now) }
{
    let mut faults = Vec::with_capacity(alloc, findings.len())?;
    for finding in findings {
        let detail = finding.detail.as_bytes();
        faults.push(fault_at(alloc, path, finding.code, finding.place, detail)?)?;
    }
    Ok(faults)
}

/// The one fault of a file.
fn one_fault(
    alloc: Global,
    path: &str,
    code: Code,
    place: Pos,
    detail: &[u8],
) -> Result<Vec<Fault>, AllocError>
    ensures { IfOk result (λ v. v.items
        ≡ fault_in path.now (record { code = code; place = place; detail = detail.now }) ∷ []) }
{
    let mut faults = Vec::with_capacity(alloc, 1)?;
    faults.push(fault_at(alloc, path, code, place, detail)?)?;
    Ok(faults)
}

/// The fault `fault` of the text of the file at `path`. The error means that memory ran out.
pub fn text_faults(
    alloc: Global,
    path: &str,
    fault: TextFault<'_>,
) -> Result<Vec<Fault>, AllocError>
    ensures { IfOk result (λ v. v.items ≡ fault_in path.now (text_finding (fault_view fault.entry)) ∷ []) }
{
    one_fault(alloc, path, fault.code, fault.place, fault.detail)
}

/// The fault of the types of the file at `path`: its code, its place, and its detail in UTF-16. The error means that
/// memory ran out.
pub fn type_faults(
    alloc: Global,
    path: &str,
    code: Code,
    place: Pos,
    detail: &[u16],
) -> Result<Vec<Fault>, AllocError>
    ensures { IfOk result (λ v. v.items ≡ fault_in path.now (type_finding code place detail.now) ∷ []) }
{
    let text = String::from_utf16_lossy(alloc, detail)?;
    one_fault(alloc, path, code, place, text.as_bytes())
}

/// The fault of the file at `path` that it is too large. The error means that memory ran out.
pub fn too_large(alloc: Global, path: &str) -> Result<Vec<Fault>, AllocError>
    ensures { IfOk result (λ v. v.items ≡ fault_in path.now too_large ∷ []) }
{
    one_fault(
        alloc,
        path,
        Code::FileTooLarge,
        Pos { row: 1, column: 1 },
        b"",
    )
}
