//! What a module lacks of what the compiler takes for granted of the core library.

ghost use Rattle.std.specs.Prelude.{◌≡◌, ◌++◌, map, flat_map, OnOk};
ghost use Rattle.elm_canon.specs.View.{module_view};
ghost use Rattle.core_modules.specs.Facts as spec;
ghost use Rattle.core_modules.specs.Rows.{union_row_faults, union_row_view, bare_row_faults, bare_row_view};

use crate::functions::push_module_declared;
use crate::rows::{BARE, BareRow, UNIONS, UnionRow};
use crate::unions::{has_named, has_spelled};
use canon_env::finding::Finding;
use elm_base::fault::Code;
use elm_base::position::Pos;
use elm_base::text::Text;
use elm_canon::tree::Module;
use elm_type::ascii::is_text;
use std::alloc::{AllocError, Global};

/// Adds the fault of the kind `code` of a whole text, whose line says `detail`. The error means that memory ran out;
/// then it is not added.
pub fn push_fault(
    alloc: Global,
    code: Code,
    detail: &[u8],
    findings: &mut Vec<Finding>,
) -> Result<(), AllocError>
    ensures { OnOk result (findings.new.items ≡ findings.old.items ++ spec.fault_of code detail.now) }
{
    findings.push(Finding {
        code,
        place: Pos { row: 1, column: 1 },
        detail: Text::copy(alloc, detail)?,
    })?;
    Ok(())
}

/// Adds the fault that the module lacks the union of the row, if that is so.
fn push_union(
    alloc: Global,
    module: &Module,
    row: &UnionRow,
    findings: &mut Vec<Finding>,
) -> Result<(), AllocError>
    ensures { OnOk result (findings.new.items
        ≡ findings.old.items ++ union_row_faults (module_view module.now) (union_row_view row.now)) }
{
    if is_text(&module.name, row.home) && !has_spelled(&module.unions, row.signs) {
        push_fault(alloc, Code::UnknownType, row.name, findings)?;
    }
    Ok(())
}

/// The same of these rows.
fn push_unions(
    alloc: Global,
    module: &Module,
    rows: &[UnionRow],
    findings: &mut Vec<Finding>,
) -> Result<(), AllocError>
    ensures { OnOk result (findings.new.items ≡ findings.old.items
        ++ flat_map (union_row_faults (module_view module.now)) (map union_row_view rows.now)) }
{
    for row in rows {
        push_union(alloc, module, row, findings)?;
    }
    Ok(())
}

/// Adds the fault that the module declares the type of the row, if that is so.
fn push_type(
    alloc: Global,
    module: &Module,
    row: &BareRow,
    findings: &mut Vec<Finding>,
) -> Result<(), AllocError>
    ensures { OnOk result (findings.new.items
        ≡ findings.old.items ++ bare_row_faults (module_view module.now) (bare_row_view row.now)) }
{
    if is_text(&module.name, row.home) && has_named(&module.unions, row.name) {
        push_fault(alloc, Code::DuplicateName, row.name, findings)?;
    }
    Ok(())
}

/// The same of these rows.
fn push_types(
    alloc: Global,
    module: &Module,
    rows: &[BareRow],
    findings: &mut Vec<Finding>,
) -> Result<(), AllocError>
    ensures { OnOk result (findings.new.items ≡ findings.old.items
        ++ flat_map (bare_row_faults (module_view module.now)) (map bare_row_view rows.now)) }
{
    for row in rows {
        push_type(alloc, module, row, findings)?;
    }
    Ok(())
}

/// Adds to `findings` what the module `module` lacks of what the compiler takes for granted of the core library: unions
/// and the annotations of functions that no text can say. Of a module that is none of the core library nothing is added.
/// The error means that memory ran out.
#[tactic(auto, unfolding(crate::specs::Facts::core_faults))]
pub fn push_core_faults(
    alloc: Global,
    module: &Module,
    findings: &mut Vec<Finding>,
) -> Result<(), AllocError>
    ensures { OnOk result (findings.new.items ≡ findings.old.items ++ spec.core_faults (module_view module.now)) }
{
    push_unions(alloc, module, &UNIONS, findings)?;
    push_types(alloc, module, &BARE, findings)?;
    push_module_declared(alloc, module, findings)
}
