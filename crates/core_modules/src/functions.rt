//! The functions that no text can say, and their annotations.

ghost use Rattle.std.specs.Prelude.{◌≡◌, ◌++◌, map, flat_map, OnOk};
ghost use Rattle.elm_canon.specs.Names.{same_ref};
ghost use Rattle.elm_canon.specs.declared.reference.Ref.TheVariants.{Top};
ghost use Rattle.elm_canon.specs.View.{declaration_view, group_view, module_view, title_view};
ghost use Rattle.core_modules.specs.Facts as spec;
ghost use Rattle.core_modules.specs.Rows.{annotated, coded_faults, row_view};
ghost use Rattle.core_modules.specs.Signs.{signs_view};

use crate::facts::push_fault;
use crate::rows::{FUNCTIONS, FunctionRow};
use crate::sign::Sign;
use crate::spelling::is_spelled;
use canon_env::finding::Finding;
use elm_base::fault::Code;
use elm_canon::reference::Ref;
use elm_canon::tree::{Annotation, Declaration, Function, Group, Module, Title};
use elm_type::ascii::is_text;
use std::alloc::{AllocError, Global};

/// Whether a name is that of the function `own` of the module `home`.
fn is_function(name: &Ref, home: &[u8], own: &[u8]) -> bool
    ensures { result ≡ same_ref name.now (Top home.now own.now) }
{
    match name {
        Ref::Local(_) => false,
        Ref::Top(place, other) => is_text(place, home) && is_text(other, own),
    }
}

/// Whether the annotation, if there is one, is spelled so.
fn is_annotated(annotation: Option<&Annotation>, signs: &[Sign]) -> bool
    ensures { result ≡ spec.is_annotated (signs_view signs.now) (annotated annotation.entry) }
{
    match annotation {
        Some(annotation) => is_spelled(annotation, signs),
        None => false,
    }
}

/// Whether a title is that of the function, and its annotation is another one.
fn is_mistyped(title: &Title, row: &FunctionRow) -> bool
    ensures { result ≡ spec.is_mistyped (title_view title.now) row.now.home.now row.now.name.now
        (signs_view row.now.signs.now) }
{
    is_function(&title.name, row.home, row.name)
        && !is_annotated(title.annotation.as_ref(), row.signs)
}

/// Adds the fault that the title is that of the function and has another annotation, if that is so.
fn push_row(
    alloc: Global,
    title: &Title,
    row: &FunctionRow,
    findings: &mut Vec<Finding>,
) -> Result<(), AllocError>
    ensures { OnOk result (findings.new.items
        ≡ findings.old.items ++ coded_faults (title_view title.now) (row_view row.now)) }
{
    if is_mistyped(title, row) {
        push_fault(alloc, Code::TypeMismatch, row.name, findings)?;
    }
    Ok(())
}

/// The same of these functions.
fn push_rows(
    alloc: Global,
    title: &Title,
    rows: &[FunctionRow],
    findings: &mut Vec<Finding>,
) -> Result<(), AllocError>
    ensures { OnOk result (findings.new.items
        ≡ findings.old.items ++ flat_map (coded_faults (title_view title.now)) (map row_view rows.now)) }
{
    for row in rows {
        push_row(alloc, title, row, findings)?;
    }
    Ok(())
}

/// The same of all functions.
fn push_title(alloc: Global, title: &Title, findings: &mut Vec<Finding>) -> Result<(), AllocError>
    ensures { OnOk result (findings.new.items ≡ findings.old.items ++ spec.title_faults (title_view title.now)) }
{
    push_rows(alloc, title, &FUNCTIONS, findings)
}

/// The same of the titles of functions.
fn push_functions(
    alloc: Global,
    functions: &[Function],
    findings: &mut Vec<Finding>,
) -> Result<(), AllocError>
    ensures { OnOk result (findings.new.items ≡ findings.old.items
        ++ flat_map spec.title_faults (map (λ f. title_view f.title) functions.now)) }
{
    for function in functions {
        push_title(alloc, &function.title, findings)?;
    }
    Ok(())
}

/// The same of all functions of a group.
fn push_all(
    alloc: Global,
    functions: &Vec<Function>,
    findings: &mut Vec<Finding>,
) -> Result<(), AllocError>
    ensures { OnOk result (findings.new.items ≡ findings.old.items
        ++ flat_map spec.title_faults (map (λ f. title_view f.title) functions.now.items)) }
{
    push_functions(alloc, functions, findings)
}

/// The same of the titles of a group.
fn push_group(alloc: Global, group: &Group, findings: &mut Vec<Finding>) -> Result<(), AllocError>
    ensures { OnOk result (findings.new.items
        ≡ findings.old.items ++ flat_map spec.title_faults (spec.group_titles (group_view group.now))) }
{
    match group {
        Group::Together(functions) => push_all(alloc, functions, findings),
        Group::Constant(title, _) => push_title(alloc, title, findings),
        Group::Destructure(_, _) => Ok(()),
    }
}

/// The same of what a declaration defines.
fn push_declared(
    alloc: Global,
    declaration: &Declaration,
    findings: &mut Vec<Finding>,
) -> Result<(), AllocError>
    ensures { OnOk result (findings.new.items
        ≡ findings.old.items ++ spec.declared_faults (declaration_view declaration.now)) }
{
    match declaration {
        Declaration::Given(_, _) => Ok(()),
        Declaration::Define(group) => push_group(alloc, group, findings),
    }
}

/// The same of declarations.
fn push_all_declared(
    alloc: Global,
    declarations: &[Declaration],
    findings: &mut Vec<Finding>,
) -> Result<(), AllocError>
    ensures { OnOk result (findings.new.items ≡ findings.old.items
        ++ flat_map spec.declared_faults (map declaration_view declarations.now)) }
{
    for declaration in declarations {
        push_declared(alloc, declaration, findings)?;
    }
    Ok(())
}

/// The same of a module.
pub(crate) fn push_module_declared(
    alloc: Global,
    module: &Module,
    findings: &mut Vec<Finding>,
) -> Result<(), AllocError>
    ensures { OnOk result (findings.new.items ≡ findings.old.items
        ++ flat_map spec.declared_faults (module_view module.now).declarations) }
{
    push_all_declared(alloc, &module.declarations, findings)
}
