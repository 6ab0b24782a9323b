//! What is then asked.

ghost use Rattle.std.specs.Prelude.{◌≡◌, ◌++◌, OnOk, length, map};
ghost use Rattle.type_store.specs.Steps.{kind_asks, rest_asks, sames, part_asks};
ghost use Rattle.type_store.specs.Store.{field_names, field_slots};
ghost use Rattle.type_store.specs.View.{field_view, work_view};
ghost use Rattle.type_store.specs.Solutions as solutions;

use crate::ask::Ask;
use crate::slot::FieldSlot;
use elm_base::names::Name;
use elm_type::class::Class;
use std::alloc::AllocError;

/// Asks that a variable lacks fields.
pub(crate) fn push_lacks(
    work: &mut Vec<Ask>,
    variable: u32,
    names: &[Name],
) -> Result<(), AllocError>
    ensures { OnOk result (work_view work.new.items ≡ work_view work.old.items ++ map
        (solutions.Lacks variable) names.now) }
{
    for name in names {
        work.push(Ask::Lacks(variable, name.clone()?))?;
    }
    Ok(())
}

/// Asks of a variable what is said of another, or of itself.
pub(crate) fn push_kind(
    work: &mut Vec<Ask>,
    variable: u32,
    class: Class,
    names: &[Name],
) -> Result<(), AllocError>
    ensures { OnOk result (work_view work.new.items ≡ work_view work.old.items ++ kind_asks variable
        (record { class = class; lacks = names.now })) }
{
    work.push(Ask::InClass(variable, class))?;
    push_lacks(work, variable, names)
}

/// Asks that variables are the same, in turn.
pub(crate) fn push_sames(
    work: &mut Vec<Ask>,
    first: &[u32],
    second: &[u32],
) -> Result<(), AllocError>
    requires { length first.now ≡ length second.now }
    ensures { OnOk result (work_view work.new.items ≡ work_view work.old.items ++ sames first.now second.now) }
{
    for index in 0..first.len() {
        work.push(Ask::Same(first[index], second[index]))?;
    }
    Ok(())
}

/// Asks that the types of fields are the same, in turn.
pub(crate) fn push_fields(
    work: &mut Vec<Ask>,
    first: &[FieldSlot],
    second: &[FieldSlot],
) -> Result<(), AllocError>
    requires { length first.now ≡ length second.now }
    ensures { OnOk result (work_view work.new.items ≡ work_view work.old.items ++ sames
        (field_slots (map field_view first.now)) (field_slots (map field_view second.now))) }
{
    for index in 0..first.len() {
        work.push(Ask::Same(first[index].slot, second[index].slot))?;
    }
    Ok(())
}

/// Asks that variables meet a class.
pub(crate) fn push_parts(work: &mut Vec<Ask>, class: Class, parts: &[u32]) -> Result<(), AllocError>
    ensures { OnOk result (work_view work.new.items ≡ work_view work.old.items ++ part_asks class parts.now) }
{
    for part in parts {
        work.push(Ask::InClass(*part, class))?;
    }
    Ok(())
}

/// Asks that a variable lacks the names of fields.
fn push_names(work: &mut Vec<Ask>, variable: u32, fields: &[FieldSlot]) -> Result<(), AllocError>
    ensures { OnOk result (work_view work.new.items ≡ work_view work.old.items ++ map (solutions.Lacks variable)
        (field_names (map field_view fields.now))) }
{
    for field in fields {
        work.push(Ask::Lacks(variable, field.name.clone()?))?;
    }
    Ok(())
}

/// Asks that where a row ends lacks the names of its fields.
pub(crate) fn push_rest(
    work: &mut Vec<Ask>,
    end: Option<u32>,
    fields: &[FieldSlot],
) -> Result<(), AllocError>
    ensures { OnOk result (work_view work.new.items ≡ work_view work.old.items ++ rest_asks end
        (field_names (map field_view fields.now))) }
{
    match end {
        None => Ok(()),
        Some(variable) => push_names(work, variable, fields),
    }
}
