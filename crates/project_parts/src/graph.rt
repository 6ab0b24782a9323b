//! Which modules of a build each imports.

ghost use Rattle.std.specs.Prelude.{◌≡◌, ◌^◌, ◌<◌, ◌++◌, [], ℕ, List, Some, length, map, flat_map, option_to_list};
ghost use Rattle.std.specs.Prelude.{if◌then◌else◌, IfOk, OnOk};
ghost use Rattle.std.specs.Str.{bytes_eq};
ghost use Rattle.std.specs.List.{filter_map};
ghost use Rattle.decl_groups.specs.Groups.{plain};
ghost use Rattle.import_graph.specs.ModuleWalkView.{import_view};
ghost use Rattle.project_parts.specs.Modules as build;
ghost use Rattle.project_parts.specs.Modules.{default_names, one_name, imported_names, name_of};
ghost use Rattle.project_parts.specs.View.{part_view, number_at};

use crate::parts::Part;
use elm_base::text::Text;
use import_graph::{Found, Import};
use indexmap::IndexMap;
use std::alloc::{AllocError, Global};

/// Gives the name of a part this number.
fn note(numbers: &mut IndexMap<Text, u32>, part: &Part<'_>, number: u32) -> Result<(), AllocError>
    ensures { OnOk result ((x : List ℕ) → number_at numbers.new x
        ≡ (if bytes_eq (name_of (part_view part.now)) x then Some number else number_at numbers.old x)) }
{
    let module = part.module;
    numbers.insert(module.name.clone()?, number)?;
    Ok(())
}

/// The number of each name, which is the place of the first part that has it.
fn numbers_of(alloc: Global, parts: &[Part<'_>]) -> Result<IndexMap<Text, u32>, AllocError>
    requires { length parts.now < 2 ^ 32 }
    ensures { IfOk result (λ m. (x : List ℕ) → number_at m x ≡ build.number_of (map part_view parts.now) x) }
{
    let mut numbers = IndexMap::with_capacity(alloc, parts.len())?;
    for place in (0..parts.len()).rev() {
        note(&mut numbers, &parts[place], place as u32)?;
    }
    Ok(numbers)
}

/// Adds the number of the name `name` to a row, if it has one.
fn push_number(
    numbers: &IndexMap<Text, u32>,
    name: &Text,
    row: &mut Vec<u32>,
) -> Result<(), AllocError>
    ensures { OnOk result (row.new.items ≡ row.old.items ++ option_to_list (number_at numbers.now name.now)) }
{
    if let Some(number) = numbers.get(name) {
        row.push(*number)?;
    }
    Ok(())
}

/// Adds the number of the module of a default import to a row.
fn push_default(
    alloc: Global,
    numbers: &IndexMap<Text, u32>,
    name: &str,
    row: &mut Vec<u32>,
) -> Result<(), AllocError>
    ensures { OnOk result (row.new.items ≡ row.old.items ++ option_to_list (number_at numbers.now name.now)) }
{
    push_number(numbers, &Text::copy(alloc, name.as_bytes())?, row)
}

/// The numbers of the modules of the default imports.
fn default_numbers(alloc: Global, numbers: &IndexMap<Text, u32>) -> Result<Vec<u32>, AllocError>
    ensures { IfOk result (λ row. row.items ≡ filter_map (number_at numbers.now) default_names) }
{
    let mut row = Vec::with_capacity(alloc, 11)?;
    push_default(alloc, numbers, "Basics", &mut row)?;
    push_default(alloc, numbers, "List", &mut row)?;
    push_default(alloc, numbers, "Maybe", &mut row)?;
    push_default(alloc, numbers, "Result", &mut row)?;
    push_default(alloc, numbers, "String", &mut row)?;
    push_default(alloc, numbers, "Char", &mut row)?;
    push_default(alloc, numbers, "Tuple", &mut row)?;
    push_default(alloc, numbers, "Debug", &mut row)?;
    push_default(alloc, numbers, "Platform", &mut row)?;
    push_default(alloc, numbers, "Platform.Cmd", &mut row)?;
    push_default(alloc, numbers, "Platform.Sub", &mut row)?;
    Ok(row)
}

/// Adds the number of the module of an import to a row, where one module alone has the name.
fn push_import(
    numbers: &IndexMap<Text, u32>,
    import: &Import,
    row: &mut Vec<u32>,
) -> Result<(), AllocError>
    ensures { OnOk result (row.new.items ≡ row.old.items
        ++ filter_map (number_at numbers.now) (one_name (import_view import.now))) }
{
    match import.found {
        Found::Core => push_number(numbers, &import.name, row),
        Found::File => push_number(numbers, &import.name, row),
        Found::Nowhere => Ok(()),
        Found::Several => Ok(()),
    }
}

/// Adds the numbers of the modules of imports to a row.
fn push_imports(
    numbers: &IndexMap<Text, u32>,
    imports: &[Import],
    row: &mut Vec<u32>,
) -> Result<(), AllocError>
    ensures { OnOk result (row.new.items ≡ row.old.items
        ++ filter_map (number_at numbers.now) (flat_map one_name (map import_view imports.now))) }
{
    for import in imports {
        push_import(numbers, import, row)?;
    }
    Ok(())
}

/// The row of a part before its imports that are written: the numbers of the default imports, which a module of the
/// core library does not have.
fn row_before(alloc: Global, defaults: &[u32], is_core: bool) -> Result<Vec<u32>, AllocError>
    ensures { IfOk result (λ row. row.items ≡ (if is_core then [] else defaults.now)) }
{
    if is_core {
        Ok(Vec::new(alloc))
    } else {
        Vec::from_slice(alloc, defaults)
    }
}

/// The numbers of the parts that a part imports. `defaults` has those of the default imports.
fn row_of(
    alloc: Global,
    numbers: &IndexMap<Text, u32>,
    defaults: &[u32],
    part: &Part<'_>,
) -> Result<Vec<u32>, AllocError>
    requires { defaults.now ≡ filter_map (number_at numbers.now) default_names }
    ensures { IfOk result (λ row. row.items
        ≡ filter_map (number_at numbers.now) (imported_names (part_view part.now))) }
{
    let module = part.module;
    let mut row = row_before(alloc, defaults, part.is_core)?;
    push_imports(numbers, &module.imports, &mut row)?;
    Ok(row)
}

/// The rows of all parts.
fn rows_of(
    alloc: Global,
    numbers: &IndexMap<Text, u32>,
    defaults: &[u32],
    parts: &[Part<'_>],
) -> Result<Vec<Vec<u32>>, AllocError>
    requires { defaults.now ≡ filter_map (number_at numbers.now) default_names }
    ensures { IfOk result (λ rows. plain rows.items
        ≡ map (λ p. filter_map (number_at numbers.now) (imported_names p)) (map part_view parts.now)) }
{
    let mut rows = Vec::with_capacity(alloc, parts.len())?;
    for part in parts {
        let row = row_of(alloc, numbers, defaults, part)?;
        rows.push(row)?;
    }
    Ok(rows)
}

/// For each part, the numbers of the parts that it imports: those of the default imports first, unless it is of the
/// core library, and then those of its imports in written order. The number of a part is its place. It takes time in
/// proportion to the number of parts and imports. The error means that memory ran out.
pub fn graph_of(alloc: Global, parts: &[Part<'_>]) -> Result<Vec<Vec<u32>>, AllocError>
    requires { length parts.now < 2 ^ 32 }
    ensures { IfOk result (λ graph. plain graph.items ≡ build.graph_of (map part_view parts.now)) }
{
    let numbers = numbers_of(alloc, parts)?;
    let defaults = default_numbers(alloc, &numbers)?;
    rows_of(alloc, &numbers, &defaults, parts)
}
