//! The faults for which a project is refused.

ghost use Rattle.std.specs.Prelude.{◌≡◌, ◌^◌, ◌<◌, length, map, option_map, IfOk};
ghost use Rattle.decl_groups.specs.Groups.{Ascends};
ghost use Rattle.import_graph.specs.ModuleWalkView.{import_view, module_view};
ghost use Rattle.import_graph.specs.Faults as plain;
ghost use Rattle.import_graph.specs.Faults.{detail_of};
ghost use Rattle.import_graph.specs.ModuleGraphView.{modules_of, AreNamed};

use crate::numbers::number_used;
use crate::{Import, Module};
use elm_base::fault::{Code, Fault};
use elm_base::position::{Pos, Region};
use elm_base::text::Text;
use indexmap::IndexMap;
use project_file::paths::{is_absolute, normal};
use std::alloc::{AllocError, Global};

/// The region that is a place alone.
fn region_at(place: Pos) -> Region
    ensures { result ≡ plain.region_at place }
{
    Region {
        start: place,
        end: place,
    }
}

/// The fault of an entry, at the start of its path.
pub(crate) fn entry_fault(alloc: Global, code: Code, entry: &str) -> Result<Fault, AllocError>
    ensures { IfOk result (λ fault. fault ≡ plain.entry_fault code entry.now) }
{
    let path = if is_absolute(entry) {
        Text::copy(alloc, entry.as_bytes())?
    } else {
        Text::from_vec(normal(alloc, entry)?.into_bytes())
    };
    Ok(Fault {
        code,
        path,
        region: region_at(Pos { row: 1, column: 1 }),
        detail: Text::empty(alloc),
    })
}

/// The fault of modules that import each other in a ring. It stands in the first of them, at its first import of one of
/// them.
pub(crate) fn ring_fault(
    alloc: Global,
    modules: &IndexMap<Text, Module>,
    ring: &[u32],
) -> Result<Fault, AllocError>
    requires named { AreNamed modules.now }
    requires few { length (modules_of modules.now) < 2 ^ 32 }
    requires ascends { Ascends ring.now }
    ensures { IfOk result (λ fault. fault ≡ plain.ring_fault (modules_of modules.now) ring.now) }
{
    let detail = ring_names(alloc, modules, ring)?;
    match first_of(modules, ring) {
        Some(first) => Ok(Fault {
            code: Code::ImportCycle,
            path: Text::copy(alloc, first.path.as_bytes())?,
            region: region_at(place_in_ring(modules, &first.imports, ring)),
            detail,
        }),
        None => Ok(Fault {
            code: Code::ImportCycle,
            path: Text::empty(alloc),
            region: region_at(Pos { row: 1, column: 1 }),
            detail,
        }),
    }
}

/// The first module of the ring.
fn first_of<'a>(modules: &'a IndexMap<Text, Module>, ring: &[u32]) -> Option<&'a Module>
    ensures { option_map (λ m. module_view m.now) result ≡ plain.first_of (modules_of modules.now) ring.now }
{
    match ring {
        [first, ..] => modules.get_index(*first as usize).map(|(_, module)| module),
        [] => None,
    }
}

/// Where the first import of a module of the ring stands.
fn place_in_ring(modules: &IndexMap<Text, Module>, imports: &[Import], ring: &[u32]) -> Pos
    requires named { AreNamed modules.now }
    requires few { length (modules_of modules.now) < 2 ^ 32 }
    requires ascends { Ascends ring.now }
    ensures { result ≡ plain.place_in_ring (modules_of modules.now) ring.now (map import_view imports.now) }
{
    for import in imports {
        if is_in_ring(modules, import, ring) {
            return import.place;
        }
    }
    Pos { row: 1, column: 1 }
}

/// Whether the import is of a module of the ring.
fn is_in_ring(modules: &IndexMap<Text, Module>, import: &Import, ring: &[u32]) -> bool
    requires named { AreNamed modules.now }
    requires few { length (modules_of modules.now) < 2 ^ 32 }
    requires ascends { Ascends ring.now }
    ensures { result ≡ plain.in_ring (modules_of modules.now) ring.now (import_view import.now) }
{
    match number_used(modules, import) {
        Some(number) => ring.binary_search(&number).is_ok(),
        None => false,
    }
}

/// The names of the modules of the ring, with a comma and a blank between two.
fn ring_names(
    alloc: Global,
    modules: &IndexMap<Text, Module>,
    ring: &[u32],
) -> Result<Text, AllocError>
    ensures { IfOk result (λ detail. detail ≡ detail_of (modules_of modules.now) ring.now) }
{
    let mut detail = Vec::new(alloc);
    let [first, others @ ..] = ring else {
        return Ok(Text::from_vec(detail));
    };
    detail.extend_from_slice(name_at(modules, *first))?;
    for number in others {
        detail.extend_from_slice(b", ")?;
        detail.extend_from_slice(name_at(modules, *number))?;
    }
    Ok(Text::from_vec(detail))
}

/// The name of the module of a number.
fn name_at(modules: &IndexMap<Text, Module>, number: u32) -> &[u8]
    ensures { result.now ≡ plain.name_at (modules_of modules.now) number }
{
    match modules.get_index(number as usize) {
        Some((_, module)) => module.name.as_bytes(),
        None => b"",
    }
}
