//! Modules by their numbers, which are their places in ascending order of names.

ghost use Rattle.std.specs.Prelude.{◌≡◌, ◌^◌, ◌<◌, length, map, IfOk};
ghost use Rattle.std.specs.List.{filter_map};
ghost use Rattle.decl_groups.specs.Groups.{plain};
ghost use Rattle.import_graph.specs.ModuleWalkView.{import_view, module_view};
ghost use Rattle.import_graph.specs.Graph as graph;
ghost use Rattle.import_graph.specs.ModuleGraphView.{modules_of, AreNamed, IsOf};

use crate::{Found, Import, Module};
use elm_base::text::Text;
use indexmap::IndexMap;
use std::alloc::{AllocError, Global};

/// The modules in ascending order of their names.
pub(crate) fn by_name(
    alloc: Global,
    modules: Vec<Module>,
) -> Result<IndexMap<Text, Module>, AllocError>
    ensures is { IfOk result (λ m. IsOf (map module_view modules.items) (modules_of m)) }
    ensures named { IfOk result (λ m. AreNamed m) }
{
    let mut named = IndexMap::with_capacity(alloc, modules.len())?;
    for one in modules {
        named.insert(one.name.clone()?, one)?;
    }
    named.sort_keys()?;
    Ok(named)
}

/// For each module, the numbers of the modules of the project that it imports, in written order.
pub(crate) fn uses_of(
    alloc: Global,
    modules: &IndexMap<Text, Module>,
) -> Result<Vec<Vec<u32>>, AllocError>
    requires named { AreNamed modules.now }
    requires few { length (modules_of modules.now) < 2 ^ 32 }
    ensures { IfOk result (λ uses. plain uses.items ≡ graph.uses_of (modules_of modules.now)) }
{
    let mut uses = Vec::with_capacity(alloc, modules.len())?;
    for index in 0..modules.len() {
        if let Some((_, importer)) = modules.get_index(index) {
            uses.push(used_by(alloc, modules, &importer.imports)?)?;
        }
    }
    Ok(uses)
}

/// The numbers of the modules of the project among the imports.
fn used_by(
    alloc: Global,
    modules: &IndexMap<Text, Module>,
    imports: &[Import],
) -> Result<Vec<u32>, AllocError>
    requires named { AreNamed modules.now }
    requires few { length (modules_of modules.now) < 2 ^ 32 }
    ensures { IfOk result (λ row. row.items
        ≡ filter_map (graph.used (modules_of modules.now)) (map import_view imports.now)) }
{
    let mut row = Vec::with_capacity(alloc, imports.len())?;
    for import in imports {
        if let Some(number) = number_used(modules, import) {
            row.push(number)?;
        }
    }
    Ok(row)
}

/// The number of the module that an import is of, if it is one of the project.
pub(crate) fn number_used(modules: &IndexMap<Text, Module>, import: &Import) -> Option<u32>
    requires named { AreNamed modules.now }
    requires few { length (modules_of modules.now) < 2 ^ 32 }
    ensures { result ≡ graph.used (modules_of modules.now) (import_view import.now) }
{
    match import.found {
        Found::File => match modules.get_index_of(&import.name) {
            Some(number) => Some(number as u32),
            None => None,
        },
        _ => None,
    }
}
