//! The module of the entry among those of a build.

ghost use Rattle.std.specs.Prelude.{◌≡◌, ◌<◌, ◌^◌, ℕ, List, Some, length, map, string_bytes, IfOk};
ghost use Rattle.import_graph.specs.Entries.{NamesEntry};
ghost use Rattle.import_graph.specs.Entry.{IsEntryName};
ghost use Rattle.project_parts.specs.Modules as build;
ghost use Rattle.project_file.specs.Paths.{normal_path};
ghost use Rattle.project_parts.specs.Laws.{HasNumber};
ghost use Rattle.project_parts.specs.View.{part_view};

use elm_base::name::ModName;
use import_graph::entries::entry_name;
use project_file::paths::normal;
use project_parts::Part;
use std::alloc::{AllocError, Global};

/// The number of the first module of this name, if there is one.
fn number_of(parts: &[Part<'_>], name: &ModName) -> Option<u32>
    requires { length parts.now < 2 ^ 32 }
    ensures { result ≡ build.number_of (map part_view parts.now) name.now }
{
    for number in 0..parts.len() {
        let module = parts[number].module;
        if name.as_bytes() == module.name.as_bytes() {
            return Some(number as u32);
        }
    }
    None
}

/// The number of the module at the path of the entry. `directories` are the source directories of the project in
/// written order, and `entry` is the path as it is written. It takes time in proportion to the number of modules.
pub(crate) fn entry_number(
    alloc: Global,
    parts: &[Part<'_>],
    directories: &[String],
    entry: &str,
) -> Result<u32, AllocError>
    requires few { length parts.now < 2 ^ 32 }
    requires entry { (name : List ℕ) × IsEntryName (map string_bytes directories.now) entry.now name
        × HasNumber (map part_view parts.now) name }
    ensures number { IfOk result (λ number. (name : List ℕ)
        → NamesEntry (normal_path entry.now) (map string_bytes directories.now) name
        → build.number_of (map part_view parts.now) name ≡ Some number) }
    ensures within { IfOk result (λ number. number < length parts.now) }
{
    let path = normal(alloc, entry)?;
    let Some(name) = entry_name(alloc, directories, &path)? else {
        unreachable!();
    };
    match number_of(parts, &name) {
        Some(number) => Ok(number),
        None => unreachable!(),
    }
}
