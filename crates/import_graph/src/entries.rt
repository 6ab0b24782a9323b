//! The entry of a build.

ghost use Rattle.std.specs.Prelude.{◌≡◌, ℕ, List, map, string_bytes, IfOk, IfSome, IfNone, IsUtf8};
ghost use Rattle.import_graph.specs.Entries.{NamesBelow, NamesEntry};

use elm_base::name::ModName;
use elm_base::path::name_of_path;
use project_file::paths::below;
use std::alloc::{AllocError, Global};

/// The name of the module at `path`: of the source directory `src` and the path `src/A/B.elm` it is `A.B`. The source
/// directories are those of the project, in written order, and the first one counts below which the path is a module's.
/// The result is `None` exactly when there is none. The error means that memory ran out.
pub fn entry_name(
    alloc: Global,
    directories: &[String],
    path: &str,
) -> Result<Option<ModName>, AllocError>
    ensures found { IfOk result (λ answer. IfSome answer (NamesEntry path.now (map string_bytes directories.now))) }
    ensures only { IfOk result (λ answer. IfSome answer (λ name.
        (other : List ℕ) → NamesEntry path.now (map string_bytes directories.now) other → other ≡ name)) }
    ensures text { IfOk result (λ answer. IfSome answer IsUtf8) }
    ensures none { IfOk result (λ answer. IfNone answer
        ((name : List ℕ) → NamesEntry path.now (map string_bytes directories.now) name → ⊥)) }
{
    for directory in directories {
        if let Some(name) = name_below(alloc, directory, path)? {
            return Ok(Some(name));
        }
    }
    Ok(None)
}

/// The name of the module whose path it is below a directory.
fn name_below(alloc: Global, directory: &str, path: &str) -> Result<Option<ModName>, AllocError>
    ensures found { IfOk result (λ answer. IfSome answer (NamesBelow directory.now path.now)) }
    ensures only { IfOk result (λ answer. IfSome answer (λ name.
        (other : List ℕ) → NamesBelow directory.now path.now other → other ≡ name)) }
    ensures text { IfOk result (λ answer. IfSome answer IsUtf8) }
    ensures none { IfOk result (λ answer. IfNone answer
        ((name : List ℕ) → NamesBelow directory.now path.now name → ⊥)) }
{
    match below(directory, path) {
        Some(rest) => name_of_path(alloc, rest),
        None => Ok(None),
    }
}
