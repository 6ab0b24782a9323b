//! The paths of a project. They are relative, and their parts stand between slashes.

ghost use Rattle.std.specs.Prelude.{◌≡◌, ◌++◌, ◌∷◌, [], IfOk, OnOk, option_map, string_bytes, if◌then◌else◌};
ghost use Rattle.project_file.specs.Paths as plain;

use std::alloc::{AllocError, Global};

/// A path without its empty parts and its parts `.`: of `./src//Main.elm` it is `src/Main.elm`. The error means that
/// memory ran out.
pub fn normal(alloc: Global, path: &str) -> Result<String, AllocError>
    ensures { IfOk result (λ normal. string_bytes normal ≡ plain.normal_path path.now) }
{
    let mut normal = String::new(alloc);
    let mut is_first = true;
    for part in path.split('/') {
        if is_kept(part) {
            push_part(&mut normal, part, is_first)?;
            is_first = false;
        }
    }
    Ok(normal)
}

/// Whether a path begins at the root of the file system.
pub fn is_absolute(path: &str) -> bool
    ensures { result ≡ plain.is_absolute path.now }
{
    match path.as_bytes() {
        [first, ..] => *first == b'/',
        [] => false,
    }
}

/// Where a path stands below a folder: of the folder `src` and the path `src/A/B.elm` it is `A/B.elm`. It is `None`
/// exactly when the path does not stand below the folder. Everything stands below the folder with the empty path.
pub fn below<'a>(folder: &str, path: &'a str) -> Option<&'a str>
    ensures { option_map (λ rest. rest.now) result ≡ plain.below folder.now path.entry.now }
{
    if folder.is_empty() {
        return Some(path);
    }
    let after_folder = path.strip_prefix(folder)?;
    match after_folder.strip_prefix("/") {
        Some(rest) => Some(rest),
        None => None,
    }
}

/// The path of what stands at `path` below a folder: of `src` and `A/B.elm` it is `src/A/B.elm`. What stands below the
/// folder with the empty path has `path` itself. The error means that memory ran out.
pub fn inside(alloc: Global, folder: &str, path: &str) -> Result<String, AllocError>
    ensures { IfOk result (λ whole. string_bytes whole ≡ plain.inside folder.now path.now) }
{
    let mut whole = String::from_str(alloc, folder)?;
    push_part(&mut whole, path, folder.is_empty())?;
    Ok(whole)
}

/// Where the module of a name stands below its source directory: of `A.B` it is `A/B.elm`. The error means that memory
/// ran out.
pub fn module_path(alloc: Global, name: &str) -> Result<String, AllocError>
    ensures { IfOk result (λ path. string_bytes path ≡ plain.path_of name.now) }
{
    let mut path = String::new(alloc);
    let mut is_first = true;
    for part in name.split('.') {
        push_part(&mut path, part, is_first)?;
        is_first = false;
    }
    path.push_str(".elm")?;
    Ok(path)
}

/// Whether a part of a path stays.
fn is_kept(part: &str) -> bool
    ensures { result ≡ plain.is_kept part.now }
{
    !part.is_empty() && part != "."
}

/// Puts a part at the end of a path, with a slash before it unless it is the first.
fn push_part(path: &mut String, part: &str, is_first: bool) -> Result<(), AllocError>
    ensures { OnOk result (string_bytes path.new ≡ string_bytes path.old
        ++ (if is_first then part.now else 47 ∷ part.now)) }
{
    if !is_first {
        path.push_str("/")?;
    }
    path.push_str(part)
}
