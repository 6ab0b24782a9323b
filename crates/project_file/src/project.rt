//! What the file `elm.json` says.

ghost use Rattle.std.specs.Prelude.{◌≡◌, [], IfOk, IfErr, map, option_map, string_bytes};
ghost use Rattle.serde_json.specs.Find.{as_str};
ghost use Rattle.serde_json.specs.View.{view, items_view};
ghost use Rattle.project_file.specs.Paths.{normal_path};
ghost use Rattle.project_file.specs.Project as plain;
ghost use Rattle.project_file.specs.Project.{each_once, texts_in};
ghost use Rattle.project_file.specs.View.{directories_of, IfFault};

use crate::paths::{is_absolute, normal};
use elm_base::fault::Code;
use indexmap::IndexSet;
use serde_json::Value;
use std::alloc::{AllocError, AllocFailed, Global};

/// The most bytes that the file may have.
const MAX_FILE: usize = 1_048_576;

/// A project, as its file describes it.
#[derive(Debug, Drop)]
pub struct Project {
    /// The paths of the source directories below the folder of the file, in written order, each once. None of them has
    /// an empty part or a part `.`, so that of the folder itself is empty.
    pub directories: Vec<String>,
}

/// Why a file gives no project.
#[derive(Clone, Copy, Debug)]
pub enum ProjectError {
    /// Memory ran out.
    NoMemory,
    /// The file describes none: it is `NotJson`, `NotApplication` or `OtherVersion`.
    Fault(Code),
}

impl From<AllocError> for ProjectError {
    ghost use Rattle.std.specs.Prelude.{◌≡◌};
    ghost use Rattle.project_file.specs.declared.project.ProjectError.TheVariants.{NoMemory};

    ghost from_gives = { λ _ e. e ≡ NoMemory };

    fn from(_error: AllocError) -> ProjectError {
        ProjectError::NoMemory
    }
}

/// The project that a file `elm.json` of these bytes describes.
///
/// The fault is `NotJson` where the file has more than 1,048,576 bytes or is no JSON text. Otherwise it is
/// `NotApplication` where `"type"` is not `"application"`, where `"source-directories"` is not a list of relative paths
/// or an empty one, and where `"elm-version"` is neither missing nor a text. Otherwise it is `OtherVersion` where
/// `"elm-version"` is not `"0.19.1"`. Any other error means that memory ran out.
pub fn read(alloc: Global, bytes: &[u8]) -> Result<Project, ProjectError>
    ensures project { IfOk result (λ project. plain.project_of bytes.now ≡ plain.directories (directories_of project)) }
    ensures fault { IfErr result (λ e. IfFault e (λ code. plain.project_of bytes.now ≡ plain.fault code)) }
{
    if bytes.len() > MAX_FILE {
        return Err(ProjectError::Fault(Code::NotJson));
    }
    match Value::from_slice(alloc, bytes) {
        Ok(value) => described(alloc, &value),
        Err(error) => {
            if error.is_memory() {
                return Err(ProjectError::NoMemory);
            }
            Err(ProjectError::Fault(Code::NotJson))
        }
    }
}

/// The project that a value describes.
fn described(alloc: Global, value: &Value) -> Result<Project, ProjectError>
    ensures project { IfOk result (λ project. plain.told_unless (plain.fault_in (view value.now)) (view value.now)
        ≡ plain.directories (directories_of project)) }
    ensures fault { IfErr result (λ e. IfFault e (λ code. plain.told_unless (plain.fault_in (view value.now))
        (view value.now) ≡ plain.fault code)) }
{
    if let Some(code) = fault_in(value) {
        return Err(ProjectError::Fault(code));
    }
    let directories = match written_directories(value) {
        Some(items) => directories(alloc, items)?,
        None => Vec::new(alloc),
    };
    Ok(Project { directories })
}

/// Why a value describes no project, if it does not.
fn fault_in(value: &Value) -> Option<Code>
    ensures { result ≡ plain.fault_in (view value.now) }
{
    if !has_type(value) || !are_directories(written_directories(value)) {
        return Some(Code::NotApplication);
    }
    version_fault(value.get("elm-version"))
}

/// Whether the type of the project is the application.
fn has_type(value: &Value) -> bool
    ensures { result ≡ plain.has_type (view value.now) }
{
    match value.get("type").and_then(Value::as_str) {
        Some(text) => text == "application",
        None => false,
    }
}

/// Why the version is not this one, if it is not.
fn version_fault(version: Option<&Value>) -> Option<Code>
    ensures { result ≡ plain.version_fault (option_map (λ v. view v.now) version.entry) }
{
    match version {
        None => Some(Code::OtherVersion),
        Some(Value::String(text)) if text.as_str() == "0.19.1" => None,
        Some(Value::String(_)) => Some(Code::OtherVersion),
        Some(_) => Some(Code::NotApplication),
    }
}

/// The items of the list of source directories.
fn written_directories(value: &Value) -> Option<&Vec<Value>>
    ensures { option_map (λ items. items_view items.now.items) result ≡ plain.written_directories (view value.now) }
{
    value.get("source-directories").and_then(Value::as_array)
}

/// Whether these items are source directories, and some.
fn are_directories(items: Option<&Vec<Value>>) -> bool
    ensures { result ≡ plain.are_directories (option_map (λ items. items_view items.now.items) items.entry) }
{
    match items {
        Some(items) => !items.is_empty() && all_directories(items),
        None => false,
    }
}

/// Whether each item is a relative path.
fn all_directories(items: &[Value]) -> bool
    ensures { result ≡ plain.all_directories (items_view items.now) }
{
    for item in items {
        if !is_directory(item) {
            return false;
        }
    }
    true
}

/// Whether an item is a relative path.
fn is_directory(item: &Value) -> bool
    ensures { result ≡ plain.is_directory (as_str (view item.now)) }
{
    match item.as_str() {
        Some(path) => !is_absolute(path),
        None => false,
    }
}

/// The paths that are written, each once.
fn directories(alloc: Global, items: &[Value]) -> Result<Vec<String>, AllocError>
    ensures { IfOk result (λ paths. map string_bytes paths.items
        ≡ each_once [] (map normal_path (texts_in (items_view items.now)))) }
{
    let paths = distinct_paths(alloc, items)?;
    in_order(alloc, paths)
}

/// The paths that are written, each at its first place.
fn distinct_paths(alloc: Global, items: &[Value]) -> Result<IndexSet<String>, AllocError>
    ensures { IfOk result (λ paths. map string_bytes paths.keys
        ≡ each_once [] (map normal_path (texts_in (items_view items.now)))) }
{
    let mut paths = IndexSet::new(alloc);
    for item in items {
        if let Some(path) = item.as_str() {
            paths.insert(normal(alloc, path)?)?;
        }
    }
    Ok(paths)
}

/// The members of a set, in its order.
fn in_order(alloc: Global, paths: IndexSet<String>) -> Result<Vec<String>, AllocError>
    ensures { IfOk result (λ list. list.items ≡ paths.keys) }
{
    let mut list = Vec::with_capacity(alloc, paths.len())?;
    for path in paths {
        list.push(path)?;
    }
    Ok(list)
}
