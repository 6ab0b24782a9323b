//! Where modules stand.

ghost use Rattle.std.specs.Prelude.{◌≡◌, ◌≤◌, ℕ, List, IfOk, IfErr, OnOk, IfSome, map, option_map, string_bytes};
ghost use Rattle.std.specs.Prelude.{is_some};
ghost use Rattle.elm_files.specs.Answers.{NoneFull};
ghost use Rattle.import_graph.specs.Places as plain;
ghost use Rattle.import_graph.specs.Places.{place_of, place_view, Fits, FileFits, HasCause};

use elm_base::text::Text;
use elm_files::{FileError, Files, Got};
use project_file::paths::{inside, module_path};
use std::alloc::{AllocError, Global};

/// The most bytes that the text of a module may have.
const MAX_TEXT: u64 = 4_194_304;

/// The file of a module.
#[derive(Debug, Drop)]
pub struct Source {
    /// Its path below the folder of the project's file.
    pub path: String,
    /// Its bytes, unless there are more than 4,194,304 of them.
    pub text: Option<Vec<u8>>,
}

/// Where the module of a name stands.
#[derive(Debug, Drop)]
pub enum Place {
    /// No source directory has a file for it.
    Nowhere,
    /// One source directory has this file for it.
    At(Source),
    /// Several source directories have a file for it.
    Several,
}

/// Why files were not read.
#[derive(Debug, Drop)]
pub enum ReadError {
    /// A call on the file of this path failed.
    File(Text),
    /// Memory ran out.
    NoMemory,
}

impl From<AllocError> for ReadError {
    ghost use Rattle.std.specs.Prelude.{◌≡◌};
    ghost use Rattle.import_graph.specs.declared.places.ReadError.TheVariants.{NoMemory};

    ghost from_gives = { λ _ e. e ≡ NoMemory };

    fn from(_error: AllocError) -> ReadError {
        ReadError::NoMemory
    }
}

/// Where the module of a name stands below the source directories, which are those of the project.
///
/// Each path is read at most once. Nothing is written. The error is a path at which a call on `files` failed, or out of
/// memory.
pub fn find<F: Files>(
    alloc: Global,
    files: &mut F,
    directories: &[String],
    name: &str,
) -> Result<Place, ReadError>
    requires { NoneFull (F.faults files.old) }
    ensures place { IfOk result (λ place. IfSome (F.tree files.old) (λ tree.
        place_view place ≡ place_of tree (map string_bytes directories.now) name.now)) }
    ensures fits { IfOk result (λ place. FileFits (place_view place)) }
    ensures tree { F.tree files.new ≡ F.tree files.old }
    ensures no_fault { OnOk result (F.faults files.new ≡ F.faults files.old) }
    ensures error { IfErr result (λ e. HasCause e (F.faults files.old) (F.faults files.new)) }
{
    let path = module_path(alloc, name)?;
    let mut found = None;
    for directory in directories {
        let path = inside(alloc, directory, &path)?;
        if let Some(source) = read(files, path)? {
            if found.is_some() {
                return Ok(Place::Several);
            }
            found = Some(source);
        }
    }
    match found {
        Some(source) => Ok(Place::At(source)),
        None => Ok(Place::Nowhere),
    }
}

/// The file at a path, if there is one. The error is the path, at which the call on `files` failed, or out of memory.
pub fn read<F: Files>(files: &mut F, path: String) -> Result<Option<Source>, ReadError>
    requires { NoneFull (F.faults files.old) }
    ensures file { IfOk result (λ file. IfSome (F.tree files.old) (λ tree.
        is_some file ≡ is_some (tree (string_bytes path)))) }
    ensures source { IfOk result (λ file. IfSome file (λ s. s.path ≡ path)) }
    ensures text { IfOk result (λ file. IfSome file (λ s. IfSome (F.tree files.old) (λ tree.
        plain.text_view s ≡ plain.text_at tree (string_bytes path)))) }
    ensures fits { IfOk result (λ file. IfSome file (λ s. Fits (plain.text_view s))) }
    ensures tree { F.tree files.new ≡ F.tree files.old }
    ensures no_fault { OnOk result (F.faults files.new ≡ F.faults files.old) }
    ensures error { IfErr result (λ e. HasCause e (F.faults files.old) (F.faults files.new)) }
{
    match files.read(&path, MAX_TEXT) {
        Ok(Got::Absent) => Ok(None),
        Ok(Got::Bytes(text)) => Ok(Some(Source {
            path,
            text: Some(text),
        })),
        Ok(Got::TooLong) => Ok(Some(Source { path, text: None })),
        Err(FileError::Failed) => Err(ReadError::File(Text::from_vec(path.into_bytes()))),
        Err(FileError::NoMemory) => Err(ReadError::NoMemory),
    }
}
