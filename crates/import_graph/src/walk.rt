//! The walk from an entry to all modules that it reaches.

ghost use Rattle.std.specs.Prelude.{◌≡◌, ℕ, ◌<◌, ◌≤◌, ◌+◌, ◌++◌, ◌∷◌, [], Some, None, List, length, map};
ghost use Rattle.std.specs.Prelude.{slice_get, slice_set, IfOk, IfErr, OnOk, IfSome};
ghost use Rattle.std.specs.List.{All, Contains};
ghost use Rattle.std.specs.Vec.{vec_len};
ghost use Rattle.elm_files.specs.Answers.{NoneFull};
ghost use Rattle.import_graph.specs.Places.{HasCause};
ghost use Rattle.project_file.specs.View.{directories_of};
ghost use Rattle.import_graph.specs.Entry.{IsEntry, HasEntry, HasNoEntry};
ghost use Rattle.import_graph.specs.Modules.{Word, Source, Imports, AreReached, AreTooMany, kind_of};
ghost use Rattle.import_graph.specs.Plain.{IsPlain, IsPlainImport, names_of};
ghost use Rattle.import_graph.specs.ModuleWalkView.{setting, located_view, import_view, source_view, module_view, HasReason};
ghost use Rattle.import_graph.specs.Walk.{known_at, modules_of, walk_sources, added, IsWalk, IsWalked, Grows, IsReadAt};
ghost use Rattle.import_graph.specs.Walk.{IsPlainWalk, Meets};
ghost use Rattle.import_graph.specs.Words.{word_view};
ghost use Rattle.import_graph.specs.ModuleWalkView.{with_imports};
ghost use Rattle.import_graph.specs.declared.walk.Module.{Module as PlainModule};

use crate::entry::entry_module;
use crate::found::{Found, Located, locate};
use crate::known::Known;
use crate::places::ReadError;
use crate::reader::{Reader, Written};
use elm_base::position::Pos;
use elm_base::text::Text;
use elm_files::Files;
use indexmap::IndexSet;
use project_file::project::Project;
use std::alloc::{AllocError, AllocFailed, Global};

/// The most modules that a project may have.
const MAX_MODULES: usize = 4096;

/// An import of a module.
#[derive(Debug, Drop)]
pub struct Import {
    /// The name of the module that is imported, with its dots.
    pub name: Text,
    /// Where the name begins.
    pub place: Pos,
    /// Which modules have the name.
    pub found: Found,
}

/// A module of a project.
#[derive(Debug, Drop)]
pub struct Module {
    /// Its name, with its dots.
    pub name: Text,
    /// The path of its file below the folder of the project's file.
    pub path: String,
    /// The bytes of its file, unless there are more than 4,194,304 of them.
    pub text: Option<Vec<u8>>,
    /// What it imports, in written order.
    pub imports: Vec<Import>,
}

/// Why modules are not told.
#[derive(Debug, Drop)]
pub enum ReachError {
    /// The entry is not a module of the project.
    NoEntry,
    /// The entry reaches more than 4,096 modules.
    TooMany,
    /// A call on the file of this path failed.
    File(Text),
    /// Memory ran out.
    NoMemory,
}

impl From<ReadError> for ReachError {
    ghost use Rattle.std.specs.Prelude.{◌≡◌};
    ghost use Rattle.import_graph.specs.ModuleWalkView.{read_reason};

    ghost from_gives = { λ error e. e ≡ read_reason error };

    fn from(error: ReadError) -> ReachError {
        match error {
            ReadError::File(path) => ReachError::File(path),
            ReadError::NoMemory => ReachError::NoMemory,
        }
    }
}

impl<T: Drop> From<AllocFailed<T>> for ReachError {
    ghost use Rattle.std.specs.Prelude.{◌≡◌};
    ghost use Rattle.import_graph.specs.declared.walk.ReachError.TheVariants.{NoMemory};

    ghost from_gives = { λ _ e. e ≡ NoMemory };

    fn from(_failed: AllocFailed<T>) -> ReachError {
        ReachError::NoMemory
    }
}

impl From<AllocError> for ReachError {
    ghost use Rattle.std.specs.Prelude.{◌≡◌};
    ghost use Rattle.import_graph.specs.declared.walk.ReachError.TheVariants.{NoMemory};

    ghost from_gives = { λ _ e. e ≡ NoMemory };

    fn from(_error: AllocError) -> ReachError {
        ReachError::NoMemory
    }
}

/// The modules that were met so far, in that order, and all names that were met.
#[derive(Drop)]
pub(crate) struct Walk {
    /// The name of the first module, which is the entry.
    entry: Text,
    modules: Vec<Module>,
    known: Known,
}

/// The modules that the entry reaches by its imports, each once: the entry, and each module whose name one of them
/// imports, where one file of the project alone has the name.
///
/// `entry` is the path of the entry's file below the folder of the project's file. It may have empty parts and parts
/// `.`. `core` has the names of the core modules. `reader` reads what the text of a module imports. A module's file is
/// read at most once, but for the entry's where a module that it reaches imports it. Nothing is written. The error is
/// as `ReachError` says.
pub fn reach<F: Files, R: Reader>(
    alloc: Global,
    reader: &R,
    files: &mut F,
    project: &Project,
    core: &IndexSet<Text>,
    entry: &str,
) -> Result<Vec<Module>, ReachError>
    requires { NoneFull (F.faults files.old) }
    ensures reached { IfOk result (λ modules. IfSome (F.tree files.old) (λ tree. (m : Source)
        × IsEntry (setting tree project.now core.now.keys) entry.now m
        × AreReached R.has_imports (setting tree project.now core.now.keys) m (map module_view modules.items))) }
    ensures plain { IfOk result (λ modules. All (IsPlain core.now.keys) (map module_view modules.items)) }
    ensures entry { IfOk result (λ modules. HasEntry (directories_of project.now) entry.now
        (names_of (map module_view modules.items))) }
    ensures count { IfOk result (λ modules. vec_len modules ≤ 4096) }
    ensures tree { F.tree files.new ≡ F.tree files.old }
    ensures no_fault { OnOk result (F.faults files.new ≡ F.faults files.old) }
    ensures error { IfErr result (λ e. HasReason e
        (IfSome (F.tree files.old) (λ tree. HasNoEntry (setting tree project.now core.now.keys) entry.now))
        (IfSome (F.tree files.old) (λ tree. (m : Source) × IsEntry (setting tree project.now core.now.keys) entry.now m
        × AreTooMany R.has_imports (setting tree project.now core.now.keys) m))
        (F.faults files.old) (F.faults files.new)) }
{
    match entry_module(alloc, files, project, core, entry)? {
        Some(first) => Ok(walk_from(alloc, reader, files, project, core, first)?.modules),
        None => Err(ReachError::NoEntry),
    }
}

/// The walk from the first module to all that it reaches.
fn walk_from<F: Files, R: Reader>(
    alloc: Global,
    reader: &R,
    files: &mut F,
    project: &Project,
    core: &IndexSet<Text>,
    first: Module,
) -> Result<Walk, ReachError>
    requires not_full { NoneFull (F.faults files.old) }
    requires plain { IsPlain core.now.keys (module_view first) }
    ensures reached { IfOk result (λ walk. IfSome (F.tree files.old) (λ tree.
        AreReached R.has_imports (setting tree project.now core.now.keys) (source_view first)
        (map module_view walk.modules.items))) }
    ensures plain { IfOk result (λ walk. All (IsPlain core.now.keys) (modules_of walk)) }
    ensures first { IfOk result (λ walk. Contains (walk_sources walk) (source_view first)) }
    ensures count { IfOk result (λ walk. vec_len walk.modules ≤ 4096) }
    ensures tree { F.tree files.new ≡ F.tree files.old }
    ensures no_fault { OnOk result (F.faults files.new ≡ F.faults files.old) }
    ensures error { IfErr result (λ e. HasReason e ⊥ (IfSome (F.tree files.old) (λ tree.
        AreTooMany R.has_imports (setting tree project.now core.now.keys) (source_view first)))
        (F.faults files.old) (F.faults files.new)) }
{
    let mut walk = Walk::new(alloc, first)?;
    for index in 0..MAX_MODULES {
        if let Err(error) = walk.step(alloc, reader, files, project, core, index) {
            return Err(error);
        }
    }
    Ok(walk)
}

impl Walk {
    /// The walk that has met its first module alone.
    fn new(alloc: Global, first: Module) -> Result<Walk, AllocError>
        ensures entry { IfOk result (λ w. w.entry ≡ first.name) }
        ensures modules { IfOk result (λ w. w.modules.items ≡ first ∷ []) }
        ensures known { IfOk result (λ w. (x : List ℕ) → known_at w.known x ≡ None) }
    {
        let entry = first.name.clone()?;
        let mut modules = Vec::new(alloc);
        modules.push(first)?;
        Ok(Walk {
            entry,
            modules,
            known: Known::new(alloc),
        })
    }

    /// Reads what the module at `index` imports, if there is such a module, and meets those names.
    fn step<F: Files, R: Reader>(
        &mut self,
        alloc: Global,
        reader: &R,
        files: &mut F,
        project: &Project,
        core: &IndexSet<Text>,
        index: usize,
    ) -> Result<(), ReachError>
        requires not_full { NoneFull (F.faults files.old) }
        requires few { vec_len self.old.modules ≤ 4096 }
        ensures walked { OnOk result (IfSome (F.tree files.old) (λ tree. (m : Source)
            → IsWalked R.has_imports (setting tree project.now core.now.keys) m self.old index
            → IsWalked R.has_imports (setting tree project.now core.now.keys) m self.new (index + 1))) }
        ensures plain { OnOk result (IsPlainWalk core.now.keys self.old → IsPlainWalk core.now.keys self.new) }
        ensures sources { OnOk result ((m : Source) → Contains (walk_sources self.old) m
            → Contains (walk_sources self.new) m) }
        ensures few { OnOk result (vec_len self.new.modules ≤ 4096) }
        ensures tree { F.tree files.new ≡ F.tree files.old }
        ensures no_fault { OnOk result (F.faults files.new ≡ F.faults files.old) }
        ensures error { IfErr result (λ e. HasReason e ⊥ (IfSome (F.tree files.old) (λ tree. (m : Source)
            → IsWalk R.has_imports (setting tree project.now core.now.keys) m self.old
            → AreTooMany R.has_imports (setting tree project.now core.now.keys) m))
            (F.faults files.old) (F.faults files.new)) }
    {
        if index >= self.modules.len() {
            return Ok(());
        }
        let imports = self.imports_at(alloc, reader, files, project, core, index)?;
        put_imports(&mut self.modules, index, imports);
        Ok(())
    }

    /// What the module at `index` imports, whose names are met.
    fn imports_at<F: Files, R: Reader>(
        &mut self,
        alloc: Global,
        reader: &R,
        files: &mut F,
        project: &Project,
        core: &IndexSet<Text>,
        index: usize,
    ) -> Result<Vec<Import>, ReachError>
        requires not_full { NoneFull (F.faults files.old) }
        requires few { vec_len self.old.modules ≤ 4096 }
        requires within { index < vec_len self.old.modules }
        ensures read { IfOk result (λ imports. IfSome (F.tree files.old) (λ tree. (m : Source)
            → IsWalk R.has_imports (setting tree project.now core.now.keys) m self.old
            → IsReadAt R.has_imports (setting tree project.now core.now.keys) self.old self.new index
            (map import_view imports.items))) }
        ensures walk { OnOk result (IfSome (F.tree files.old) (λ tree. (m : Source)
            → IsWalk R.has_imports (setting tree project.now core.now.keys) m self.old
            → IsWalk R.has_imports (setting tree project.now core.now.keys) m self.new)) }
        ensures plain { IfOk result (λ imports. IsPlainWalk core.now.keys self.old
            → IsPlainWalk core.now.keys self.new × All (IsPlainImport core.now.keys) (map import_view imports.items)) }
        ensures grows { OnOk result (Grows self.old self.new) }
        ensures few { OnOk result (vec_len self.new.modules ≤ 4096) }
        ensures tree { F.tree files.new ≡ F.tree files.old }
        ensures no_fault { OnOk result (F.faults files.new ≡ F.faults files.old) }
        ensures error { IfErr result (λ e. HasReason e ⊥ (IfSome (F.tree files.old) (λ tree. (m : Source)
            → IsWalk R.has_imports (setting tree project.now core.now.keys) m self.old
            → AreTooMany R.has_imports (setting tree project.now core.now.keys) m))
            (F.faults files.old) (F.faults files.new)) }
    {
        let written = written_imports(alloc, reader, &self.modules[index])?;
        let mut imports = Vec::with_capacity(alloc, written.len())?;
        for import in written {
            let found = self.meet(alloc, files, project, core, &import.name)?;
            if self.modules.len() > MAX_MODULES {
                return Err(ReachError::TooMany);
            }
            imports.push(Import {
                name: import.name,
                place: import.place,
                found,
            })?;
        }
        Ok(imports)
    }

    /// Which modules have the name. Its file is a further module of the walk, where it is met for the first time.
    fn meet<F: Files>(
        &mut self,
        alloc: Global,
        files: &mut F,
        project: &Project,
        core: &IndexSet<Text>,
        name: &Text,
    ) -> Result<Found, ReadError>
        requires { NoneFull (F.faults files.old) }
        ensures met { IfOk result (λ found. known_at self.new.known name.now ≡ Some found) }
        ensures step { OnOk result (IfSome (F.tree files.old) (λ tree.
            Meets (setting tree project.now core.now.keys) self.old self.new name.now)) }
        ensures plain { OnOk result (IsPlainWalk core.now.keys self.old → IsPlainWalk core.now.keys self.new) }
        ensures grows { OnOk result (Grows self.old self.new) }
        ensures count { OnOk result (vec_len self.new.modules ≤ vec_len self.old.modules + 1) }
        ensures tree { F.tree files.new ≡ F.tree files.old }
        ensures no_fault { OnOk result (F.faults files.new ≡ F.faults files.old) }
        ensures error { IfErr result (λ e. HasCause e (F.faults files.old) (F.faults files.new)) }
    {
        if let Some(found) = self.known.find(name) {
            return Ok(found);
        }
        let located = locate(alloc, files, project, core, name)?;
        let found = self.add(alloc, name, located)?;
        self.known.note(name, found)?;
        Ok(found)
    }

    /// Puts the file at the end of the walk, unless its name is the entry's.
    fn add(&mut self, alloc: Global, name: &Text, located: Located) -> Result<Found, AllocError>
        ensures found { IfOk result (λ found. found ≡ kind_of (located_view located)) }
        ensures modules { OnOk result (modules_of self.new ≡ modules_of self.old
            ++ added self.old.entry name.now (located_view located)) }
        ensures entry { OnOk result (self.new.entry ≡ self.old.entry) }
        ensures known { OnOk result (self.new.known ≡ self.old.known) }
        ensures count { OnOk result (vec_len self.new.modules ≤ vec_len self.old.modules + 1) }
    {
        match located {
            Located::Nowhere => Ok(Found::Nowhere),
            Located::Core => Ok(Found::Core),
            Located::File(source) => {
                if *name != self.entry {
                    self.modules.push(Module {
                        name: name.clone()?,
                        path: source.path,
                        text: source.text,
                        imports: Vec::new(alloc),
                    })?;
                }
                Ok(Found::File)
            }
            Located::Several => Ok(Found::Several),
        }
    }
}

/// Writes the imports of the module at a place.
fn put_imports(modules: &mut Vec<Module>, index: usize, imports: Vec<Import>)
    requires { index < length modules.old.items }
    ensures count { vec_len modules.new ≡ vec_len modules.old }
    ensures written { (m : PlainModule) → slice_get modules.old.items index ≡ Some m
        → modules.new.items ≡ slice_set modules.old.items index (with_imports m imports) }
{
    modules[index].imports = imports;
}

/// What the text of a module imports.
fn written_imports<R: Reader>(
    alloc: Global,
    reader: &R,
    importer: &Module,
) -> Result<Vec<Written>, AllocError>
    ensures found { IfOk result (λ v. Imports R.has_imports (source_view importer.now) (map word_view v.items)) }
    ensures only { IfOk result (λ v. (words : List Word) → Imports R.has_imports (source_view importer.now) words
        → words ≡ map word_view v.items) }
{
    match &importer.text {
        Some(text) => reader.imports(alloc, text),
        None => Ok(Vec::new(alloc)),
    }
}
