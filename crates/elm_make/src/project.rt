//! One build of a project.

ghost use Rattle.std.specs.Prelude.{◌≡◌, ◌∷◌, [], ℕ, List, Some, length, map, codes, IfOk, IfSome};
ghost use Rattle.std.specs.List.{All};
ghost use Rattle.core_modules.specs.Library as core;
ghost use Rattle.elm_files.specs.Answers.{NoneFull};
ghost use Rattle.elm_files.specs.States.{files_state};
ghost use Rattle.import_graph.specs.Order.{IsOrder};
ghost use Rattle.import_graph.specs.Entries.{NamesEntry};
ghost use Rattle.import_graph.specs.Graph.{AreNumbered, names_of, uses_of};
ghost use Rattle.import_graph.specs.ModuleGraphView.{graph_modules};
ghost use Rattle.import_graph.specs.Entry.{HasEntry};
ghost use Rattle.import_graph.specs.Plain.{IsPlain};
ghost use Rattle.import_graph.specs.ModuleWalkView.{module_view, setting};
ghost use Rattle.project_parts.specs.Modules.{AreCoreModules, core_names, parts_of};
ghost use Rattle.project_parts.specs.Outcomes as plain;
ghost use Rattle.project_parts.specs.Outcomes.{Clean, ProjectBuilds, ToldBuilds, Builds, IsCompiled};
ghost use Rattle.project_file.specs.Paths.{normal_path};
ghost use Rattle.project_file.specs.Project.{project_of};
ghost use Rattle.project_file.specs.View.{directories_of};
ghost use Rattle.elm_make.specs.End.{HasOutcome, HasCount, IsBuilt, IsEndAt, IsFailureTold};
ghost use Rattle.elm_make.specs.Steps.{Holds, IsTold, IsStopped, IsFaulty};
ghost use Rattle.elm_make.specs.View.{outcome_view};

use crate::laws::count_law;
use crate::lines::{compiled, fault_lines, start_fault};
use crate::{Finished, compile};
use build_workers::Gate;
use elm_base::fault::{Code, Fault};
use elm_base::text::Text;
use elm_files::{FileError, Files, Got};
use import_graph::{CrawlEnd, Graph, Heads, crawl};
use project_file::paths::{is_absolute, normal};
use project_file::project::{Project, ProjectError, read};
use project_parts::{Library, core_library};
use project_proper::build_once_laws::outcome_law;
use std::alloc::{AllocError, Global};
use std::sync::Wait;
use std::thread::Threads;

/// The file of the project.
const PROJECT: &str = "elm.json";

/// The most bytes that the file of the project may have.
const MAX_PROJECT: u64 = 1_048_576;

/// The most bytes that the text of a program may have.
const MAX_OUTPUT: usize = 4_294_967_295;

/// The outcome of a build.
#[derive(Drop)]
pub enum Outcome {
    /// The build stopped before any module was compiled, for these faults of the words or of the project.
    Stopped(Vec<Fault>),
    /// Modules or their link have these faults.
    Faulty(Vec<Fault>),
    /// The text of the program, which the output file holds now.
    Text(Vec<u8>),
}

/// A build that was done.
#[derive(Drop)]
pub struct Built {
    pub outcome: Outcome,
    /// The number of modules of the project that were compiled: 0 if the build stopped before.
    pub modules: u32,
    /// What is printed: on standard output if there is a text, otherwise on standard error.
    pub lines: Vec<u8>,
}

/// Why a build was not done.
#[derive(Drop)]
pub enum BuildEnd {
    /// A call on the file of this path failed.
    File(Text),
    /// Memory ran out. It does for a text of a program of 2^32 bytes or more, too.
    NoMemory,
}

impl From<AllocError> for BuildEnd {
    ghost use Rattle.std.specs.Prelude.{◌≡◌};
    ghost use Rattle.elm_make.specs.declared.project.BuildEnd.TheVariants.{NoMemory};

    ghost from_gives = { λ _ e. e ≡ NoMemory };

    fn from(_error: AllocError) -> BuildEnd {
        BuildEnd::NoMemory
    }
}

/// Builds the project of the module at `entry`, and writes the text of its program to the path `output`. Both paths are
/// below the folder of `files`, which holds `elm.json`. A refused build writes nothing.
///
/// `jobs` is the number of workers, 1 to 64, and does nothing yet. `gate` stands around the compile of all modules.
pub fn build<R: Threads + Wait + Sync, F: Files, G: Gate + Sync>(
    _rt: &R,
    alloc: Global,
    files: &mut F,
    entry: &str,
    output: &str,
    _jobs: u32,
    gate: &G,
) -> Result<Built, BuildEnd>
    requires { NoneFull (F.faults files.old) }

    // The outcome is the one that the definition gives, and no other is.
    ensures outcome { HasOutcome (F.tree files.old) (λ tree. Clean tree entry.now output.now) result }
    ensures count { HasCount (F.tree files.old) entry.now result }

    // What the build leaves and reports, with an outcome or without one.
    ensures built { IsBuilt (normal_path output.now) result
        (files_state F.Files files.old) (files_state F.Files files.new) }
{
    outcome_law();
    count_law();
    build_checked(alloc, files, gate, entry, output)
}

/// Checks the path of the output, and builds the project of the entry.
fn build_checked<F: Files, G: Gate>(
    alloc: Global,
    files: &mut F,
    gate: &G,
    entry: &str,
    output: &str,
) -> Result<Built, BuildEnd>
    requires { NoneFull (F.faults files.old) }
    ensures outcome { Holds (F.tree files.old) entry.now (λ tree. Clean tree entry.now output.now) result }
    ensures built { IsBuilt (normal_path output.now) result
        (files_state F.Files files.old) (files_state F.Files files.new) }
{
    let file = normal(alloc, output)?;
    if is_absolute(output) {
        return Ok(stopped(alloc, Code::BadOutput, output)?);
    }
    if !is_output(&file) {
        return Ok(stopped(alloc, Code::BadOutput, &file)?);
    }
    build_project(alloc, files, gate, entry, &file)
}

/// Whether a relative path may be written to as an output: it ends in `.js`.
fn is_output(path: &str) -> bool
    ensures { result ≡ plain.is_output path.now }
{
    path.as_bytes().ends_with(b".js")
}

/// Reads the file of the project, and builds the project of the entry into `file`.
fn build_project<F: Files, G: Gate>(
    alloc: Global,
    files: &mut F,
    gate: &G,
    entry: &str,
    file: &str,
) -> Result<Built, BuildEnd>
    requires { NoneFull (F.faults files.old) }
    ensures outcome { Holds (F.tree files.old) entry.now
        (λ tree. ProjectBuilds tree entry.now (tree (codes "elm.json"))) result }
    ensures built { IsBuilt file.now result (files_state F.Files files.old) (files_state F.Files files.new) }
{
    let path = Text::copy(alloc, PROJECT.as_bytes())?;
    match files.read(PROJECT, MAX_PROJECT) {
        Ok(Got::Bytes(bytes)) => build_told(alloc, files, gate, &bytes, entry, file),
        Ok(Got::TooLong) => Ok(stopped(alloc, Code::NotJson, PROJECT)?),
        Ok(Got::Absent) => Ok(stopped(alloc, Code::ProjectMissing, PROJECT)?),
        Err(error) => Err(failed(error, path)),
    }
}

/// Builds the project that a file `elm.json` of these bytes describes.
fn build_told<F: Files, G: Gate>(
    alloc: Global,
    files: &mut F,
    gate: &G,
    bytes: &[u8],
    entry: &str,
    file: &str,
) -> Result<Built, BuildEnd>
    requires none_full { NoneFull (F.faults files.old) }
    requires there { IfSome (F.tree files.old) (λ tree. tree (codes "elm.json") ≡ Some bytes.now) }
    ensures outcome { Holds (F.tree files.old) entry.now
        (λ tree. ToldBuilds tree entry.now (project_of bytes.now)) result }
    ensures built { IsBuilt file.now result (files_state F.Files files.old) (files_state F.Files files.new) }
{
    match read(alloc, bytes) {
        Ok(project) => build_modules(alloc, files, gate, &project, entry, file),
        Err(error) => match error {
            ProjectError::Fault(code) => Ok(stopped(alloc, code, PROJECT)?),
            ProjectError::NoMemory => Err(BuildEnd::NoMemory),
        },
    }
}

/// Finds the modules of a project, and builds them.
fn build_modules<F: Files, G: Gate>(
    alloc: Global,
    files: &mut F,
    gate: &G,
    project: &Project,
    entry: &str,
    file: &str,
) -> Result<Built, BuildEnd>
    requires none_full { NoneFull (F.faults files.old) }
    requires told { IfSome (F.tree files.old) (IsTold project.now) }
    ensures outcome { Holds (F.tree files.old) entry.now
        (λ tree. Builds (setting tree project.now core_names) entry.now) result }
    ensures built { IsBuilt file.now result (files_state F.Files files.old) (files_state F.Files files.new) }
{
    let library = core_library(alloc)?;
    match crawl(alloc, &Heads, files, project, &library.names, entry) {
        Ok(graph) => build_graph(alloc, files, gate, &library, &graph, project, entry, file),
        Err(end) => match end {
            CrawlEnd::Refused(fault) => Ok(stopped_by(alloc, fault)?),
            CrawlEnd::File(path) => Err(BuildEnd::File(path)),
            CrawlEnd::NoMemory => Err(BuildEnd::NoMemory),
        },
    }
}

/// Compiles the modules of a project after those of the core library, and writes their program to `file`.
fn build_graph<F: Files, G: Gate>(
    alloc: Global,
    files: &mut F,
    gate: &G,
    library: &Library,
    graph: &Graph,
    project: &Project,
    entry: &str,
    file: &str,
) -> Result<Built, BuildEnd>
    requires none_full { NoneFull (F.faults files.old) }
    requires core { AreCoreModules [] core.core_library (map module_view library.now.modules.items) }
    requires plain { All (IsPlain core_names) (graph_modules graph.now) }
    requires numbered { AreNumbered (graph_modules graph.now) }
    requires order { IsOrder (uses_of (graph_modules graph.now)) [] graph.now.order.items }
    requires entry { HasEntry (directories_of project.now) entry.now (names_of (graph_modules graph.now)) }
    ensures outcome { IfOk result (λ built. (name : List ℕ)
        → NamesEntry (normal_path entry.now) (directories_of project.now) name
        → IsCompiled (parts_of (map module_view library.now.modules.items) (graph_modules graph.now)
        graph.now.order.items) name (outcome_view built.outcome)) }
    ensures count { IfOk result (λ built. built.modules ≡ length (graph_modules graph.now)) }
    ensures built { IsBuilt file.now result (files_state F.Files files.old) (files_state F.Files files.new) }
{
    let modules = count(graph);
    gate.before(0, 0);
    let finished = compile(alloc, library, graph, &project.directories, entry);
    gate.after(0, 0);
    let finished = finished?;
    match finished {
        Finished::Text(text) => write_text(alloc, files, text, modules, file),
        Finished::Faulty(faults) => Ok(faulty(alloc, faults, modules)?),
    }
}

/// How many modules a project has.
fn count(graph: &Graph) -> u32
    requires { AreNumbered (graph_modules graph.now) }
    ensures { result ≡ length (graph_modules graph.now) }
{
    graph.modules.len() as u32
}

/// Writes the text of the program of so many modules to `file`. Memory runs out for a text that is too long.
fn write_text<F: Files>(
    alloc: Global,
    files: &mut F,
    text: Vec<u8>,
    modules: u32,
    file: &str,
) -> Result<Built, BuildEnd>
    requires { NoneFull (F.faults files.old) }
    ensures text { IfOk result (λ built. outcome_view built.outcome ≡ plain.Text text.items) }
    ensures count { IfOk result (λ built. built.modules ≡ modules) }
    ensures built { IsBuilt file.now result (files_state F.Files files.old) (files_state F.Files files.new) }
{
    if text.len() > MAX_OUTPUT {
        return Err(BuildEnd::NoMemory);
    }
    let lines = compiled(alloc, file, modules)?;
    let path = Text::copy(alloc, file.as_bytes())?;
    match files.write(file, &text) {
        Ok(()) => Ok(Built {
            outcome: Outcome::Text(text),
            modules,
            lines,
        }),
        Err(error) => Err(failed(error, path)),
    }
}

/// The end of a build whose call on the file at `path` returned an error.
fn failed(error: FileError, path: Text) -> BuildEnd
    ensures end { IsEndAt result path error }
    ensures told { IsFailureTold error result }
{
    match error {
        FileError::Failed => BuildEnd::File(path),
        FileError::NoMemory => BuildEnd::NoMemory,
    }
}

/// A build that stopped for a fault without detail at the start of the file at `path`.
fn stopped(alloc: Global, code: Code, path: &str) -> Result<Built, AllocError>
    ensures { IfOk result (IsStopped (plain.start_fault code path.now ∷ [])) }
{
    let fault = start_fault(alloc, code, path)?;
    stopped_by(alloc, fault)
}

/// A build that stopped for a fault.
fn stopped_by(alloc: Global, fault: Fault) -> Result<Built, AllocError>
    ensures { IfOk result (IsStopped (fault ∷ [])) }
{
    let mut faults = Vec::new(alloc);
    faults.push(fault)?;
    let lines = fault_lines(alloc, &faults)?;
    Ok(Built {
        outcome: Outcome::Stopped(faults),
        modules: 0,
        lines,
    })
}

/// A build of so many modules that have faults.
fn faulty(alloc: Global, faults: Vec<Fault>, modules: u32) -> Result<Built, AllocError>
    ensures { IfOk result (IsFaulty faults.items modules) }
{
    let lines = fault_lines(alloc, &faults)?;
    Ok(Built {
        outcome: Outcome::Faulty(faults),
        modules,
        lines,
    })
}
