//! The import graph of a project.

ghost use Rattle.std.specs.Prelude.{◌≡◌, ◌≤◌, ℕ, List, [], length, map, IfOk, IfErr, OnOk, IfSome};
ghost use Rattle.std.specs.List.{All};
ghost use Rattle.decl_groups.specs.Groups as groups;
ghost use Rattle.elm_files.specs.Answers.{NoneFull};
ghost use Rattle.import_graph.specs.Order.{IsOrder, IsRing};
ghost use Rattle.import_graph.specs.Entry.{HasEntry};
ghost use Rattle.import_graph.specs.Modules as walk;
ghost use Rattle.import_graph.specs.Plain.{IsPlain};
ghost use Rattle.import_graph.specs.ModuleWalkView.{setting, module_view};
ghost use Rattle.import_graph.specs.Graph as numbered;
ghost use Rattle.import_graph.specs.Graph.{AreModules, AreNumbered};
ghost use Rattle.import_graph.specs.Faults as plain;
ghost use Rattle.import_graph.specs.Faults.{IsRefused};
ghost use Rattle.import_graph.specs.ModuleGraphView.{graph_modules, AreNamed, IsOf, HasEnd, IfRefused, IsEndOf};
ghost use Rattle.project_file.specs.View.{directories_of};

use crate::faults::{entry_fault, ring_fault};
use crate::numbers::{by_name, uses_of};
use crate::{Module, OrderError, ReachError, Reader, order, reach};
use elm_base::fault::{Code, Fault};
use elm_base::text::Text;
use elm_files::Files;
use indexmap::{IndexMap, IndexSet};
use project_file::project::Project;
use std::alloc::{AllocError, AllocFailed, Global};

/// The modules of a project and how they import each other.
#[derive(Drop)]
pub struct Graph {
    /// The modules by their names, in ascending order. The place of a module is its number.
    pub modules: IndexMap<Text, Module>,
    /// For each module, the numbers of the modules of the project that it imports, in written order.
    pub uses: Vec<Vec<u32>>,
    /// The numbers of the modules in order: repeatedly the least of the modules whose imports are all placed. The core
    /// modules stand before them.
    pub order: Vec<u32>,
}

/// Why there is no graph.
#[derive(Debug, Drop)]
pub enum CrawlEnd {
    /// The project is refused, for this fault.
    Refused(Fault),
    /// A call on the file of this path failed.
    File(Text),
    /// Memory ran out.
    NoMemory,
}

impl<T: Drop> From<AllocFailed<T>> for CrawlEnd {
    ghost use Rattle.std.specs.Prelude.{◌≡◌};
    ghost use Rattle.import_graph.specs.declared.crawling.CrawlEnd.TheVariants.{NoMemory};

    ghost from_gives = { λ _ e. e ≡ NoMemory };

    fn from(_failed: AllocFailed<T>) -> CrawlEnd {
        CrawlEnd::NoMemory
    }
}

impl From<AllocError> for CrawlEnd {
    ghost use Rattle.std.specs.Prelude.{◌≡◌};
    ghost use Rattle.import_graph.specs.declared.crawling.CrawlEnd.TheVariants.{NoMemory};

    ghost from_gives = { λ _ e. e ≡ NoMemory };

    fn from(_error: AllocError) -> CrawlEnd {
        CrawlEnd::NoMemory
    }
}

/// The import graph of the modules that the entry reaches.
///
/// `entry` is the path of the entry's file below the folder of the project's file. It may have empty parts and parts
/// `.`. `core` has the names of the core modules, which import no module of a project. `reader` reads what the text of
/// a module imports. Nothing is written. Beside the reading it takes time in proportion to the number of imports, but for
/// the sorting of the modules.
///
/// The project is refused for `EntryNotFound` where the entry is no module of the project, for `TooManyModules` where
/// it reaches more than 4,096 modules, and for `ImportCycle` where some module reaches itself by imports. Any other
/// error is a path at which a call on `files` failed, or out of memory.
pub fn crawl<F: Files, R: Reader>(
    alloc: Global,
    reader: &R,
    files: &mut F,
    project: &Project,
    core: &IndexSet<Text>,
    entry: &str,
) -> Result<Graph, CrawlEnd>
    requires { NoneFull (F.faults files.old) }
    ensures modules { IfOk result (λ graph. IfSome (F.tree files.old) (λ tree.
        AreModules R.has_imports (setting tree project.now core.now.keys) entry.now (graph_modules graph))) }
    ensures plain { IfOk result (λ graph. All (IsPlain core.now.keys) (graph_modules graph)) }
    ensures entry { IfOk result (λ graph. HasEntry (directories_of project.now) entry.now
        (numbered.names_of (graph_modules graph))) }
    ensures named { IfOk result (λ graph. AreNamed graph.modules) }
    ensures numbered { IfOk result (λ graph. AreNumbered (graph_modules graph)) }
    ensures uses { IfOk result (λ graph. groups.plain graph.uses.items ≡ numbered.uses_of (graph_modules graph)) }
    ensures order { IfOk result (λ graph. IsOrder (numbered.uses_of (graph_modules graph)) [] graph.order.items) }
    ensures tree { F.tree files.new ≡ F.tree files.old }
    ensures no_fault { OnOk result (F.faults files.new ≡ F.faults files.old) }
    ensures error { IfErr result (λ e. HasEnd e (λ fault. IfSome (F.tree files.old) (λ tree.
        IsRefused R.has_imports (setting tree project.now core.now.keys) entry.now fault))
        (F.faults files.old) (F.faults files.new)) }
{
    match reach(alloc, reader, files, project, core, entry) {
        Ok(modules) => graph_of(alloc, modules),
        Err(error) => Err(end_of(alloc, error, entry)),
    }
}

/// How a crawl ends where the modules are not told.
fn end_of(alloc: Global, error: ReachError, entry: &str) -> CrawlEnd
    ensures { IsEndOf error entry.now result }
{
    match error {
        ReachError::NoEntry => refused(alloc, Code::EntryNotFound, entry),
        ReachError::TooMany => refused(alloc, Code::TooManyModules, entry),
        ReachError::File(path) => CrawlEnd::File(path),
        ReachError::NoMemory => CrawlEnd::NoMemory,
    }
}

/// The end of a crawl that is refused for a fault of the entry.
fn refused(alloc: Global, code: Code, entry: &str) -> CrawlEnd
    ensures { IfRefused result (λ fault. fault ≡ plain.entry_fault code entry.now) }
{
    match entry_fault(alloc, code, entry) {
        Ok(fault) => CrawlEnd::Refused(fault),
        Err(_) => CrawlEnd::NoMemory,
    }
}

/// The graph of these modules.
fn graph_of(alloc: Global, modules: Vec<Module>) -> Result<Graph, CrawlEnd>
    requires { length modules.items ≤ 4096 }
    ensures modules { IfOk result (λ graph. IsOf (map module_view modules.items) (graph_modules graph)) }
    ensures named { IfOk result (λ graph. AreNamed graph.modules) }
    ensures uses { IfOk result (λ graph. groups.plain graph.uses.items ≡ numbered.uses_of (graph_modules graph)) }
    ensures order { IfOk result (λ graph. IsOrder (numbered.uses_of (graph_modules graph)) [] graph.order.items) }
    ensures ring { IfErr result (λ e. IfRefused e (λ fault. (ms : List walk.Module) × (ring : List ℕ)
        × IsOf (map module_view modules.items) ms × IsRing (numbered.uses_of ms) ring
        × (fault ≡ plain.ring_fault ms ring))) }
{
    let modules = by_name(alloc, modules)?;
    let uses = uses_of(alloc, &modules)?;
    match order(alloc, &uses) {
        Ok(order) => Ok(Graph {
            modules,
            uses,
            order,
        }),
        Err(OrderError::Ring(ring)) => Err(CrawlEnd::Refused(ring_fault(alloc, &modules, &ring)?)),
        Err(OrderError::NoMemory) => Err(CrawlEnd::NoMemory),
    }
}
