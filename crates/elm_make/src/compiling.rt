//! What a project compiles to.

ghost use Rattle.std.specs.Prelude.{◌<◌, ◌^◌, [], ℕ, List, Some, length, map, string_bytes, IfOk};
ghost use Rattle.std.specs.List.{All, zip};
ghost use Rattle.core_modules.specs.Library.{core_library};
ghost use Rattle.import_graph.specs.Order.{IsOrder};
ghost use Rattle.import_graph.specs.Entries.{NamesEntry};
ghost use Rattle.import_graph.specs.Graph.{AreNumbered, names_of, uses_of};
ghost use Rattle.import_graph.specs.ModuleGraphView.{graph_modules};
ghost use Rattle.module_made.specs.Made.{Value};
ghost use Rattle.import_graph.specs.Entry.{HasEntry};
ghost use Rattle.import_graph.specs.Plain.{IsPlain};
ghost use Rattle.import_graph.specs.ModuleWalkView.{module_view};
ghost use Rattle.project_parts.specs.Modules as build;
ghost use Rattle.project_parts.specs.Modules.{AreCoreModules, core_names, Values};
ghost use Rattle.project_parts.specs.Outcomes.{IsCompiled, IsFinished, linked_parts};
ghost use Rattle.project_file.specs.Paths.{normal_path};
ghost use Rattle.elm_make.specs.Outcome.{outcome_of};
ghost use Rattle.project_parts.specs.Laws.{IsBuild};
ghost use Rattle.project_parts.specs.View.{part_view};

use crate::entry::entry_number;
use crate::finishing::{Finished, finish};
use crate::values::values_of;
use import_graph::Graph;
use project_parts::laws::{any_build_law, number_law};
use project_parts::{Library, Part, parts_of};
use std::alloc::{AllocError, Global};

/// What these modules compile to, and link to from the one of the number `entry`.
fn compiled(alloc: Global, parts: &[Part<'_>], entry: u32) -> Result<Finished, AllocError>
    requires few { length parts.now < 2 ^ 32 }
    requires within { entry < length parts.now }
    requires build { IsBuild (map part_view parts.now) }
    ensures { IfOk result (λ f. (values : List Value) × Values (map part_view parts.now) values
        × IsFinished values (linked_parts (zip (map part_view parts.now) values)) (Some entry) (outcome_of f)) }
{
    let values = values_of(alloc, parts)?;
    finish(alloc, parts, values, entry)
}

/// What a project compiles to: the text of its program, or all faults of its modules in order, or, where no module has
/// faults, those of their link.
///
/// `library` is the core library. `graph` has the modules of the project that the entry reaches, with their order.
/// `directories` are the source directories of the project in written order, and `entry` is the path of the entry as it
/// is written. Nothing is read or written. The error means that memory ran out, or that the text would have
/// 4,294,967,296 bytes or more.
pub fn compile(
    alloc: Global,
    library: &Library,
    graph: &Graph,
    directories: &[String],
    entry: &str,
) -> Result<Finished, AllocError>
    requires core { AreCoreModules [] core_library (map module_view library.now.modules.items) }
    requires plain { All (IsPlain core_names) (graph_modules graph.now) }
    requires numbered { AreNumbered (graph_modules graph.now) }
    requires order { IsOrder (uses_of (graph_modules graph.now)) [] graph.now.order.items }
    requires entry { HasEntry (map string_bytes directories.now) entry.now (names_of (graph_modules graph.now)) }
    ensures { IfOk result (λ f. (name : List ℕ)
        → NamesEntry (normal_path entry.now) (map string_bytes directories.now) name
        → IsCompiled (build.parts_of (map module_view library.now.modules.items) (graph_modules graph.now)
        graph.now.order.items) name (outcome_of f)) }
{
    any_build_law();
    number_law();
    let parts = parts_of(alloc, &library.modules, graph)?;
    let number = entry_number(alloc, &parts, directories, entry)?;
    compiled(alloc, &parts, number)
}
