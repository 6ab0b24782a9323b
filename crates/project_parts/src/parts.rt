//! The modules of a build in order.

ghost use Rattle.std.specs.Prelude.{◌≡◌, ◌++◌, map, slice_get, option_to_list, IfOk, OnOk};
ghost use Rattle.std.specs.List.{filter_map};
ghost use Rattle.import_graph.specs.ModuleGraphView.{graph_modules};
ghost use Rattle.import_graph.specs.ModuleWalkView.{module_view};
ghost use Rattle.project_parts.specs.Modules as build;
ghost use Rattle.project_parts.specs.Modules.{core_part, project_part};
ghost use Rattle.project_parts.specs.View.{part_view};

use import_graph::{Graph, Module};
use std::alloc::{AllocError, Global};

/// A module of a build.
#[derive(Clone, Copy)]
pub struct Part<'a> {
    /// Whether it is a module of the core library.
    pub is_core: bool,
    pub module: &'a Module,
}

/// Adds the modules of the core library.
fn push_core<'a>(modules: &'a [Module], parts: &mut Vec<Part<'a>>) -> Result<(), AllocError>
    ensures { OnOk result (map part_view parts.new.items ≡ map part_view parts.old.items
        ++ map core_part (map module_view modules.now)) }
{
    for module in modules {
        parts.push(Part {
            is_core: true,
            module,
        })?;
    }
    Ok(())
}

/// Adds the module of a number, if there is one.
fn push_one<'a>(graph: &'a Graph, number: u32, parts: &mut Vec<Part<'a>>) -> Result<(), AllocError>
    ensures { OnOk result (map part_view parts.new.items ≡ map part_view parts.old.items
        ++ map project_part (option_to_list (slice_get (graph_modules graph.now) number))) }
{
    match graph.modules.get_index(number as usize) {
        Some((_, module)) => {
            parts.push(Part {
                is_core: false,
                module,
            })?;
            Ok(())
        }
        None => Ok(()),
    }
}

/// Adds the modules of the project, in their order.
fn push_project<'a>(graph: &'a Graph, parts: &mut Vec<Part<'a>>) -> Result<(), AllocError>
    ensures { OnOk result (map part_view parts.new.items ≡ map part_view parts.old.items
        ++ map project_part (filter_map (slice_get (graph_modules graph.now)) graph.now.order.items)) }
{
    for number in &graph.order {
        push_one(graph, *number, parts)?;
    }
    Ok(())
}

/// The modules of a build in order: the core library, and then the modules of the project. `core` has the modules of
/// the core library, and `graph` those of the project with their order. The error means that memory ran out.
pub fn parts_of<'a>(
    alloc: Global,
    core: &'a [Module],
    graph: &'a Graph,
) -> Result<Vec<Part<'a>>, AllocError>
    ensures { IfOk result (λ parts. map part_view parts.items
        ≡ build.parts_of (map module_view core.now) (graph_modules graph.now) graph.now.order.items) }
{
    let mut parts = Vec::with_capacity(alloc, core.len().saturating_add(graph.order.len()))?;
    push_core(core, &mut parts)?;
    push_project(graph, &mut parts)?;
    Ok(parts)
}
