//! What all modules of a build compile to.

ghost use Rattle.std.specs.Prelude.{◌<◌, ◌^◌, length, map, IfOk};
ghost use Rattle.project_parts.specs.Modules.{Values};
ghost use Rattle.project_parts.specs.Laws.{IsBuild};
ghost use Rattle.project_parts.specs.View.{part_view};
ghost use Rattle.elm_make.specs.ProjectCompileView.{value_view};

use crate::compiler::Compiler;
use import_graph::fold;
use module_compile::made::Made;
use project_parts::{Part, graph_of};
use std::alloc::{AllocError, Global};

/// What the modules of a build compile to, in their order; None stands for a module that is blocked. `parts` has the
/// modules. The error means that memory ran out.
pub fn values_of(alloc: Global, parts: &[Part<'_>]) -> Result<Vec<Option<Made>>, AllocError>
    requires count { length parts.now < 2 ^ 32 }
    requires build { IsBuild (map part_view parts.now) }
    ensures { IfOk result (λ values. Values (map part_view parts.now) (map value_view values.items)) }
{
    let graph = graph_of(alloc, parts)?;
    let work = Compiler { parts };
    fold(alloc, &work, &graph)
}
