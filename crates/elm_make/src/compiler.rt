//! What is done for each module of a build.

ghost use Rattle.std.specs.Prelude.{◌≡◌, ◌≤◌, List, Some, length, option_map, IfOk, IfSome};
ghost use Rattle.module_compile.specs.ModulePhasesView.{around_view};
ghost use Rattle.import_graph.specs.ModuleWalkView.{module_view};
ghost use Rattle.project_parts.specs.Laws.{Fits};
ghost use Rattle.project_parts.specs.View.{part_view};
ghost use Rattle.elm_make.specs.Desks.{IsLaid};
ghost use Rattle.elm_make.specs.Making.{IsCompiled, IsMadeOf};
ghost use Rattle.elm_make.specs.ProjectCompileView.{Value};

use crate::desk::{Desk, empty_desk};
use import_graph::{Module, Work};
use module_compile::Imports;
use module_compile::compiling::compile;
use module_compile::made::Made;
use project_parts::Part;
use std::alloc::{AllocError, Global};

/// The most bytes that the text of a module may have.
const MAX_TEXT: usize = 4_194_304;

/// The text of a module, unless it is over the limit.
fn text_of(module: &Module) -> Option<&[u8]>
    ensures fits { IfSome result (λ text. length text.now ≤ 4194304) }
    ensures same { Fits (module_view module.now).source.text
        → option_map (λ text. text.now) result ≡ (module_view module.now).source.text }
{
    match &module.text {
        Some(text) => within(text),
        None => None,
    }
}

/// The text, unless it is over the limit.
fn within(text: &[u8]) -> Option<&[u8]>
    ensures fits { IfSome result (λ t. length t.now ≤ 4194304) }
    ensures same { length text.now ≤ 4194304 → option_map (λ t. t.now) result ≡ Some text.now }
{
    if text.len() > MAX_TEXT {
        None
    } else {
        Some(text)
    }
}

/// What a part compiles to with these imports.
fn compiled(alloc: Global, part: &Part<'_>, imports: &Imports) -> Result<Made, AllocError>
    ensures { IfOk result (IsCompiled (part_view part.now) (around_view imports.now)) }
{
    let module = part.module;
    let path = module.path.as_str();
    let text = text_of(module);
    let made = compile(alloc, path, text, imports)?;
    Ok(made)
}

/// What a part compiles to with the imports that are on the desk.
fn made_of(alloc: Global, part: &Part<'_>, desk: &Desk) -> Result<Option<Made>, AllocError>
    ensures { IfOk result (λ v. (vs : List Value) → IsLaid (part_view part.now) desk.now vs
        → IsMadeOf (part_view part.now) vs v) }
{
    let blocked = desk.is_blocked;
    if blocked {
        return Ok(None);
    }
    let made = compiled(alloc, part, &desk.imports)?;
    Ok(Some(made))
}

/// Compiles the modules of a build.
#[derive(Clone, Copy)]
pub struct Compiler<'a> {
    pub(crate) parts: &'a [Part<'a>],
}

impl<'a> Work for Compiler<'a> {
    ghost use Rattle.std.specs.Prelude.{map};
    ghost use Rattle.project_parts.specs.Modules.{graph_of};
    ghost use Rattle.project_parts.specs.View.{part_view};
    ghost use Rattle.elm_make.specs.Making.{Makes, Holds};

    type Made = Option<Made>;

    type Desk = Desk;

    ghost graph = { λ w. graph_of (map part_view w.parts.now) };

    ghost makes = { λ w i vs v. Makes (map part_view w.parts.now) i vs v };

    ghost holds = { λ w d i vs. Holds (map part_view w.parts.now) d i vs };

    fn begin(&self, alloc: Global, number: u32) -> Result<Desk, AllocError> {
        empty_desk(alloc, number, &self.parts[number as usize])
    }

    fn import(&self, desk: &mut Desk, made: &Option<Made>) -> Result<(), AllocError> {
        desk.lay(made)?;
        Ok(())
    }

    fn finish(&self, alloc: Global, desk: Desk) -> Result<Option<Made>, AllocError> {
        match self.parts.get(desk.number as usize) {
            Some(part) => made_of(alloc, part, &desk),
            None => Ok(None),
        }
    }
}
