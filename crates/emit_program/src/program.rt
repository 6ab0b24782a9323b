//! A whole program.

ghost use Rattle.std.specs.Prelude.{◌≡◌, [], ◌∷◌, map, option_map, IfOk, OnOk};
ghost use Rattle.elm_canon.specs.View.{declaration_view};
ghost use Rattle.js_tree.specs.Tree.{NoLine};
ghost use Rattle.js_tree.specs.Postorder.{LinesOf, ProgramOf, trees_of, top, lines, lines_then};
ghost use Rattle.js_emit.specs.Program.{Emit, declaration_lines, primitive_lines, module_of};
ghost use Rattle.emit_program.specs.Programs.{core_view, program_of};

use crate::declarations::{CoreName, push_core_name, push_declaration};
use crate::ports::{out_names, push_ins};
use elm_base::units::Units;
use elm_canon::reference::Ref;
use elm_canon::tree::{Declaration, Payload};
use js_emit::codecs::push_flags_decoder;
use js_emit::names::units_of;
use js_emit::push::push_name;
use js_tree::tree::Node;
use js_tree::trees::Trees;
use std::alloc::{AllocError, Global};

/// The JavaScript of a program, as a tree: of the names of the core and the declarations that `main` reaches, in order,
/// and of the type of its flags. There is none where the flags are of type `()`. The error means that memory ran out.
pub fn emit(
    alloc: Global,
    core_names: &[CoreName],
    declarations: &[Declaration],
    main: &Ref,
    flags: Option<&Payload>,
) -> Result<Trees, AllocError>
    ensures { IfOk result (λ trees. trees_of trees ≡ ProgramOf (Emit (program_of core_names.now declarations.now
        main.now (option_map (λ t. t.now) flags.entry))) ∷ []) }
{
    let mut trees = Trees::new(alloc);
    push_lines(alloc, &mut trees, core_names, declarations)?;
    push_name(alloc, &mut trees, main)?;
    push_flags_decoder(alloc, &mut trees, flags)?;
    push_ins(alloc, &mut trees, declarations)?;
    let name = module_units(alloc, main)?;
    let outs = out_names(alloc, declarations)?;
    trees.push(Node::Program { name, outs })?;
    Ok(trees)
}

/// The name of the module of a name, with its dots. A local name has none. The error means that memory ran out.
pub fn module_units(alloc: Global, name: &Ref) -> Result<Units, AllocError>
    ensures { IfOk result (λ units. units ≡ module_of name.now) }
{
    match name {
        Ref::Top(module, _) => units_of(alloc, module),
        Ref::Local(_) => Ok(Units::from_vec(Vec::new(alloc))),
    }
}

/// Adds the lines of a program.
fn push_lines(
    alloc: Global,
    trees: &mut Trees,
    core_names: &[CoreName],
    declarations: &[Declaration],
) -> Result<(), AllocError>
    ensures kind { OnOk result (trees_of trees.new ≡ LinesOf (lines (top (trees_of trees.new))) ∷ trees_of trees.old) }
    ensures lines { OnOk result (lines_then (lines (top (trees_of trees.new))) NoLine
        ≡ primitive_lines (map core_view core_names.now) (declaration_lines (map declaration_view declarations.now))) }
{
    trees.push(Node::NoLine)?;
    for core_name in core_names {
        push_core_name(alloc, trees, core_name)?;
    }
    for declaration in declarations {
        push_declaration(alloc, trees, declaration)?;
    }
    Ok(())
}
