//! The lines of a declaration. Made names are numbered within one line.

ghost use Rattle.std.specs.Prelude.{◌≡◌, [], ◌∷◌, map, OnOk};
ghost use Rattle.elm_canon.specs.Tree.{functions_of};
ghost use Rattle.elm_canon.specs.View.{declaration_view, known_view, group_view, function_view};
ghost use Rattle.elm_meaning.specs.Functions as functions;
ghost use Rattle.js_tree.specs.Tree.{MoreLine};
ghost use Rattle.js_tree.specs.Postorder.{trees_of};
ghost use Rattle.js_emit.specs.Names.{js_name};
ghost use Rattle.js_emit.specs.Operators.{bodiless_js};
ghost use Rattle.js_emit.specs.Program.{function_lines, group_lines, primitive_lines};
ghost use Rattle.emit_program.specs.Growth.{LinesGrown, declared};
ghost use Rattle.emit_program.specs.Programs.{core_view};

use elm_canon::reference::Ref;
use elm_canon::tree::{Declaration, Function, Group, Known};
use emit_exprs::exprs::{push_function, push_value};
use js_emit::bodiless::{Primitive, push_known, push_primitive};
use js_emit::names::js_name;
use js_tree::tree::Node;
use js_tree::trees::Trees;
use std::alloc::{AllocError, Global};

/// A name of the core that stands for a function of the fixed text.
#[derive(Drop)]
pub struct CoreName {
    pub name: Ref,
    pub primitive: Primitive,
}

/// Adds the lines of a declaration to the lines that stand last. The error means that memory ran out.
pub fn push_declaration(
    alloc: Global,
    trees: &mut Trees,
    declaration: &Declaration,
) -> Result<(), AllocError>
    ensures { OnOk result (LinesGrown (trees_of trees.old) (trees_of trees.new)
        (declared (declaration_view declaration.now))) }
{
    match declaration {
        Declaration::Given(name, known) => push_given(alloc, trees, name, known),
        Declaration::Define(group) => push_group(alloc, trees, group),
    }
}

/// Adds the line of a name of the core to the lines that stand last. The error means that memory ran out.
pub fn push_core_name(
    alloc: Global,
    trees: &mut Trees,
    core_name: &CoreName,
) -> Result<(), AllocError>
    ensures { OnOk result (LinesGrown (trees_of trees.old) (trees_of trees.new)
        (primitive_lines (core_view core_name.now ∷ []))) }
{
    push_primitive(alloc, trees, core_name.primitive)?;
    trees.push(Node::Line(js_name(alloc, &core_name.name)?))
}

/// Adds the line of what has no body.
fn push_given(alloc: Global, trees: &mut Trees, name: &Ref, known: &Known) -> Result<(), AllocError>
    ensures { OnOk result (LinesGrown (trees_of trees.old) (trees_of trees.new)
        (MoreLine (js_name name.now) (bodiless_js (functions.Given (known_view known.now))))) }
{
    push_known(alloc, trees, known)?;
    trees.push(Node::Line(js_name(alloc, name)?))
}

/// Adds a line for each definition of a group.
fn push_group(alloc: Global, trees: &mut Trees, group: &Group) -> Result<(), AllocError>
    ensures { OnOk result (LinesGrown (trees_of trees.old) (trees_of trees.new) (group_lines (group_view group.now))) }
{
    match group {
        Group::Together(functions) => push_functions(alloc, trees, functions),
        Group::Constant(title, value) => {
            let mut made = 0;
            push_value(alloc, trees, value, &mut made)?;
            trees.push(Node::Line(js_name(alloc, &title.name)?))
        }
        Group::Destructure(_, _) => Ok(()),
    }
}

/// Adds a line for each function.
fn push_functions(
    alloc: Global,
    trees: &mut Trees,
    functions: &Vec<Function>,
) -> Result<(), AllocError>
    ensures { OnOk result (LinesGrown (trees_of trees.old) (trees_of trees.new)
        (function_lines (functions_of (map function_view functions.now.items)))) }
{
    for function in functions {
        push_function_line(alloc, trees, function)?;
    }
    Ok(())
}

/// Adds the line of a function.
fn push_function_line(
    alloc: Global,
    trees: &mut Trees,
    function: &Function,
) -> Result<(), AllocError>
    ensures { OnOk result (LinesGrown (trees_of trees.old) (trees_of trees.new)
        (function_lines (functions_of (function_view function.now ∷ [])))) }
{
    let mut made = 0;
    push_function(alloc, trees, function, &mut made)?;
    trees.push(Node::Line(js_name(alloc, &function.title.name)?))
}
