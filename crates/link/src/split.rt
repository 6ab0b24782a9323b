//! Modules without the functions that no text can say.

ghost use Rattle.std.specs.Prelude.{◌≡◌, ◌++◌, map, not, option_map, option_and_then, option_to_list, is_some, IfOk};
ghost use Rattle.std.specs.Prelude.{OnOk};
ghost use Rattle.std.specs.List.{filter_map};
ghost use Rattle.elm_canon.specs.Tree.{functions_of};
ghost use Rattle.elm_canon.specs.View.{declaration_view, function_view, group_view, module_view};
ghost use Rattle.emit_program.specs.Programs.{core_view};
ghost use Rattle.js_emit.specs.Primitives.{primitive_view};
ghost use Rattle.link.specs.Cores as spec;
ghost use Rattle.link.specs.Cores.{alone, named, cores_of, without_cores, others};

use crate::outcomes::when_done;
use crate::table::primitive_of;
use elm_canon::reference::Ref;
use elm_canon::tree::{Declaration, Function, Group, Module};
use emit_program::declarations::CoreName;
use js_emit::bodiless::Primitive;
use std::alloc::{AllocError, Global};

/// The name, with what a function of that name stands for.
fn core_named(name: &Ref) -> Option<(&Ref, Primitive)>
    ensures { option_map (λ c. (c.0.now, primitive_view c.1)) result ≡ named name.now }
{
    match primitive_of(name) {
        Some(primitive) => Some((name, primitive)),
        None => None,
    }
}

/// What these functions define, where it is one function that no text can say.
fn core_alone(functions: &Vec<Function>) -> Option<(&Ref, Primitive)>
    ensures { option_map (λ c. (c.0.now, primitive_view c.1)) result
        ≡ option_and_then named (alone (functions_of (map function_view functions.now.items))) }
{
    if functions.len() == 1 {
        core_named(&functions[0].title.name)
    } else {
        None
    }
}

/// What a group defines, where it is one function that no text can say.
fn core_in(group: &Group) -> Option<(&Ref, Primitive)>
    ensures { option_map (λ c. (c.0.now, primitive_view c.1)) result ≡ spec.core_in (group_view group.now) }
{
    match group {
        Group::Together(functions) => core_alone(functions),
        Group::Constant(_, _) => None,
        Group::Destructure(_, _) => None,
    }
}

/// What a declaration defines, where it is one function that no text can say.
fn core_of(declaration: &Declaration) -> Option<(&Ref, Primitive)>
    ensures { option_map (λ c. (c.0.now, primitive_view c.1)) result
        ≡ spec.core_of (declaration_view declaration.now) }
{
    match declaration {
        Declaration::Given(_, _) => None,
        Declaration::Define(group) => core_in(group),
    }
}

/// Whether a declaration defines something else than one such function.
fn is_other(declaration: &Declaration) -> bool
    ensures { result ≡ not (is_some (spec.core_of (declaration_view declaration.now))) }
{
    core_of(declaration).is_none()
}

/// A module whose functions that no text can say stand apart from it.
#[derive(Drop)]
pub struct Parts {
    /// These functions, in order.
    pub core_names: Vec<CoreName>,
    /// The rest of the module.
    pub rest: Module,
}

/// Adds such a function, if it is one.
fn push_core(
    found: Option<(&Ref, Primitive)>,
    core_names: &mut Vec<CoreName>,
) -> Result<(), AllocError>
    ensures { OnOk result (map core_view core_names.new.items ≡ map core_view core_names.old.items
        ++ option_to_list (option_map (λ c. (c.0.now, primitive_view c.1)) found.entry)) }
{
    match found {
        Some((name, primitive)) => {
            let name = name.clone()?;
            core_names.push(CoreName { name, primitive })?;
            Ok(())
        }
        None => Ok(()),
    }
}

/// Adds these functions among declarations.
fn push_cores(
    declarations: &[Declaration],
    core_names: &mut Vec<CoreName>,
) -> Result<(), AllocError>
    ensures { OnOk result (map core_view core_names.new.items ≡ map core_view core_names.old.items
        ++ filter_map spec.core_of (map declaration_view declarations.now)) }
{
    for declaration in declarations {
        push_core(core_of(declaration), core_names)?;
    }
    Ok(())
}

/// Adds these functions of a module.
fn push_module_cores(module: &Module, core_names: &mut Vec<CoreName>) -> Result<(), AllocError>
    ensures { OnOk result (map core_view core_names.new.items
        ≡ map core_view core_names.old.items ++ cores_of (module_view module.now)) }
{
    push_cores(&module.declarations, core_names)
}

/// Takes these functions out of declarations.
fn keep_others(declarations: &mut Vec<Declaration>)
    ensures { map declaration_view declarations.new.items ≡ others (map declaration_view declarations.old.items) }
{
    declarations.retain(|declaration| is_other(declaration));
}

/// Moves these functions from the module to its core names.
fn part(parts: &mut Parts) -> Result<(), AllocError>
    ensures cores { OnOk result (map core_view parts.new.core_names.items
        ≡ map core_view parts.old.core_names.items ++ cores_of (module_view parts.old.rest)) }
    ensures others { OnOk result (module_view parts.new.rest ≡ without_cores (module_view parts.old.rest)) }
{
    push_module_cores(&parts.rest, &mut parts.core_names)?;
    keep_others(&mut parts.rest.declarations);
    Ok(())
}

/// Takes the functions that no text can say out of the resolved module `whole`: they are known by their names, and only
/// core modules have them. The error means that memory ran out.
pub fn split(alloc: Global, whole: Module) -> Result<Parts, AllocError>
    ensures cores { IfOk result (λ s. map core_view s.core_names.items ≡ cores_of (module_view whole)) }
    ensures others { IfOk result (λ s. module_view s.rest ≡ without_cores (module_view whole)) }
{
    let mut parts = Parts {
        core_names: Vec::new(alloc),
        rest: whole,
    };
    let done = part(&mut parts);
    when_done(done, parts)
}
