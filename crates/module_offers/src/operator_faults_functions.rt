//! The functions that operators name, in the modules that have them.

ghost use Rattle.std.specs.Prelude.{◌≡◌, map, option_map, IfOk};
ghost use Rattle.elm_canon.specs.Names.{same_ref};
ghost use Rattle.elm_canon.specs.declared.reference.Ref.TheVariants.{Top};
ghost use Rattle.elm_canon.specs.Tree.{functions_of};
ghost use Rattle.elm_canon.specs.View.{declaration_view, function_view, group_view, module_view};
ghost use Rattle.elm_canon.specs.Proper.{among, function_names};
ghost use Rattle.link.specs.Made.{refs_used};
ghost use Rattle.canon_env.specs.Exposing.{is_among};
ghost use Rattle.interface.specs.Interface.{value_view};
ghost use Rattle.interface.specs.View.{interface_view};
ghost use Rattle.module_offers.specs.Faults as spec;

use canon_env::uses::push_group_uses;
use elm_canon::reference::Ref;
use elm_canon::tree::{Declaration, Function, Group, Module};
use elm_type::ascii::is_text;
use interface::Interface;
use interface::value::Value;
use std::alloc::{AllocError, Global};

/// Whether a name is that of the function `function` of the module `home`.
#[tactic(auto, using(crate::proofs::Names::same_top))]
fn is_function(name: &Ref, home: &[u8], function: &[u8]) -> bool
    ensures { result ≡ same_ref (Top home.now function.now) name.now }
{
    match name {
        Ref::Local(_) => false,
        Ref::Top(other, own) => is_text(other, home) && is_text(own, function),
    }
}

/// Whether it is one of these names.
fn is_one_of(names: &[Ref], home: &[u8], function: &[u8]) -> bool
    ensures { result ≡ among (Top home.now function.now) names.now }
{
    for name in names {
        if is_function(name, home, function) {
            return true;
        }
    }
    false
}

/// Whether it is one of these functions.
fn is_any(functions: &[Function], home: &[u8], function: &[u8]) -> bool
    ensures { result
        ≡ among (Top home.now function.now) (function_names (functions_of (map function_view functions.now))) }
{
    for defined in functions {
        if is_function(&defined.title.name, home, function) {
            return true;
        }
    }
    false
}

/// Whether a group defines it.
#[tactic(auto, using(elm_canon::proofs::Views::together, elm_canon::proofs::Views::constant, elm_canon::proofs::Views::destructure))]
fn is_defined_in(group: &Group, home: &[u8], function: &[u8]) -> bool
    ensures { result ≡ among (Top home.now function.now) (spec.defined_in (group_view group.now)) }
{
    match group {
        Group::Together(functions) => is_any(functions, home, function),
        Group::Constant(title, _) => is_function(&title.name, home, function),
        Group::Destructure(_, _) => false,
    }
}

/// Whether a declaration defines it.
fn is_defined_by(declaration: &Declaration, home: &[u8], function: &[u8]) -> bool
    ensures { result ≡ among (Top home.now function.now) (spec.defined_by (declaration_view declaration.now)) }
{
    match declaration {
        Declaration::Given(_, _) => false,
        Declaration::Define(group) => is_defined_in(group, home, function),
    }
}

/// Whether a module defines it.
fn defines(module: &Module, home: &[u8], function: &[u8]) -> bool
    ensures { result ≡ spec.defines (module_view module.now) (Top home.now function.now) }
{
    for declaration in &module.declarations {
        if is_defined_by(declaration, home, function) {
            return true;
        }
    }
    false
}

/// Whether a declaration uses it.
fn is_used_by(
    alloc: Global,
    declaration: &Declaration,
    home: &[u8],
    function: &[u8],
) -> Result<bool, AllocError>
    ensures { IfOk result (λ b. b ≡ among (Top home.now function.now) (refs_used (declaration_view declaration.now))) }
{
    let mut names = Vec::new(alloc);
    match declaration {
        Declaration::Given(_, _) => {}
        Declaration::Define(group) => push_group_uses(group, &mut names)?,
    }
    Ok(is_one_of(&names, home, function))
}

/// Whether a module uses it.
fn uses(alloc: Global, module: &Module, home: &[u8], function: &[u8]) -> Result<bool, AllocError>
    ensures { IfOk result (λ b. b ≡ spec.uses (module_view module.now) (Top home.now function.now)) }
{
    for declaration in &module.declarations {
        if is_used_by(alloc, declaration, home, function)? {
            return Ok(true);
        }
    }
    Ok(false)
}

/// Whether one of these values has that name.
fn is_named(values: &[Value], name: &[u8]) -> bool
    ensures { result ≡ is_among name.now (map (λ v. v.name) (map value_view values.now)) }
{
    for value in values {
        if is_text(&value.name, name) {
            return true;
        }
    }
    false
}

/// Whether the interface, if there is one, offers it.
fn offers(interface: Option<&Interface>, function: &[u8]) -> bool
    ensures { result ≡ spec.offers (option_map (λ i. interface_view i.now) interface.entry) function.now }
{
    match interface {
        Some(interface) => is_named(interface.values(), function),
        None => false,
    }
}

/// Whether a module has the function `function` of the module `home`, which has that interface, as far as it needs it.
#[tactic(auto, using(crate::proofs::Names::turned))]
pub(crate) fn has_function(
    alloc: Global,
    home: &[u8],
    interface: Option<&Interface>,
    module: &Module,
    function: &[u8],
) -> Result<bool, AllocError>
    ensures { IfOk result (λ b. b ≡ spec.has_function home.now (option_map (λ i. interface_view i.now) interface.entry)
        (module_view module.now) function.now) }
{
    if is_text(&module.name, home) {
        return Ok(defines(module, home, function));
    }
    if offers(interface, function) {
        return Ok(true);
    }
    Ok(!uses(alloc, module, home, function)?)
}
