//! What a module lacks of what the compiler takes for granted.

ghost use Rattle.std.specs.Prelude.{◌≡◌, ◌++◌, map, flat_map, option_map, IfOk, OnOk};
ghost use Rattle.elm_canon.specs.View.{module_view};
ghost use Rattle.canon_env.specs.Order.{IsInOrder};
ghost use Rattle.interface.specs.Interface.{union_view};
ghost use Rattle.interface.specs.View.{interface_view};
ghost use Rattle.module_offers.specs.Faults as spec;

use crate::operator_faults_functions::has_function;
use crate::truths::is_no_bool;
use canon_env::finding::Finding;
use canon_env::order::in_order;
use core_modules::facts::{push_core_faults, push_fault};
use core_modules::faults::push_port_faults;
use elm_base::fault::Code;
use elm_base::names::Name;
use elm_canon::tree::{Module, UnionDeclaration};
use interface::Interface;
use std::alloc::{AllocError, Global};
use std::sync::Arc;

/// The functions of `Basics` that operators name.
const BASIC_FUNCTIONS: [&[u8]; 18] = [
    b"apL",
    b"apR",
    b"or",
    b"and",
    b"eq",
    b"neq",
    b"lt",
    b"gt",
    b"le",
    b"ge",
    b"append",
    b"add",
    b"sub",
    b"mul",
    b"idiv",
    b"pow",
    b"composeL",
    b"composeR",
];

/// Adds the fault that the module has not the function `function` of the module `home`, if that is so.
fn push_function(
    alloc: Global,
    home: &[u8],
    interface: Option<&Interface>,
    module: &Module,
    function: &[u8],
    findings: &mut Vec<Finding>,
) -> Result<(), AllocError>
    ensures { OnOk result (findings.new.items ≡ findings.old.items
        ++ spec.function_faults home.now (option_map (λ i. interface_view i.now) interface.entry)
        (module_view module.now) function.now) }
{
    if has_function(alloc, home, interface, module, function)? {
        return Ok(());
    }
    push_fault(alloc, Code::UnknownValue, function, findings)
}

/// Adds the faults that the module has not one of these functions of the module `home`.
fn push_functions(
    alloc: Global,
    home: &[u8],
    interface: Option<&Interface>,
    module: &Module,
    functions: &[&[u8]],
    findings: &mut Vec<Finding>,
) -> Result<(), AllocError>
    ensures { OnOk result (findings.new.items ≡ findings.old.items
        ++ flat_map (spec.function_faults home.now (option_map (λ i. interface_view i.now) interface.entry)
        (module_view module.now)) (map (λ f. f.now) functions.now)) }
{
    for function in functions {
        push_function(alloc, home, interface, module, function, findings)?;
    }
    Ok(())
}

/// Adds the faults of the truth values, if they are among these unions of the module `home`.
fn push_truths(
    alloc: Global,
    home: &Name,
    unions: &[Arc<UnionDeclaration, Global>],
    findings: &mut Vec<Finding>,
) -> Result<(), AllocError>
    ensures { OnOk result (findings.new.items ≡ findings.old.items
        ++ flat_map (spec.truth_faults home.now) (map union_view unions.now)) }
{
    for union in unions {
        if is_no_bool(home, union) {
            push_fault(alloc, Code::ConstructorArity, b"Bool", findings)?;
        }
    }
    Ok(())
}

/// What the module `module` lacks of what the compiler takes for granted of the core library, each once and in order:
/// the functions that operators name, as far as it needs them, where it is of the core library the unions and the
/// annotations that the compiler speaks of, and that it leaves commands and subscriptions as ports made them. `basics`
/// and `lists` are the interfaces of `Basics` and `List`, if it imports them. A module that imports both is not walked
/// for uses. The error means that memory ran out.
#[tactic(auto, unfolding(crate::specs::Faults::operator_faults))]
pub fn operator_faults(
    alloc: Global,
    basics: Option<&Interface>,
    lists: Option<&Interface>,
    module: &Module,
) -> Result<Vec<Finding>, AllocError>
    ensures { IfOk result (λ v. IsInOrder (spec.operator_faults (option_map (λ i. interface_view i.now) basics.entry)
        (option_map (λ i. interface_view i.now) lists.entry) (module_view module.now)) v.items) }
{
    let mut findings = Vec::new(alloc);
    push_functions(
        alloc,
        b"Basics",
        basics,
        module,
        &BASIC_FUNCTIONS,
        &mut findings,
    )?;
    push_function(alloc, b"List", lists, module, b"cons", &mut findings)?;
    push_truths(alloc, &module.name, &module.unions, &mut findings)?;
    push_core_faults(alloc, module, &mut findings)?;
    push_port_faults(alloc, module, &mut findings)?;
    in_order(alloc, findings)
}
