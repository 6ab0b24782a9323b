//! Which declarations leave commands and subscriptions as ports made them.

ghost use Rattle.std.specs.Prelude.{◌≡◌, ◌++◌, map, OnOk, IfOk};
ghost use Rattle.std.specs.List.{list_all};
ghost use Rattle.elm_canon.specs.View.{declaration_view, module_view, known_view};
ghost use Rattle.core_modules.specs.Faults as spec;

use crate::facts::push_fault;
use crate::makers::{is_port_home, is_small};
use crate::same::are_kept;
use crate::walk::push_group;
use canon_env::finding::Finding;
use elm_base::fault::Code;
use elm_canon::reference::Ref;
use elm_canon::tree::{Declaration, Known, Module};
use std::alloc::{AllocError, Global};

/// Whether what has no body has a name that it may have.
fn is_named(name: &Ref, known: &Known) -> bool
    ensures { result ≡ spec.is_named name.now (known_view known.now) }
{
    match name {
        Ref::Local(_) => true,
        Ref::Top(home, own) => match known {
            Known::Maker(_) => !(is_port_home(home) && is_small(own)),
            Known::RecordMaker(_) => true,
            Known::OutPort(_, _) => true,
            Known::InPort(_, _) => true,
        },
    }
}

/// Whether a declaration leaves them so.
fn keeps(alloc: Global, declaration: &Declaration) -> Result<bool, AllocError>
    ensures { IfOk result (λ b. b ≡ spec.keeps (declaration_view declaration.now)) }
{
    match declaration {
        Declaration::Given(name, known) => Ok(is_named(name, known)),
        Declaration::Define(group) => {
            let mut signs = Vec::new(alloc);
            push_group(group, &mut signs)?;
            Ok(are_kept(&signs))
        }
    }
}

/// Whether all declarations do.
fn all_keep(alloc: Global, declarations: &[Declaration]) -> Result<bool, AllocError>
    ensures { IfOk result (λ b. b ≡ list_all spec.keeps (map declaration_view declarations.now)) }
{
    for declaration in declarations {
        if !keeps(alloc, declaration)? {
            return Ok(false);
        }
    }
    Ok(true)
}

/// Adds to `findings` the fault that a declaration of `module` takes a command or a subscription of a port apart, or
/// makes one, or has a constructor of them for a function, if that is so. The error means that memory ran out.
#[tactic(auto, unfolding(crate::specs::Faults::port_faults))]
pub fn push_port_faults(
    alloc: Global,
    module: &Module,
    findings: &mut Vec<Finding>,
) -> Result<(), AllocError>
    ensures { OnOk result (findings.new.items ≡ findings.old.items ++ spec.port_faults (module_view module.now)) }
{
    if all_keep(alloc, &module.declarations)? {
        return Ok(());
    }
    push_fault(alloc, Code::ConstructorArity, b"Platform", findings)
}
