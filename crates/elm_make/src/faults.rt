//! The faults of modules.

ghost use Rattle.std.specs.Prelude.{◌≡◌, ◌++◌, map, flat_map, IfOk, OnOk};
ghost use Rattle.module_compile.specs.View.{made_view};
ghost use Rattle.project_parts.specs.Outcomes as outcome;
ghost use Rattle.elm_make.specs.ProjectCompileView.{value_view};

use elm_base::fault::Fault;
use module_compile::made::Made;
use std::alloc::{AllocError, Global};

/// Adds faults.
fn push_all(more: Vec<Fault>, faults: &mut Vec<Fault>) -> Result<(), AllocError>
    ensures { OnOk result (faults.new.items ≡ faults.old.items ++ more.items) }
{
    for fault in more {
        faults.push(fault)?;
    }
    Ok(())
}

/// Adds the faults of a module that is not blocked.
fn push_made(made: Made, faults: &mut Vec<Fault>) -> Result<(), AllocError>
    ensures { OnOk result (faults.new.items ≡ faults.old.items ++ outcome.faults_of (made_view made)) }
{
    match made {
        Made::Good(_, _) => Ok(()),
        Made::Bad(more) => push_all(more, faults),
    }
}

/// Adds the faults of a module.
fn push_faults(value: Option<Made>, faults: &mut Vec<Fault>) -> Result<(), AllocError>
    ensures { OnOk result (faults.new.items ≡ faults.old.items ++ outcome.faults_of (value_view value)) }
{
    match value {
        None => Ok(()),
        Some(made) => push_made(made, faults),
    }
}

/// The faults of all modules, in order.
#[tactic(auto, using(crate::proofs::Faulted::faults_more))]
pub(crate) fn all_faults(alloc: Global, values: Vec<Option<Made>>) -> Result<Vec<Fault>, AllocError>
    ensures { IfOk result (λ v. v.items ≡ flat_map outcome.faults_of (map value_view values.items)) }
{
    let mut faults = Vec::new(alloc);
    for value in values {
        push_faults(value, &mut faults)?;
    }
    Ok(faults)
}
