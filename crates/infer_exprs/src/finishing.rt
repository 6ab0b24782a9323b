//! Type groups that were walked.

ghost use Rattle.std.specs.Prelude.{◌≡◌, ◌++◌, ℕ, List, OnOk};
ghost use Rattle.type_items.specs.Definitions.{Definition};
ghost use Rattle.infer_steps.specs.Codes as plain;
ghost use Rattle.infer_steps.specs.Codes.{Code};
ghost use Rattle.infer_steps.specs.View.{code_of, here};
ghost use Rattle.infer_exprs.specs.Finished.{CanFinish, GroupWalked, Finished};

use infer_groups::groups::{Opened, close_group};
use infer_steps::scope::{Entered, Scope};
use infer_steps::state::State;
use std::alloc::{AllocError, Global};

/// Adds what names stood for before.
fn push_all(more: Vec<Entered>, entered: &mut Vec<Entered>) -> Result<(), AllocError>
    ensures { OnOk result (entered.new.items ≡ entered.old.items ++ more.items) }
{
    for one in more {
        entered.push(one)?;
    }
    Ok(())
}

/// Closes a type group that was walked, if there is something to close, and adds what its names stood for before to
/// `entered`. The error is that memory or numbers ran out.
pub fn finish_group(
    alloc: Global,
    state: &mut State,
    scope: &mut Scope,
    walked: Option<Opened>,
    entered: &mut Vec<Entered>,
) -> Result<(), AllocError>
    requires { CanFinish walked (here state.old) }
    ensures { OnOk result ((code : Code) (g : List Definition) (i : ℕ) (old : plain.State)
        → GroupWalked code (code_of scope.old) g i walked old (here state.old) → Finished code (code_of scope.new) g i
        entered.old.items entered.new.items old (here state.new)) }
{
    match walked {
        None => Ok(()),
        Some(opened) => {
            let more = close_group(alloc, state, scope, opened)?;
            push_all(more, entered)
        }
    }
}
