//! Names that patterns bind.

ghost use Rattle.std.specs.Prelude.{◌≡◌, ◌∷◌, map, IfOk, OnOk};
ghost use Rattle.infer_steps.specs.Codes.{with_bound};
ghost use Rattle.infer_steps.specs.Leaving.{without};
ghost use Rattle.infer_steps.specs.View.{code_of};
ghost use Rattle.infer_patterns.specs.View.{bound_view, in_scope};

use elm_base::names::Name;
use elm_canon::reference::Ref;
use infer_steps::scope::{Entered, Meaning, Scope};
use std::alloc::{AllocError, Global};

/// A name that a pattern binds, and its variable.
#[derive(Drop)]
pub struct Bound {
    pub name: Name,
    pub variable: u32,
}

/// Adds the name `name` with the variable `variable` to the names `bound`, which were bound before it in turn. The error
/// means that memory ran out.
pub fn bind(name: &Name, variable: u32, bound: &mut Vec<Bound>) -> Result<(), AllocError>
    ensures { OnOk result (in_scope bound.new.items ≡ (name.now, variable) ∷ in_scope bound.old.items) }
{
    bound.push(Bound {
        name: name.clone()?,
        variable,
    })?;
    Ok(())
}

/// Takes the names `bound`, the first of which is the innermost, into the scope. The result is for `leave` of the
/// scope. The error means that memory ran out; then some may be in scope.
pub fn enter(
    alloc: Global,
    scope: &mut Scope,
    bound: Vec<Bound>,
) -> Result<Vec<Entered>, AllocError>
    ensures scope { OnOk result (code_of scope.new ≡ with_bound (map bound_view bound.items) (code_of scope.old)) }
    ensures entered { IfOk result (λ entered. without entered.items (code_of scope.new) ≡ code_of scope.old) }
{
    let mut entered = Vec::with_capacity(alloc, bound.len())?;
    let mut rest = bound;
    while let Some(last) = rest.pop() {
        let name = Ref::Local(last.name);
        let one = scope.enter(&name, Meaning::One(last.variable))?;
        entered.push(one)?;
    }
    Ok(entered)
}
