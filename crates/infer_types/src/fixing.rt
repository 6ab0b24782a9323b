//! Annotations whose variables are those of annotations around.

ghost use Rattle.std.specs.Prelude.{◌≡◌, Err, IfOk, Some, map};
ghost use Rattle.std.specs.List.{AllByRecursion, AllZip};
ghost use Rattle.elm_canon.specs.Tree.{Annotation};
ghost use Rattle.elm_type.specs.View.{kind_view, type_view};
ghost use Rattle.infer_steps.specs.Ready.{IsReady};
ghost use Rattle.infer_steps.specs.View.{here, bad_view, code_of};
ghost use Rattle.infer_steps.specs.declared.bad.Bad.{Bad};
ghost use Rattle.infer_steps.specs.declared.bad.InferError.TheVariants as error;
ghost use Rattle.infer_types.specs.Fixing.{IsAnnotation, Annotated, HasConstant, Fixes, NotFixed};

use crate::asking::ask_around;
use crate::writing::write;
use elm_base::names::Name;
use elm_base::position::Pos;
use elm_type::scheme::Kind;
use elm_type::ty::Ty;
use infer_steps::bad::InferError;
use infer_steps::scope::Scope;
use infer_steps::state::State;
use std::alloc::{AllocError, Global};

/// The variables of the store for variables of annotations around.
fn leaves_of(alloc: Global, scope: &Scope, names: &[Name]) -> Result<Vec<u32>, AllocError>
    requires { AllByRecursion (HasConstant (code_of scope.now)) names.now }
    ensures { IfOk result (λ vs. AllZip (λ x v. (code_of scope.now).constants x ≡ Some v) names.now vs.items) }
{
    let mut variables = Vec::new(alloc);
    for name in names {
        match scope.constant(name) {
            Some(variable) => variables.push(variable)?,
            None => unreachable!(),
        }
    }
    Ok(variables)
}

/// Asks at `position` what an annotation asks, all of whose variables are those of annotations around, and makes a
/// variable for its type. It has the variables `names` in order of appearance, of the kinds `kinds`, and the type `ty`
/// over their numbers. The errors: what it asks is not so; memory or numbers ran out.
pub fn fixed(
    alloc: Global,
    state: &mut State,
    scope: &Scope,
    position: Pos,
    names: &[Name],
    kinds: &[Kind],
    ty: &Ty,
) -> Result<u32, InferError>
    requires ready { IsReady (code_of scope.now) (here state.old).depth (here state.old).store }
    requires annotated { Annotated names.now (map kind_view kinds.now) (type_view ty.now) }
    requires around { AllByRecursion (HasConstant (code_of scope.now)) names.now }
    ensures fixed { IfOk result (λ v. (t : Annotation) → IsAnnotation t names.now (map kind_view kinds.now)
        (type_view ty.now) → Fixes (code_of scope.now) position t (here state.old) (here state.new) v) }
    ensures refused { (b : Bad) → result ≡ Err (error.Bad b) → (t : Annotation) → IsAnnotation t names.now
        (map kind_view kinds.now) (type_view ty.now) → NotFixed (code_of scope.now) position t (here state.old)
        (here state.new) (bad_view b) }
{
    match ask_around(state, scope, position, names, kinds) {
        Ok(()) => {}
        Err(error) => return Err(error),
    }
    let leaves = leaves_of(alloc, scope, names)?;
    let variable = write(alloc, state, &leaves, ty)?;
    Ok(variable)
}
