//! Instances of types that are written.

ghost use Rattle.std.specs.Prelude.{◌≡◌, ◌∷◌, [], ◌++◌, Err, IfOk, OnOk, map};
ghost use Rattle.elm_type.specs.View.{kind_view, scheme_view};
ghost use Rattle.type_store.specs.Shape.{IsStore};
ghost use Rattle.infer_steps.specs.View.{here, bad_view, declared_view};
ghost use Rattle.infer_steps.specs.Ready.{IsWritten, DeclaredReady};
ghost use Rattle.infer_steps.specs.declared.bad.Bad.{Bad};
ghost use Rattle.infer_steps.specs.declared.bad.InferError.TheVariants as error;
ghost use Rattle.infer_types.specs.Instances.{IsOfKind, NoneOfKind, AreOfKinds, NoneOfKinds, IsInstance, NoInstance};
ghost use Rattle.infer_types.specs.Instances.{over, elsewhere, Constructs, NoConstructor};

use crate::writing::{Parts, write, write_parts};
use elm_base::position::Pos;
use elm_type::scheme::{Kind, Scheme};
use infer_steps::ask::lacks_each;
use infer_steps::bad::InferError;
use infer_steps::make::open;
use infer_steps::operator::in_some_class;
use infer_steps::scope::Declared;
use infer_steps::state::State;
use std::alloc::{AllocError, Global};

/// Makes a variable of a kind.
fn of_kind(state: &mut State, position: Pos, kind: &Kind) -> Result<u32, InferError>
    requires { IsStore (here state.old).store }
    ensures made { IfOk result (λ v. IsOfKind position (kind_view kind.now) (here state.old) (here state.new) v) }
    ensures refused { (b : Bad) → result ≡ Err (error.Bad b)
        → NoneOfKind position (kind_view kind.now) (here state.old) (here state.new) (bad_view b) }
{
    let variable = open(state)?;
    match in_some_class(state, position, variable, kind.class) {
        Ok(()) => {}
        Err(error) => return Err(error),
    }
    match lacks_each(state, position, variable, &kind.lacks) {
        Ok(()) => Ok(variable),
        Err(error) => Err(error),
    }
}

/// Adds a variable at the end.
fn add(variables: &mut Vec<u32>, variable: u32) -> Result<(), AllocError>
    ensures { OnOk result (variables.new.items ≡ variables.old.items ++ variable ∷ []) }
{
    variables.push(variable)?;
    Ok(())
}

/// Makes a variable of each kind.
fn of_kinds(
    alloc: Global,
    state: &mut State,
    position: Pos,
    kinds: &[Kind],
) -> Result<Vec<u32>, InferError>
    requires { IsStore (here state.old).store }
    ensures made { IfOk result (λ vs. AreOfKinds position (map kind_view kinds.now) (here state.old) (here state.new)
        vs.items) }
    ensures refused { (b : Bad) → result ≡ Err (error.Bad b)
        → NoneOfKinds position (map kind_view kinds.now) (here state.old) (here state.new) (bad_view b) }
{
    let mut variables = Vec::new(alloc);
    for kind in kinds {
        match of_kind(state, position, kind) {
            Ok(variable) => add(&mut variables, variable)?,
            Err(error) => return Err(error),
        }
    }
    Ok(variables)
}

/// Makes a variable for an instance of a scheme over variables of the store.
fn instance(
    alloc: Global,
    state: &mut State,
    position: Pos,
    scheme: &Scheme,
    outer: &[u32],
) -> Result<u32, InferError>
    requires whole { IsStore (here state.old).store }
    requires ready { DeclaredReady (here state.old).depth (here state.old).store
        (over (scheme_view scheme.now) outer.now) }
    ensures made { IfOk result (λ v. IsInstance (over (scheme_view scheme.now) outer.now) position
        (here state.old) (here state.new) v) }
    ensures refused { (b : Bad) → result ≡ Err (error.Bad b)
        → NoInstance (over (scheme_view scheme.now) outer.now) position (here state.old) (here state.new)
        (bad_view b) }
{
    let mut leaves = match of_kinds(alloc, state, position, &scheme.kinds) {
        Ok(variables) => variables,
        Err(error) => return Err(error),
    };
    leaves.extend_from_slice(outer)?;
    let variable = write(alloc, state, &leaves, &scheme.ty)?;
    Ok(variable)
}

/// Makes a variable for an instance of the type `declared`. What is asked of its variables is asked at `position`. The
/// errors: there are no types of one of its kinds; memory or numbers ran out.
pub fn declared(
    alloc: Global,
    state: &mut State,
    position: Pos,
    declared: &Declared,
) -> Result<u32, InferError>
    requires whole { IsStore (here state.old).store }
    requires ready { DeclaredReady (here state.old).depth (here state.old).store (declared_view declared.now) }
    ensures made { IfOk result (λ v. IsInstance (declared_view declared.now) position (here state.old) (here state.new)
        v) }
    ensures refused { (b : Bad) → result ≡ Err (error.Bad b)
        → NoInstance (declared_view declared.now) position (here state.old) (here state.new) (bad_view b) }
{
    instance(alloc, state, position, &declared.scheme, &declared.outer)
}

/// Makes a variable for an instance of the scheme `scheme`. What is asked of its variables is asked at `position`. The
/// errors: there are no types of one of its kinds; memory or numbers ran out.
pub fn known(
    alloc: Global,
    state: &mut State,
    position: Pos,
    scheme: &Scheme,
) -> Result<u32, InferError>
    requires whole { IsStore (here state.old).store }
    requires written { IsWritten (scheme_view scheme.now).kinds (scheme_view scheme.now) }
    ensures made { IfOk result (λ v. IsInstance (elsewhere (scheme_view scheme.now)) position (here state.old)
        (here state.new) v) }
    ensures refused { (b : Bad) → result ≡ Err (error.Bad b)
        → NoInstance (elsewhere (scheme_view scheme.now)) position (here state.old) (here state.new) (bad_view b) }
{
    instance(alloc, state, position, scheme, &[])
}

/// Makes variables for what a constructor of the type `scheme` makes and for its fields, of which it has `arity`. What
/// is asked of the variables of the type is asked at `position`. The errors: there are no types of one of its kinds;
/// memory or numbers ran out.
pub fn constructor(
    alloc: Global,
    state: &mut State,
    position: Pos,
    scheme: &Scheme,
    arity: usize,
) -> Result<Parts, InferError>
    requires whole { IsStore (here state.old).store }
    requires written { IsWritten (scheme_view scheme.now).kinds (scheme_view scheme.now) }
    ensures made { IfOk result (λ p. Constructs (scheme_view scheme.now) arity position (here state.old)
        (here state.new) p.result p.parameters.items) }
    ensures refused { (b : Bad) → result ≡ Err (error.Bad b)
        → NoConstructor (scheme_view scheme.now) position (here state.old) (here state.new) (bad_view b) }
{
    let leaves = match of_kinds(alloc, state, position, &scheme.kinds) {
        Ok(variables) => variables,
        Err(error) => return Err(error),
    };
    let parts = write_parts(alloc, state, &leaves, &scheme.ty, arity)?;
    Ok(parts)
}
