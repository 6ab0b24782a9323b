//! What is asked of variables.

ghost use Rattle.std.specs.Prelude.{◌≡◌, ◌<◌, Err, IfOk, OnOk, length};
ghost use Rattle.type_store.specs.Shape.{IsStore};
ghost use Rattle.infer_steps.specs.View.{here, bad_view};
ghost use Rattle.infer_steps.specs.declared.bad.Bad.{Bad};
ghost use Rattle.infer_steps.specs.declared.bad.InferError.TheVariants as error;
ghost use Rattle.infer_steps.specs.Asked.{AsksSame, RefusesSame, AsksClass, RefusesClass, AsksLack, RefusesLack};
ghost use Rattle.infer_steps.specs.Asked.{AsksLacks, RefusesLacks, IsNonsense};

use crate::bad::{Bad, InferError};
use crate::make;
use crate::state::State;
use elm_base::names::Name;
use elm_base::position::Pos;
use elm_type::class::Class;
use elm_type::head::Head;
use std::alloc::{AllocError, Global};
use type_constructs::type_refusals_laws::fail_law;
use type_store::error::AddError;

/// Adds that the variables `variable` and `other` have the same type, which is asked at `position`. The errors: they
/// cannot; memory or numbers ran out.
pub fn same(state: &mut State, position: Pos, variable: u32, other: u32) -> Result<(), InferError>
    requires whole { IsStore (here state.old).store }
    requires first { variable < length (here state.old).store }
    requires second { other < length (here state.old).store }
    ensures asks { OnOk result (AsksSame (here state.old) (here state.new) position variable other) }
    ensures refuses { (b : Bad) → result ≡ Err (error.Bad b)
        → RefusesSame (here state.old) (here state.new) position variable other (bad_view b) }
{
    fail_law();
    match state.store.same(variable, other) {
        Ok(()) => Ok(()),
        Err(AddError::Clash) => Err(InferError::Bad(Bad::Same(position, variable, other))),
        Err(AddError::NoMemory(error)) => Err(InferError::NoMemory(error)),
    }
}

/// Adds that the type of the variable `variable` meets the class `class`, which is asked at `position`. The errors: it
/// does not; memory or numbers ran out.
pub fn in_class(
    state: &mut State,
    position: Pos,
    variable: u32,
    class: Class,
) -> Result<(), InferError>
    requires whole { IsStore (here state.old).store }
    requires inside { variable < length (here state.old).store }
    ensures asks { OnOk result (AsksClass (here state.old) (here state.new) position variable class) }
    ensures refuses { (b : Bad) → result ≡ Err (error.Bad b)
        → RefusesClass (here state.old) (here state.new) position variable class (bad_view b) }
{
    fail_law();
    match state.store.in_class(variable, class) {
        Ok(()) => Ok(()),
        Err(AddError::Clash) => Err(InferError::Bad(Bad::InClass(position, variable, class))),
        Err(AddError::NoMemory(error)) => Err(InferError::NoMemory(error)),
    }
}

/// Adds that the type of the variable `variable` is a record without the field `name`, which is asked at `position`.
/// The errors: it is not; memory or numbers ran out.
pub fn lacks(state: &mut State, position: Pos, variable: u32, name: &Name) -> Result<(), InferError>
    requires whole { IsStore (here state.old).store }
    requires inside { variable < length (here state.old).store }
    ensures asks { OnOk result (AsksLack (here state.old) (here state.new) position variable name.now) }
    ensures refuses { (b : Bad) → result ≡ Err (error.Bad b)
        → RefusesLack (here state.old) (here state.new) position variable name.now (bad_view b) }
{
    fail_law();
    let copy = name.clone()?;
    match state.store.lacks(variable, name.clone()?) {
        Ok(()) => Ok(()),
        Err(AddError::Clash) => Err(InferError::Bad(Bad::Lacks(position, variable, copy))),
        Err(AddError::NoMemory(error)) => Err(InferError::NoMemory(error)),
    }
}

/// Adds that the type of the variable `variable` is a record without the fields `names`, each of which is asked in turn
/// at `position`. The errors: it is not; memory or numbers ran out.
pub fn lacks_each(
    state: &mut State,
    position: Pos,
    variable: u32,
    names: &[Name],
) -> Result<(), InferError>
    requires whole { IsStore (here state.old).store }
    requires inside { variable < length (here state.old).store }
    ensures asks { OnOk result (AsksLacks (here state.old) (here state.new) position variable names.now) }
    ensures refuses { (b : Bad) → result ≡ Err (error.Bad b)
        → RefusesLacks (here state.old) (here state.new) position variable names.now (bad_view b) }
{
    for name in names {
        lacks(state, position, variable, name)?;
    }
    Ok(())
}

/// The error where a tree is none that the resolution of names gives: `Int` is asked to be `()` at `position`.
fn made_nonsense(alloc: Global, state: &mut State, position: Pos) -> Result<Bad, AllocError>
    requires { IsStore (here state.old).store }
    ensures { IfOk result (λ b. IsNonsense (here state.old) (here state.new) position (bad_view b)) }
{
    fail_law();
    let int = make::int(alloc, state)?;
    let unit = make::built(state, Head::Tuple, Vec::new(alloc))?;
    Ok(Bad::Same(position, int, unit))
}

/// The error where a tree is none that the resolution of names gives: `Int` is asked to be `()` at `position`; or that
/// memory or numbers ran out.
pub fn nonsense(alloc: Global, state: &mut State, position: Pos) -> InferError
    requires { IsStore (here state.old).store }
    ensures { (b : Bad) → result ≡ error.Bad b → IsNonsense (here state.old) (here state.new) position (bad_view b) }
{
    match made_nonsense(alloc, state, position) {
        Ok(bad) => InferError::Bad(bad),
        Err(error) => InferError::NoMemory(error),
    }
}
