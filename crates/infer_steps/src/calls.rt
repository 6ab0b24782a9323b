//! Functions that are applied, functions that are written, and `&&` and `||`.

ghost use Rattle.std.specs.Prelude.{◌≡◌, ◌∷◌, [], suc, length, Err, IfOk};
ghost use Rattle.type_store.specs.Shape.{IsStore};
ghost use Rattle.type_walks.specs.Links.{Live};
ghost use Rattle.infer_steps.specs.Codes.{Code};
ghost use Rattle.infer_steps.specs.View.{here, bad_view};
ghost use Rattle.infer_steps.specs.declared.bad.Bad.{Bad};
ghost use Rattle.infer_steps.specs.declared.bad.InferError.TheVariants as error;
ghost use Rattle.infer_steps.specs.Begun.{Begun, BeginStops};
ghost use Rattle.infer_steps.specs.Operations.{apply_types, nothing, arguments, logical_items, logical_types, operands};
ghost use Rattle.infer_steps.specs.Operations.{function_items, function_types, parameters};

use crate::ask::same;
use crate::bad::InferError;
use crate::make;
use crate::state::State;
use elm_base::position::Pos;
use std::alloc::{AllocError, Global};

/// The number `first` and then `rest`. The error means that memory ran out.
fn before(first: u32, rest: Vec<u32>) -> Result<Vec<u32>, AllocError>
    ensures { IfOk result (λ all. all.items ≡ first ∷ rest.items) }
{
    let mut all = rest;
    all.insert(0, first)?;
    Ok(all)
}

/// Begins a function with `count` arguments, whose value is wanted at the type of the variable `wanted`: returns the
/// variables that the function and then the arguments are wanted at. The error is that memory or numbers ran out.
pub fn begin_apply(
    alloc: Global,
    state: &mut State,
    count: usize,
    wanted: u32,
) -> Result<Vec<u32>, AllocError>
    requires whole { IsStore (here state.old).store }
    requires wanted { Live (here state.old).depth (here state.old).store wanted }
    ensures begins { IfOk result (λ vs. (code : Code)
        → Begun code wanted (arguments count) nothing vs.items (apply_types count) (here state.old)
        (here state.new)) }
    ensures number { IfOk result (λ vs. length vs.items ≡ suc count) }
{
    let variables = make::open_each(alloc, state, count)?;
    let function = make::functions(alloc, state, &variables, wanted)?;
    let all = before(function, variables)?;
    Ok(all)
}

/// Two operands: the variables that they are wanted at.
#[derive(Clone, Copy)]
pub struct Operands {
    pub left: u32,
    pub right: u32,
}

/// Begins `&&` or `||`, which stands at `position` and is wanted at the type of the variable `wanted`: returns the
/// variables that its operands are wanted at. The errors: `Bool` is not the type; memory or numbers ran out.
pub fn begin_logical(
    alloc: Global,
    state: &mut State,
    position: Pos,
    wanted: u32,
) -> Result<Operands, InferError>
    requires whole { IsStore (here state.old).store }
    requires wanted { Live (here state.old).depth (here state.old).store wanted }
    ensures begins { IfOk result (λ x. (code : Code)
        → Begun code wanted operands (logical_items position) (x.left ∷ x.right ∷ []) logical_types (here state.old)
        (here state.new)) }
    ensures stops { (b : Bad) → result ≡ Err (error.Bad b) → (code : Code)
        → BeginStops code wanted operands (logical_items position) (here state.old) (here state.new) (bad_view b) }
{
    let left = make::open(state)?;
    let right = make::open(state)?;
    let choice = make::bool(alloc, state)?;
    let given = [choice, choice];
    let operator = make::functions(alloc, state, &given, choice)?;
    let operands = [left, right];
    let asked = make::functions(alloc, state, &operands, wanted)?;
    match same(state, position, operator, asked) {
        Ok(()) => Ok(Operands { left, right }),
        Err(error) => Err(error),
    }
}

/// Begins a function of `count` parameters, which stands at `position` and is wanted at the type of the variable
/// `wanted`: returns the variables of its value and then of its parameters. The errors: no such function is of the
/// type; memory or numbers ran out.
pub fn begin_function(
    alloc: Global,
    state: &mut State,
    count: usize,
    position: Pos,
    wanted: u32,
) -> Result<Vec<u32>, InferError>
    requires whole { IsStore (here state.old).store }
    requires wanted { Live (here state.old).depth (here state.old).store wanted }
    ensures begins { IfOk result (λ vs. (code : Code)
        → Begun code wanted (parameters count) (function_items count position) vs.items (function_types count)
        (here state.old) (here state.new)) }
    ensures number { IfOk result (λ vs. length vs.items ≡ suc count) }
    ensures stops { (b : Bad) → result ≡ Err (error.Bad b) → (code : Code)
        → BeginStops code wanted (parameters count) (function_items count position) (here state.old) (here state.new)
        (bad_view b) }
{
    let variables = make::open_each(alloc, state, count)?;
    let value = make::open(state)?;
    let made = make::functions(alloc, state, &variables, value)?;
    let all = before(value, variables)?;
    match same(state, position, made, wanted) {
        Ok(()) => Ok(all),
        Err(error) => Err(error),
    }
}
