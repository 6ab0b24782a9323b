//! Operations whose parts are walked one after the other.

ghost use Rattle.std.specs.Prelude.{◌≡◌, Err, IfOk, length, replicate};
ghost use Rattle.elm_base.specs.declared.position.Pos.{Pos};
ghost use Rattle.elm_canon.specs.Tree.{TupleOf, ListOf, RecordOf, Negate, Binary};
ghost use Rattle.type_store.specs.Shape.{IsStore};
ghost use Rattle.type_walks.specs.Links.{Live};
ghost use Rattle.infer_steps.specs.Codes.{Code};
ghost use Rattle.infer_steps.specs.View.{here, bad_view};
ghost use Rattle.infer_steps.specs.declared.bad.Bad.{Bad};
ghost use Rattle.infer_steps.specs.declared.bad.InferError.TheVariants as error;
ghost use Rattle.infer_steps.specs.Records.{AreDistinct};
ghost use Rattle.infer_steps.specs.Operations.{BeginsOp, OpStops, when_any, some_count, first_count};
ghost use Rattle.infer_steps.specs.Filled.{Fills};

use crate::ask::{in_class, same};
use crate::bad::InferError;
use crate::operator::{in_operator_class, operator_type};
use crate::state::State;
use crate::{make, record};
use elm_base::names::Name;
use elm_base::position::Pos;
use elm_canon::tree::Operator;
use elm_type::class::Class;
use elm_type::head::Head;
use std::alloc::{AllocError, Global};

/// The number `item`, `count` times. The error means that memory ran out.
pub fn repeated(alloc: Global, item: u32, count: usize) -> Result<Vec<u32>, AllocError>
    ensures { IfOk result (λ items. items.items ≡ replicate count item) }
{
    let mut items = Vec::new(alloc);
    for _i in 0..count {
        items.push(item)?;
    }
    Ok(items)
}

/// The numbers, or none if `count` is zero.
pub fn if_any(alloc: Global, numbers: Vec<u32>, count: usize) -> Vec<u32>
    ensures { result.items ≡ when_any count numbers.items }
{
    if count == 0 {
        return Vec::new(alloc);
    }
    numbers
}

/// Begins a tuple of `count` parts, which stands at `position` and is wanted at the type of the variable `wanted`:
/// returns the variables that the parts are wanted at. The errors: no such tuple is of the type; memory or numbers ran
/// out.
pub fn tuple(
    alloc: Global,
    state: &mut State,
    position: Pos,
    count: usize,
    wanted: u32,
) -> Result<Vec<u32>, InferError>
    requires whole { IsStore (here state.old).store }
    requires wanted { Live (here state.old).depth (here state.old).store wanted }
    ensures begins { IfOk result (λ vs. (code : Code)
        → BeginsOp code TupleOf count position wanted vs.items (here state.old) (here state.new)) }
    ensures number { IfOk result (λ vs. length vs.items ≡ first_count TupleOf count) }
    ensures stops { (b : Bad) → result ≡ Err (error.Bad b) → (code : Code)
        → OpStops code TupleOf count position wanted (here state.old) (here state.new) (bad_view b) }
{
    let parts = make::open_each(alloc, state, count)?;
    let copy = parts.clone()?;
    let made = make::built(state, Head::Tuple, copy)?;
    match same(state, position, made, wanted) {
        Ok(()) => Ok(parts),
        Err(error) => Err(error),
    }
}

/// Begins a list of `count` items, which stands at `position` and is wanted at the type of the variable `wanted`:
/// returns the variables that the items are wanted at, which are all the same. The errors: no list is of the type;
/// memory or numbers ran out.
pub fn list(
    alloc: Global,
    state: &mut State,
    position: Pos,
    count: usize,
    wanted: u32,
) -> Result<Vec<u32>, InferError>
    requires whole { IsStore (here state.old).store }
    requires wanted { Live (here state.old).depth (here state.old).store wanted }
    ensures begins { IfOk result (λ vs. (code : Code)
        → BeginsOp code ListOf count position wanted vs.items (here state.old) (here state.new)) }
    ensures number { IfOk result (λ vs. length vs.items ≡ first_count ListOf count) }
    ensures stops { (b : Bad) → result ≡ Err (error.Bad b) → (code : Code)
        → OpStops code ListOf count position wanted (here state.old) (here state.new) (bad_view b) }
{
    let item = make::open(state)?;
    let made = make::list(alloc, state, item)?;
    let parts = repeated(alloc, item, count)?;
    match same(state, position, made, wanted) {
        Ok(()) => Ok(parts),
        Err(error) => Err(error),
    }
}

/// The variables, or one for the type `Int` if there is none. The error is that memory or numbers ran out.
fn filled(alloc: Global, state: &mut State, variables: Vec<u32>) -> Result<Vec<u32>, AllocError>
    requires { IsStore (here state.old).store }
    ensures fills { IfOk result (λ vs. Fills (here state.old) (here state.new) variables.items vs.items) }
    ensures number { IfOk result (λ vs. length vs.items ≡ some_count (length variables.items)) }
{
    if variables.len() == 0 {
        let number = make::int(alloc, state)?;
        let one = repeated(alloc, number, 1)?;
        return Ok(one);
    }
    Ok(variables)
}

/// Begins a record with the fields `names`, each once, and `count` parts, which stands at `position` and is wanted at
/// the type of the variable `wanted`: returns the variables that the parts are wanted at. The errors: no such record is
/// of the type; memory or numbers ran out.
pub fn record(
    alloc: Global,
    state: &mut State,
    position: Pos,
    names: &[Name],
    count: usize,
    wanted: u32,
) -> Result<Vec<u32>, InferError>
    requires whole { IsStore (here state.old).store }
    requires wanted { Live (here state.old).depth (here state.old).store wanted }
    requires distinct { AreDistinct names.now }
    ensures begins { IfOk result (λ vs. (code : Code)
        → BeginsOp code (RecordOf names.now) count position wanted vs.items (here state.old) (here state.new)) }
    ensures number { IfOk result (λ vs. length vs.items ≡ first_count (RecordOf names.now) count) }
    ensures stops { (b : Bad) → result ≡ Err (error.Bad b) → (code : Code)
        → OpStops code (RecordOf names.now) count position wanted (here state.old) (here state.new) (bad_view b) }
{
    let parts = make::open_each(alloc, state, names.len())?;
    let made = record::record(alloc, state, names, &parts, None)?;
    match same(state, position, made, wanted) {
        Ok(()) => {}
        Err(error) => return Err(error),
    }
    let all = filled(alloc, state, parts)?;
    Ok(if_any(alloc, all, count))
}

/// Begins a negation of `count` parts, which stands at `position` and is wanted at the type of the variable `wanted`:
/// its part is wanted at the same type. The errors: no number is of the type; memory or numbers ran out.
pub fn negation(
    alloc: Global,
    state: &mut State,
    position: Pos,
    count: usize,
    wanted: u32,
) -> Result<Vec<u32>, InferError>
    requires whole { IsStore (here state.old).store }
    requires wanted { Live (here state.old).depth (here state.old).store wanted }
    ensures begins { IfOk result (λ vs. (code : Code)
        → BeginsOp code Negate count position wanted vs.items (here state.old) (here state.new)) }
    ensures number { IfOk result (λ vs. length vs.items ≡ first_count Negate count) }
    ensures stops { (b : Bad) → result ≡ Err (error.Bad b) → (code : Code)
        → OpStops code Negate count position wanted (here state.old) (here state.new) (bad_view b) }
{
    let part = repeated(alloc, wanted, 1)?;
    match in_class(state, position, wanted, Class::Number) {
        Ok(()) => Ok(if_any(alloc, part, count)),
        Err(error) => Err(error),
    }
}

/// Begins an operation of `count` parts with the operator `operator`, which stands at `place`. It is wanted at the type
/// of the variable `wanted`. Returns the variables that its parts are wanted at. The errors: the operator has no value
/// of the type; memory or numbers ran out.
pub fn binary(
    alloc: Global,
    state: &mut State,
    place: Pos,
    operator: Operator,
    count: usize,
    wanted: u32,
) -> Result<Vec<u32>, InferError>
    requires whole { IsStore (here state.old).store }
    requires wanted { Live (here state.old).depth (here state.old).store wanted }
    ensures begins { IfOk result (λ vs. (code : Code) (position : Pos)
        → BeginsOp code (Binary place operator) count position wanted vs.items (here state.old) (here state.new)) }
    ensures number { IfOk result (λ vs. length vs.items ≡ first_count (Binary place operator) count) }
    ensures stops { (b : Bad) → result ≡ Err (error.Bad b) → (code : Code) (position : Pos)
        → OpStops code (Binary place operator) count position wanted (here state.old) (here state.new) (bad_view b) }
{
    let parts = make::open_each(alloc, state, 2)?;
    let operand = make::open(state)?;
    match in_operator_class(state, place, operand, operator) {
        Ok(()) => {}
        Err(error) => return Err(error),
    }
    let made = operator_type(alloc, state, operator, operand)?;
    let asked = make::functions(alloc, state, &parts, wanted)?;
    match same(state, place, made, asked) {
        Ok(()) => Ok(if_any(alloc, parts, count)),
        Err(error) => Err(error),
    }
}
