//! The types of operators, and the classes that their variables are of.

ghost use Rattle.std.specs.Prelude.{◌≡◌, ◌<◌, ◌∷◌, [], Err, IfOk, OnOk, length};
ghost use Rattle.type_items.specs.Operations.{operator_class};
ghost use Rattle.type_store.specs.Shape.{IsStore};
ghost use Rattle.type_walks.specs.Links.{Live};
ghost use Rattle.infer_steps.specs.View.{here, bad_view};
ghost use Rattle.infer_steps.specs.declared.bad.Bad.{Bad};
ghost use Rattle.infer_steps.specs.declared.bad.InferError.TheVariants as error;
ghost use Rattle.infer_steps.specs.Made.{IsMade, OfFunctions};
ghost use Rattle.infer_steps.specs.Operators.{OfOperator, OfComputing, OfComparing, OfConsing, OfDividing};
ghost use Rattle.infer_steps.specs.Operators.{AsksClassItems, RefusesClassItems};

use crate::ask::in_class;
use crate::bad::InferError;
use crate::make::{bool, functions, int, list};
use crate::state::State;
use elm_base::position::Pos;
use elm_canon::tree::Operator;
use elm_type::class::Class;
use std::alloc::{AllocError, Global};

/// The class of the variable of an operator's type.
fn class_of(operator: Operator) -> Class
    ensures { result ≡ operator_class operator }
{
    match operator {
        Operator::Add | Operator::Subtract | Operator::Multiply => Class::Number,
        Operator::Append => Class::Appendable,
        Operator::Less | Operator::Greater | Operator::AtMost | Operator::AtLeast => {
            Class::Comparable
        }
        Operator::Divide | Operator::Cons | Operator::Equal | Operator::Unequal => Class::Any,
    }
}

/// Adds that the type of the variable `variable` meets the class `class`, which is asked at `position`, if it is not
/// the class of all types. The errors: it does not; memory or numbers ran out.
pub fn in_some_class(
    state: &mut State,
    position: Pos,
    variable: u32,
    class: Class,
) -> Result<(), InferError>
    requires whole { IsStore (here state.old).store }
    requires inside { variable < length (here state.old).store }
    ensures asks { OnOk result (AsksClassItems (here state.old) (here state.new) position variable class) }
    ensures refuses { (b : Bad) → result ≡ Err (error.Bad b)
        → RefusesClassItems (here state.old) (here state.new) position variable class (bad_view b) }
{
    match class {
        Class::Any => Ok(()),
        Class::Number => in_class(state, position, variable, class),
        Class::Comparable => in_class(state, position, variable, class),
        Class::Appendable => in_class(state, position, variable, class),
        Class::CompAppend => in_class(state, position, variable, class),
    }
}

/// Adds that the type of the variable `variable` is of the class of the operator `operator`, which is asked at
/// `position`. The errors: it is not; memory or numbers ran out.
pub fn in_operator_class(
    state: &mut State,
    position: Pos,
    variable: u32,
    operator: Operator,
) -> Result<(), InferError>
    requires whole { IsStore (here state.old).store }
    requires inside { variable < length (here state.old).store }
    ensures asks { OnOk result (AsksClassItems (here state.old) (here state.new) position variable
        (operator_class operator)) }
    ensures refuses { (b : Bad) → result ≡ Err (error.Bad b)
        → RefusesClassItems (here state.old) (here state.new) position variable (operator_class operator)
        (bad_view b) }
{
    in_some_class(state, position, variable, class_of(operator))
}

/// Makes a variable for the functions of two parameters.
fn binary(
    alloc: Global,
    state: &mut State,
    first: u32,
    second: u32,
    value: u32,
) -> Result<u32, AllocError>
    requires whole { IsStore (here state.old).store }
    requires first { Live (here state.old).depth (here state.old).store first }
    requires second { Live (here state.old).depth (here state.old).store second }
    requires value { Live (here state.old).depth (here state.old).store value }
    ensures { IfOk result (λ v. IsMade (here state.old) (here state.new) v (OfFunctions (first ∷ second ∷ []) value)) }
{
    let mut parameters = Vec::new(alloc);
    parameters.push(first)?;
    parameters.push(second)?;
    let variable = functions(alloc, state, &parameters, value)?;
    Ok(variable)
}

/// Makes a variable for the functions of two values of the type of the variable `variable` to one.
fn computing(alloc: Global, state: &mut State, variable: u32) -> Result<u32, AllocError>
    requires whole { IsStore (here state.old).store }
    requires live { Live (here state.old).depth (here state.old).store variable }
    ensures { IfOk result (λ v. IsMade (here state.old) (here state.new) v (OfComputing variable)) }
{
    let made = binary(alloc, state, variable, variable, variable)?;
    Ok(made)
}

/// Makes a variable for the functions of two values of the type of the variable `variable` to `Bool`.
fn comparing(alloc: Global, state: &mut State, variable: u32) -> Result<u32, AllocError>
    requires whole { IsStore (here state.old).store }
    requires live { Live (here state.old).depth (here state.old).store variable }
    ensures { IfOk result (λ v. IsMade (here state.old) (here state.new) v (OfComparing variable)) }
{
    let answer = bool(alloc, state)?;
    let made = binary(alloc, state, variable, variable, answer)?;
    Ok(made)
}

/// Makes a variable for the functions of a value of the type of the variable `variable` and a list of such to one.
fn consing(alloc: Global, state: &mut State, variable: u32) -> Result<u32, AllocError>
    requires whole { IsStore (here state.old).store }
    requires live { Live (here state.old).depth (here state.old).store variable }
    ensures { IfOk result (λ v. IsMade (here state.old) (here state.new) v (OfConsing variable)) }
{
    let items = list(alloc, state, variable)?;
    let made = binary(alloc, state, variable, items, items)?;
    Ok(made)
}

/// Makes a variable for the functions of two values of the type `Int` to one.
fn dividing(alloc: Global, state: &mut State) -> Result<u32, AllocError>
    requires { IsStore (here state.old).store }
    ensures { IfOk result (λ v. IsMade (here state.old) (here state.new) v OfDividing) }
{
    let number = int(alloc, state)?;
    let made = computing(alloc, state, number)?;
    Ok(made)
}

/// Makes a variable for the type of the operator `operator` where that of the variable `variable` stands for its type
/// variable. The error is that memory or numbers ran out.
pub fn operator_type(
    alloc: Global,
    state: &mut State,
    operator: Operator,
    variable: u32,
) -> Result<u32, AllocError>
    requires whole { IsStore (here state.old).store }
    requires live { Live (here state.old).depth (here state.old).store variable }
    ensures { IfOk result (λ v. IsMade (here state.old) (here state.new) v (OfOperator operator variable)) }
{
    match operator {
        Operator::Add | Operator::Subtract | Operator::Multiply | Operator::Append => {
            computing(alloc, state, variable)
        }
        Operator::Divide => dividing(alloc, state),
        Operator::Cons => consing(alloc, state, variable),
        Operator::Equal
        | Operator::Unequal
        | Operator::Less
        | Operator::Greater
        | Operator::AtMost
        | Operator::AtLeast => comparing(alloc, state, variable),
    }
}
