//! Variables that are made.

ghost use Rattle.std.specs.Prelude.{◌≡◌, ◌<◌, ◌∷◌, [], IfOk, length, map, All};
ghost use Rattle.std.specs.List.{AllByRecursion};
ghost use Rattle.elm_type.specs.Types.{int_type, char_type, string_type, bool_type};
ghost use Rattle.elm_type.specs.declared.head.Head.TheVariants as head;
ghost use Rattle.type_walks.specs.Links.{Live};
ghost use Rattle.type_store.specs.Shape.{IsStore, IsCell, parts_of};
ghost use Rattle.type_store.specs.Store.{Row};
ghost use Rattle.type_store.specs.View.{field_view};
ghost use Rattle.type_walks.specs.TypeStepsLaws.{EndLacks};
ghost use Rattle.infer_steps.specs.View.{here};
ghost use Rattle.infer_steps.specs.Made.{IsOpened, AreOpened, IsMade, Just, OfHead, OfList, OfFunctions, OfRow};

use crate::state::State;
use elm_base::names::Name;
use elm_base::units::Units;
use elm_type::head::Head;
use std::alloc::{AllocError, Global};
use type_store::error::AddError;
use type_store::slot::FieldSlot;

/// Makes a variable of which nothing is known. The error is that memory or numbers ran out.
pub fn open(state: &mut State) -> Result<u32, AllocError>
    requires { IsStore (here state.old).store }
    ensures { IfOk result (IsOpened (here state.old) (here state.new)) }
{
    let variable = state.store.open(state.depth)?;
    Ok(variable)
}

/// Makes `count` variables of which nothing is known. The error is that memory or numbers ran out.
pub fn open_each(alloc: Global, state: &mut State, count: usize) -> Result<Vec<u32>, AllocError>
    requires { IsStore (here state.old).store }
    ensures made { IfOk result (λ vs. AreOpened (here state.old) (here state.new) vs.items) }
    ensures number { IfOk result (λ vs. length vs.items ≡ count) }
{
    let mut variables = Vec::new(alloc);
    for _i in 0..count {
        let variable = open(state)?;
        variables.push(variable)?;
    }
    Ok(variables)
}

/// Makes a variable for the type of a head with variables for its parts. The error is that memory or numbers ran out.
pub fn built(state: &mut State, head: Head, parts: Vec<u32>) -> Result<u32, AllocError>
    requires whole { IsStore (here state.old).store }
    requires inside { All (λ w. w < length (here state.old).store) parts.items }
    ensures { IfOk result (λ v. IsMade (here state.old) (here state.new) v (OfHead head parts.items)) }
{
    let variable = state.store.built(head, parts, state.depth)?;
    Ok(variable)
}

/// The name of these units.
fn ascii(alloc: Global, text: &[u8]) -> Result<Name, AllocError>
    ensures { IfOk result (λ name. name ≡ text.now) }
{
    let mut units = Vec::new(alloc);
    for unit in text {
        units.push(*unit as u16)?;
    }
    Name::new(alloc, Units::from_vec(units))
}

/// Makes a variable for the type `name` of the module `home` with variables for its arguments. The error is that memory
/// or numbers ran out.
fn named(
    alloc: Global,
    state: &mut State,
    home: &[u8],
    name: &[u8],
    parts: Vec<u32>,
) -> Result<u32, AllocError>
    requires whole { IsStore (here state.old).store }
    requires inside { All (λ w. w < length (here state.old).store) parts.items }
    ensures { IfOk result (λ v. IsMade (here state.old) (here state.new) v
        (OfHead (head.Named home.now name.now) parts.items)) }
{
    let head = Head::Named(ascii(alloc, home)?, ascii(alloc, name)?);
    built(state, head, parts)
}

/// Makes a variable for the type `Int`. The error is that memory or numbers ran out.
pub fn int(alloc: Global, state: &mut State) -> Result<u32, AllocError>
    requires { IsStore (here state.old).store }
    ensures { IfOk result (λ v. IsMade (here state.old) (here state.new) v (Just int_type)) }
{
    let variable = named(alloc, state, b"Basics", b"Int", Vec::new(alloc))?;
    Ok(variable)
}

/// Makes a variable for the type `Bool`. The error is that memory or numbers ran out.
pub fn bool(alloc: Global, state: &mut State) -> Result<u32, AllocError>
    requires { IsStore (here state.old).store }
    ensures { IfOk result (λ v. IsMade (here state.old) (here state.new) v (Just bool_type)) }
{
    let variable = named(alloc, state, b"Basics", b"Bool", Vec::new(alloc))?;
    Ok(variable)
}

/// Makes a variable for the type `Char`. The error is that memory or numbers ran out.
pub fn char(alloc: Global, state: &mut State) -> Result<u32, AllocError>
    requires { IsStore (here state.old).store }
    ensures { IfOk result (λ v. IsMade (here state.old) (here state.new) v (Just char_type)) }
{
    let variable = named(alloc, state, b"Char", b"Char", Vec::new(alloc))?;
    Ok(variable)
}

/// Makes a variable for the type `String`. The error is that memory or numbers ran out.
pub fn text(alloc: Global, state: &mut State) -> Result<u32, AllocError>
    requires { IsStore (here state.old).store }
    ensures { IfOk result (λ v. IsMade (here state.old) (here state.new) v (Just string_type)) }
{
    let variable = named(alloc, state, b"String", b"String", Vec::new(alloc))?;
    Ok(variable)
}

/// Makes a variable for the lists of the type of the variable `item`. The error is that memory or numbers ran out.
pub fn list(alloc: Global, state: &mut State, item: u32) -> Result<u32, AllocError>
    requires whole { IsStore (here state.old).store }
    requires inside { item < length (here state.old).store }
    ensures { IfOk result (λ v. IsMade (here state.old) (here state.new) v (OfList item)) }
{
    let mut parts = Vec::new(alloc);
    parts.push(item)?;
    let variable = named(alloc, state, b"List", b"List", parts)?;
    Ok(variable)
}

/// Makes a variable for the functions from the type of the variable `parameter` to that of the variable `value`. The
/// error is that memory or numbers ran out.
pub fn function(
    alloc: Global,
    state: &mut State,
    parameter: u32,
    value: u32,
) -> Result<u32, AllocError>
    requires whole { IsStore (here state.old).store }
    requires first { parameter < length (here state.old).store }
    requires second { value < length (here state.old).store }
    ensures { IfOk result (λ v. IsMade (here state.old) (here state.new) v (OfFunctions (parameter ∷ []) value)) }
{
    let mut parts = Vec::new(alloc);
    parts.push(parameter)?;
    parts.push(value)?;
    let variable = built(state, Head::Function, parts)?;
    Ok(variable)
}

/// Makes a variable for the functions of the types of the variables `parameters` in turn, with a value of the type of
/// the variable `value`. The error is that memory or numbers ran out.
pub fn functions(
    alloc: Global,
    state: &mut State,
    parameters: &[u32],
    value: u32,
) -> Result<u32, AllocError>
    requires whole { IsStore (here state.old).store }
    requires parameters { AllByRecursion (Live (here state.old).depth (here state.old).store) parameters.now }
    requires value { Live (here state.old).depth (here state.old).store value }
    ensures { IfOk result (λ v. IsMade (here state.old) (here state.new) v (OfFunctions parameters.now value)) }
{
    let count = parameters.len();
    let mut made = value;
    for i in 0..count {
        made = function(alloc, state, parameters[count - 1 - i], made)?;
    }
    Ok(made)
}

/// Makes a variable for the records with the fields `fields`, in ascending order of their names, and what the variable
/// `rest` has, if there is one, which is known to lack them. The error is that memory or numbers ran out.
pub fn row(state: &mut State, fields: Vec<FieldSlot>, rest: Option<u32>) -> Result<u32, AllocError>
    requires whole { IsStore (here state.old).store }
    requires inside { All (λ w. w < length (here state.old).store) (parts_of (Row (map field_view fields.items) rest)) }
    requires cell { IsCell 0 (Row (map field_view fields.items) rest) }
    requires lacking { EndLacks (here state.old).store (map field_view fields.items) rest }
    ensures { IfOk result (λ v. IsMade (here state.old) (here state.new) v
        (OfRow (map field_view fields.items) rest)) }
{
    match state.store.row(fields, rest, state.depth) {
        Ok(variable) => Ok(variable),
        Err(AddError::Clash) => Err(AllocError),
        Err(AddError::NoMemory(error)) => Err(error),
    }
}
