//! Literals.

ghost use Rattle.std.specs.Prelude.{◌≡◌, Err, OnOk};
ghost use Rattle.elm_canon.specs.Tree.{Is};
ghost use Rattle.elm_type.specs.Types.{char_type, string_type};
ghost use Rattle.type_store.specs.Shape.{IsStore};
ghost use Rattle.type_walks.specs.Links.{Live};
ghost use Rattle.infer_steps.specs.View.{here, bad_view};
ghost use Rattle.infer_steps.specs.declared.bad.Bad.{Bad};
ghost use Rattle.infer_steps.specs.declared.bad.InferError.TheVariants as error;
ghost use Rattle.infer_steps.specs.Leaves.{listed, of_type, of_number, WalksAlone, StopsAlone};

use crate::ask::{in_class, same};
use crate::bad::InferError;
use crate::make::{char, open, text};
use crate::state::State;
use elm_base::position::Pos;
use elm_canon::tree::Literal;
use elm_type::class::Class;
use std::alloc::Global;

/// A number, wanted at the type of a variable.
fn infer_number(state: &mut State, position: Pos, wanted: u32) -> Result<(), InferError>
    requires whole { IsStore (here state.old).store }
    requires wanted { Live (here state.old).depth (here state.old).store wanted }
    ensures walked { OnOk result (WalksAlone wanted (of_number position) (here state.old) (here state.new)) }
    ensures stopped { (b : Bad) → result ≡ Err (error.Bad b)
        → StopsAlone wanted (of_number position) (here state.old) (here state.new) (bad_view b) }
{
    let variable = open(state)?;
    match in_class(state, position, variable, Class::Number) {
        Ok(()) => same(state, position, variable, wanted),
        Err(error) => Err(error),
    }
}

/// A character, wanted at the type of a variable.
fn infer_char(
    alloc: Global,
    state: &mut State,
    position: Pos,
    wanted: u32,
) -> Result<(), InferError>
    requires whole { IsStore (here state.old).store }
    requires wanted { Live (here state.old).depth (here state.old).store wanted }
    ensures walked { OnOk result (WalksAlone wanted (of_type char_type position) (here state.old) (here state.new)) }
    ensures stopped { (b : Bad) → result ≡ Err (error.Bad b)
        → StopsAlone wanted (of_type char_type position) (here state.old) (here state.new) (bad_view b) }
{
    let variable = char(alloc, state)?;
    same(state, position, variable, wanted)
}

/// A text, wanted at the type of a variable.
fn infer_text(
    alloc: Global,
    state: &mut State,
    position: Pos,
    wanted: u32,
) -> Result<(), InferError>
    requires whole { IsStore (here state.old).store }
    requires wanted { Live (here state.old).depth (here state.old).store wanted }
    ensures walked { OnOk result (WalksAlone wanted (of_type string_type position) (here state.old)
        (here state.new)) }
    ensures stopped { (b : Bad) → result ≡ Err (error.Bad b)
        → StopsAlone wanted (of_type string_type position) (here state.old) (here state.new) (bad_view b) }
{
    let variable = text(alloc, state)?;
    same(state, position, variable, wanted)
}

/// Infers a literal, which stands at `position`, where the type of the variable `wanted` is wanted. The errors: it has
/// not that type; memory or numbers ran out.
pub fn infer_literal(
    alloc: Global,
    state: &mut State,
    position: Pos,
    literal: &Literal,
    wanted: u32,
) -> Result<(), InferError>
    requires whole { IsStore (here state.old).store }
    requires wanted { Live (here state.old).depth (here state.old).store wanted }
    ensures walked { OnOk result (WalksAlone wanted (listed (Is literal.now) position) (here state.old)
        (here state.new)) }
    ensures stopped { (b : Bad) → result ≡ Err (error.Bad b)
        → StopsAlone wanted (listed (Is literal.now) position) (here state.old) (here state.new) (bad_view b) }
{
    match literal {
        Literal::Int(_number) => infer_number(state, position, wanted),
        Literal::Char(_units) => infer_char(alloc, state, position, wanted),
        Literal::Text(_units) => infer_text(alloc, state, position, wanted),
    }
}
