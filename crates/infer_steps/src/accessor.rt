//! Functions that read a field of a record.

ghost use Rattle.std.specs.Prelude.{◌≡◌, ◌<◌, ◌∷◌, [], Err, IfOk, OnOk, length};
ghost use Rattle.elm_canon.specs.Tree.{Accessor};
ghost use Rattle.type_walks.specs.TypeStepsLaws.{Lacking};
ghost use Rattle.type_store.specs.Shape.{IsStore};
ghost use Rattle.type_walks.specs.Links.{Live};
ghost use Rattle.infer_steps.specs.View.{here, bad_view};
ghost use Rattle.infer_steps.specs.declared.bad.Bad.{Bad};
ghost use Rattle.infer_steps.specs.declared.bad.InferError.TheVariants as error;
ghost use Rattle.infer_steps.specs.Made.{IsMade};
ghost use Rattle.infer_steps.specs.Leaves.{listed, OfReader, WalksAlone, StopsAlone};

use crate::ask::{lacks, same};
use crate::bad::InferError;
use crate::make::{function, open, row};
use crate::state::State;
use elm_base::names::Name;
use elm_base::position::Pos;
use std::alloc::{AllocError, Global};
use type_store::slot::FieldSlot;

/// Makes a variable for the functions from the records with the field `name`, of the type of the variable `field`, and
/// what the variable `rest` has, which is known to lack it, to that type.
fn reader(
    alloc: Global,
    state: &mut State,
    name: &Name,
    rest: u32,
    field: u32,
) -> Result<u32, AllocError>
    requires whole { IsStore (here state.old).store }
    requires rest { Live (here state.old).depth (here state.old).store rest }
    requires field { Live (here state.old).depth (here state.old).store field }
    requires lacking { Lacking (here state.old).store rest (name.now ∷ []) }
    ensures { IfOk result (λ v. IsMade (here state.old) (here state.new) v (OfReader name.now rest field)) }
{
    let mut fields = Vec::new(alloc);
    fields.push(FieldSlot {
        name: name.clone()?,
        slot: field,
    })?;
    let record = row(state, fields, Some(rest))?;
    let variable = function(alloc, state, record, field)?;
    Ok(variable)
}

/// Infers the function that reads the field `name` of a record, which stands at `position`, where the type of the
/// variable `wanted` is wanted. The errors: it has not that type; memory or numbers ran out.
pub fn infer_accessor(
    alloc: Global,
    state: &mut State,
    position: Pos,
    name: &Name,
    wanted: u32,
) -> Result<(), InferError>
    requires whole { IsStore (here state.old).store }
    requires wanted { Live (here state.old).depth (here state.old).store wanted }
    ensures walked { OnOk result (WalksAlone wanted (listed (Accessor name.now) position) (here state.old)
        (here state.new)) }
    ensures stopped { (b : Bad) → result ≡ Err (error.Bad b)
        → StopsAlone wanted (listed (Accessor name.now) position) (here state.old) (here state.new) (bad_view b) }
{
    let rest = open(state)?;
    match lacks(state, position, rest, name) {
        Ok(()) => {}
        Err(error) => return Err(error),
    }
    let field = open(state)?;
    let variable = reader(alloc, state, name, rest, field)?;
    same(state, position, variable, wanted)
}
