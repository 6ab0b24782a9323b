//! Fields of records: reading one, and replacing some.

ghost use Rattle.std.specs.Prelude.{◌≡◌, ◌∷◌, [], ℕ, Err, IfOk, length};
ghost use Rattle.type_store.specs.Shape.{IsStore};
ghost use Rattle.type_walks.specs.Links.{Live};
ghost use Rattle.infer_steps.specs.Codes.{Code};
ghost use Rattle.infer_steps.specs.View.{here, bad_view};
ghost use Rattle.infer_steps.specs.declared.bad.Bad.{Bad};
ghost use Rattle.infer_steps.specs.declared.bad.InferError.TheVariants as error;
ghost use Rattle.infer_steps.specs.Records.{AreDistinct};
ghost use Rattle.infer_steps.specs.Begun.{Begun, BeginStops};
ghost use Rattle.infer_steps.specs.Operations.{next_two, access_items, access_types, update_items, update_types};

use crate::ask::{lacks, lacks_each, same};
use crate::bad::InferError;
use crate::state::State;
use crate::{make, record};
use elm_base::names::Name;
use elm_base::position::Pos;
use std::alloc::{AllocError, Global};

/// A field that is read: the variables that the record is wanted at, and of the field's type.
#[derive(Clone, Copy)]
pub struct Access {
    pub owner: u32,
    pub field: u32,
}

/// The name alone. The error means that memory ran out.
fn one_name(alloc: Global, name: &Name) -> Result<Vec<Name>, AllocError>
    ensures { IfOk result (λ names. names.items ≡ name.now ∷ []) }
{
    let mut names = Vec::new(alloc);
    names.push(name.clone()?)?;
    Ok(names)
}

/// Begins the reading of the field `name`, which stands at `position`. The errors: the rest of the record has the
/// field; memory or numbers ran out.
pub fn begin_access(
    alloc: Global,
    state: &mut State,
    name: &Name,
    position: Pos,
) -> Result<Access, InferError>
    requires { IsStore (here state.old).store }
    ensures begins { IfOk result (λ x. (code : Code) (v : ℕ)
        → Begun code v next_two (access_items name.now position) (x.owner ∷ x.field ∷ []) (access_types name.now)
        (here state.old) (here state.new)) }
    ensures stops { (b : Bad) → result ≡ Err (error.Bad b) → (code : Code) (v : ℕ)
        → BeginStops code v next_two (access_items name.now position) (here state.old) (here state.new) (bad_view b) }
{
    let rest = make::open(state)?;
    match lacks(state, position, rest, name) {
        Ok(()) => {}
        Err(error) => return Err(error),
    }
    let field = make::open(state)?;
    let names = one_name(alloc, name)?;
    let fields = [field];
    let owner = record::record(alloc, state, &names, &fields, Some(rest))?;
    Ok(Access { owner, field })
}

/// Goes on with `{ r | .. }`, which stands at `position`, after the record was walked. The record and the whole are
/// wanted at the type of the variable `wanted`. Returns the variables that the new values of the fields `names`, each
/// once, are wanted at. The errors: the record has not these fields; memory or numbers ran out.
pub fn go_on_update(
    alloc: Global,
    state: &mut State,
    names: &[Name],
    position: Pos,
    wanted: u32,
) -> Result<Vec<u32>, InferError>
    requires whole { IsStore (here state.old).store }
    requires wanted { Live (here state.old).depth (here state.old).store wanted }
    requires distinct { AreDistinct names.now }
    ensures begins { IfOk result (λ vs. (code : Code) (n : ℕ)
        → Begun code wanted next_two (update_items names.now n position) vs.items (update_types names.now n position)
        (here state.old) (here state.new)) }
    ensures number { IfOk result (λ vs. length vs.items ≡ length names.now) }
    ensures stops { (b : Bad) → result ≡ Err (error.Bad b) → (code : Code) (n : ℕ)
        → BeginStops code wanted next_two (update_items names.now n position) (here state.old) (here state.new)
        (bad_view b) }
{
    let rest = make::open(state)?;
    match lacks_each(state, position, rest, names) {
        Ok(()) => {}
        Err(error) => return Err(error),
    }
    let parts = make::open_each(alloc, state, names.len())?;
    let made = record::record(alloc, state, names, &parts, Some(rest))?;
    match same(state, position, made, wanted) {
        Ok(()) => Ok(parts),
        Err(error) => Err(error),
    }
}
