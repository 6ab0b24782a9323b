//! Uses of names.

ghost use Rattle.std.specs.Prelude.{◌≡◌, Err, OnOk, Some, None};
ghost use Rattle.type_store.specs.Shape.{IsStore};
ghost use Rattle.type_walks.specs.Links.{Live};
ghost use Rattle.infer_steps.specs.Codes as codes;
ghost use Rattle.infer_steps.specs.View.{here, bad_view, known_view, declared_view, meaning_view, code_of};
ghost use Rattle.infer_steps.specs.Promises.{Walked, Stopped};
ghost use Rattle.infer_steps.specs.Ready.{AreWritten, DeclaredReady, FrozenReady, MeaningReady, IsReady, Follows};
ghost use Rattle.infer_steps.specs.declared.bad.Bad.{Bad};
ghost use Rattle.infer_steps.specs.declared.bad.InferError.TheVariants as error;
ghost use Rattle.type_schemes.specs.View.{frozen_view};
ghost use Rattle.infer_types.specs.Uses.{used, EntryOf, Elsewhere, Uses, NoUse};

use crate::instances;
use elm_base::position::Pos;
use elm_canon::reference::Ref;
use infer_steps::ask::{nonsense, same};
use infer_steps::bad::InferError;
use infer_steps::known::Known;
use infer_steps::scope::{Declared, Meaning, Scope};
use infer_steps::state::State;
use std::alloc::Global;
use type_schemes::copying::instantiate;
use type_schemes::frozen::Frozen;

/// A name of one type.
fn use_one(state: &mut State, position: Pos, variable: u32, wanted: u32) -> Result<(), InferError>
    requires whole { IsStore (here state.old).store }
    requires variable { Live (here state.old).depth (here state.old).store variable }
    requires wanted { Live (here state.old).depth (here state.old).store wanted }
    ensures walked { OnOk result (Uses (EntryOf (codes.One variable)) position wanted
        (here state.old) (here state.new)) }
    ensures stopped { (b : Bad) → result ≡ Err (error.Bad b)
        → NoUse (EntryOf (codes.One variable)) position wanted (here state.old)
        (here state.new) (bad_view b) }
{
    same(state, position, variable, wanted)
}

/// A name of a general type.
fn use_many(
    alloc: Global,
    state: &mut State,
    position: Pos,
    frozen: &Frozen,
    wanted: u32,
) -> Result<(), InferError>
    requires whole { IsStore (here state.old).store }
    requires ready { FrozenReady (here state.old).depth (here state.old).store (frozen_view frozen.now) }
    requires wanted { Live (here state.old).depth (here state.old).store wanted }
    ensures walked { OnOk result (Uses (EntryOf (codes.Many (frozen_view frozen.now)))
        position wanted (here state.old) (here state.new)) }
    ensures stopped { (b : Bad) → result ≡ Err (error.Bad b)
        → NoUse (EntryOf (codes.Many (frozen_view frozen.now))) position wanted
        (here state.old) (here state.new) (bad_view b) }
{
    let variable = instantiate(alloc, &mut state.store, frozen, state.depth)?;
    same(state, position, variable, wanted)
}

/// A name of a type that is written.
fn use_each(
    alloc: Global,
    state: &mut State,
    position: Pos,
    declared: &Declared,
    wanted: u32,
) -> Result<(), InferError>
    requires whole { IsStore (here state.old).store }
    requires ready { DeclaredReady (here state.old).depth (here state.old).store (declared_view declared.now) }
    requires wanted { Live (here state.old).depth (here state.old).store wanted }
    ensures walked { OnOk result (Uses (EntryOf (codes.Each (declared_view declared.now))) position wanted
        (here state.old) (here state.new)) }
    ensures stopped { (b : Bad) → result ≡ Err (error.Bad b)
        → NoUse (EntryOf (codes.Each (declared_view declared.now))) position wanted
        (here state.old) (here state.new) (bad_view b) }
{
    match instances::declared(alloc, state, position, declared) {
        Ok(variable) => same(state, position, variable, wanted),
        Err(error) => Err(error),
    }
}

/// A name in scope.
fn use_meaning(
    alloc: Global,
    state: &mut State,
    position: Pos,
    meaning: &Meaning,
    wanted: u32,
) -> Result<(), InferError>
    requires whole { IsStore (here state.old).store }
    requires ready { MeaningReady (here state.old).depth (here state.old).store (meaning_view meaning.now) }
    requires wanted { Live (here state.old).depth (here state.old).store wanted }
    ensures walked { OnOk result (Uses (EntryOf (meaning_view meaning.now)) position
        wanted (here state.old) (here state.new)) }
    ensures stopped { (b : Bad) → result ≡ Err (error.Bad b)
        → NoUse (EntryOf (meaning_view meaning.now)) position wanted
        (here state.old) (here state.new) (bad_view b) }
{
    match meaning {
        Meaning::One(variable) => use_one(state, position, *variable, wanted),
        Meaning::Many(frozen) => use_many(alloc, state, position, frozen, wanted),
        Meaning::Each(declared) => use_each(alloc, state, position, declared, wanted),
    }
}

/// A name that is not in scope, but may be declared elsewhere.
fn use_elsewhere(
    alloc: Global,
    state: &mut State,
    known: &Known,
    position: Pos,
    name: &Ref,
    wanted: u32,
) -> Result<(), InferError>
    requires whole { IsStore (here state.old).store }
    requires known { AreWritten (known_view known.now) }
    requires wanted { Live (here state.old).depth (here state.old).store wanted }
    ensures walked { OnOk result (Uses (Elsewhere (known_view known.now) name.now) position wanted (here state.old)
        (here state.new)) }
    ensures stopped { (b : Bad) → result ≡ Err (error.Bad b)
        → NoUse (Elsewhere (known_view known.now) name.now) position wanted (here state.old) (here state.new)
        (bad_view b) }
{
    match name {
        Ref::Local(_) => Err(nonsense(alloc, state, position)),
        Ref::Top(home, top) => match known.get(home, top) {
            None => Err(nonsense(alloc, state, position)),
            Some(scheme) => match instances::known(alloc, state, position, scheme) {
                Ok(variable) => same(state, position, variable, wanted),
                Err(error) => Err(error),
            },
        },
    }
}

/// Infers a use of the name `name`, which stands at `position`, where the type of the variable `wanted` is wanted. The
/// errors: it has not that type, or is not in scope; memory or numbers ran out.
pub fn infer_name(
    alloc: Global,
    state: &mut State,
    scope: &Scope,
    position: Pos,
    name: &Ref,
    wanted: u32,
) -> Result<(), InferError>
    requires ready { IsReady (code_of scope.now) (here state.old).depth (here state.old).store }
    requires wanted { Live (here state.old).depth (here state.old).store wanted }
    ensures follows { OnOk result (Follows (here state.old) (here state.new)) }
    ensures walked { OnOk result (Walked (code_of scope.now) wanted (used name.now position) (here state.old)
        (here state.new)) }
    ensures stopped { (b : Bad) → result ≡ Err (error.Bad b)
        → Stopped (code_of scope.now) wanted (used name.now position) (here state.old) (here state.new) (bad_view b) }
{
    let found = scope.find(name)?;
    match found {
        Some(meaning) => use_meaning(alloc, state, position, meaning, wanted),
        None => use_elsewhere(alloc, state, scope.known(), position, name, wanted),
    }
}
