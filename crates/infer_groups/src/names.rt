//! The names of a type group: inside it and after it.

ghost use Rattle.std.specs.Prelude.{◌≡◌, ◌<◌, length, map, IfOk, OnOk};
ghost use Rattle.std.specs.List.{All};
ghost use Rattle.type_store.specs.Shape.{IsStore};
ghost use Rattle.type_schemes.specs.Freezing.{ConstantsAround};
ghost use Rattle.infer_steps.specs.View.{code_of};
ghost use Rattle.infer_steps.specs.Leaving.{without};
ghost use Rattle.infer_groups.specs.Members.{with_named};
ghost use Rattle.infer_groups.specs.General.{with_general, AreFrozen};
ghost use Rattle.infer_groups.specs.Names.{named_views, general_view};

use elm_canon::reference::Ref;
use infer_steps::scope::{Entered, Meaning, Scope};
use std::alloc::{AllocError, Global};
use type_schemes::freezing::freeze;
use type_schemes::frozen::Frozen;
use type_store::store::Store;

/// A name, and the variable of its type.
#[derive(Drop)]
pub struct Named {
    pub name: Ref,
    pub variable: u32,
}

/// A name, and the type of which each use has a copy.
#[derive(Drop)]
pub(crate) struct General {
    name: Ref,
    frozen: Frozen,
}

/// The same name once more. The error means that memory ran out.
pub(crate) fn copy_name(name: &Ref) -> Result<Ref, AllocError>
    ensures { IfOk result (λ copy. copy ≡ name.now) }
{
    match name {
        Ref::Local(local) => Ok(Ref::Local(local.clone()?)),
        Ref::Top(home, top) => Ok(Ref::Top(home.clone()?, top.clone()?)),
    }
}

/// Lets names stand for their variables: the last one first, so the first is the innermost. The result is for
/// `Scope::leave`. The error means that memory ran out.
pub fn enter_named(
    alloc: Global,
    scope: &mut Scope,
    names: &[Named],
) -> Result<Vec<Entered>, AllocError>
    ensures scope { OnOk result (code_of scope.new ≡ with_named (named_views names.now) (code_of scope.old)) }
    ensures entered { IfOk result (λ es. without es.items (code_of scope.new) ≡ code_of scope.old) }
{
    let mut entered = Vec::new(alloc);
    for done in 0..names.len() {
        let each = &names[names.len() - 1 - done];
        let one = scope.enter(&each.name, Meaning::One(each.variable))?;
        entered.push(one)?;
    }
    Ok(entered)
}

/// Freezes what is deeper than `depth` definitions of the types of names. The error means that memory or numbers ran
/// out.
pub(crate) fn freeze_named(
    alloc: Global,
    store: &Store,
    names: &[Named],
    depth: u32,
) -> Result<Vec<General>, AllocError>
    requires whole { IsStore store.now }
    requires inside { All (λ n. n.variable < length store.now) names.now }
    requires around { ConstantsAround depth store.now }
    ensures { IfOk result (λ general.
        AreFrozen depth store.now (named_views names.now) (map general_view general.items)) }
{
    let mut general = Vec::with_capacity(alloc, names.len())?;
    for each in names {
        let name = copy_name(&each.name)?;
        let frozen = freeze(alloc, store, each.variable, depth)?;
        general.push(General { name, frozen })?;
    }
    Ok(general)
}

/// Lets names stand for copies of their types: the last one first, so the first is the innermost. The result is for
/// `Scope::leave`. The error means that memory ran out.
pub(crate) fn enter_general(
    alloc: Global,
    scope: &mut Scope,
    general: Vec<General>,
) -> Result<Vec<Entered>, AllocError>
    ensures scope { OnOk result (code_of scope.new
        ≡ with_general (map general_view general.items) (code_of scope.old)) }
    ensures entered { IfOk result (λ es. without es.items (code_of scope.new) ≡ code_of scope.old) }
{
    let mut rest = general;
    let mut entered = Vec::new(alloc);
    while let Some(last) = rest.pop() {
        let General { name, frozen } = last;
        let one = scope.enter(&name, Meaning::Many(frozen))?;
        entered.push(one)?;
    }
    Ok(entered)
}
