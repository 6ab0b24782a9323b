//! Copies of frozen types.

ghost use Rattle.std.specs.Prelude.{◌≡◌, ◌<◌, length, map, IfOk};
ghost use Rattle.std.specs.List.{All, AllByRecursion};
ghost use Rattle.type_walks.specs.Frozen.{CellBefore, CellLive, EndBefore, IsBefore, OuterLive};
ghost use Rattle.type_walks.specs.Says.{Instantiates};
ghost use Rattle.type_schemes.specs.Formed.{IsFormed, IsRecord};
ghost use Rattle.type_schemes.specs.Freezing.{CanCopy};
ghost use Rattle.type_schemes.specs.View as frozen;
ghost use Rattle.type_schemes.specs.View.{cell_view, end_view, frozen_view, part_view};
ghost use Rattle.type_store.specs.Shape.{IsStore};
ghost use Rattle.type_store.specs.View as stored;
ghost use Rattle.type_schemes.specs.Copies.{CanHave, Grows, IsCopy, Partly, copied, copied_end, copied_field};
ghost use Rattle.type_walks.specs.Links.{Live};

use crate::frozen::{FieldPart, Frozen, FrozenCell, Part};
use elm_type::scheme::Kind;
use std::alloc::{AllocError, Global};
use type_store::error::AddError;
use type_store::laws::solution_law;
use type_store::slot::FieldSlot;
use type_store::store::Store;

/// The variable that is the copy of a part.
fn part(copies: &[u32], part: Part) -> u32
    requires { IsBefore (length copies.now) (part_view part) }
    ensures { result ≡ copied copies.now (part_view part) }
{
    match part {
        Part::Inner(place) => copies[place as usize],
        Part::Outer(variable) => variable,
    }
}

/// The variables that are the copies of parts. The error means that memory ran out.
fn parts(alloc: Global, copies: &[u32], parts: &[Part]) -> Result<Vec<u32>, AllocError>
    requires { All (IsBefore (length copies.now)) (map part_view parts.now) }
    ensures { IfOk result (λ variables. variables.items ≡ map (copied copies.now) (map part_view parts.now)) }
{
    let mut variables = Vec::with_capacity(alloc, parts.len())?;
    for each in parts {
        variables.push(part(copies, *each))?;
    }
    Ok(variables)
}

/// The fields with the copies of their parts. The error means that memory ran out.
fn fields(alloc: Global, copies: &[u32], parts: &[FieldPart]) -> Result<Vec<FieldSlot>, AllocError>
    requires { All (λ f. IsBefore (length copies.now) f.1) (map frozen.field_view parts.now) }
    ensures { IfOk result (λ fields. map stored.field_view fields.items ≡ map (copied_field copies.now)
        (map frozen.field_view parts.now)) }
{
    let mut fields = Vec::with_capacity(alloc, parts.len())?;
    for each in parts {
        fields.push(FieldSlot {
            name: each.name.clone()?,
            slot: part(copies, each.part),
        })?;
    }
    Ok(fields)
}

/// The copy of where a row ends.
fn end(copies: &[u32], end: Option<Part>) -> Option<u32>
    requires { EndBefore (length copies.now) (end_view end) }
    ensures { result ≡ copied_end copies.now (end_view end) }
{
    match end {
        None => None,
        Some(last) => Some(part(copies, last)),
    }
}

/// Makes a variable for any type of a kind, which has a type. The error means that memory or numbers ran out.
fn open(store: &mut Store, kind: &Kind, depth: u32) -> Result<u32, AllocError>
    requires whole { IsStore store.old }
    requires possible { CanHave store.old (Partly kind.now.class kind.now.lacks.items) }
    ensures made { IfOk result (λ v. Grows depth store.old v store.new (Partly kind.now.class kind.now.lacks.items)) }
    ensures whole { IsStore store.new }
{
    let variable = store.open(depth)?;
    match store.in_class(variable, kind.class) {
        Ok(()) => {}
        Err(AddError::Clash) => unreachable!(),
        Err(AddError::NoMemory(error)) => return Err(error),
    }
    for name in &kind.lacks {
        match store.lacks(variable, name.clone()?) {
            Ok(()) => {}
            Err(AddError::Clash) => unreachable!(),
            Err(AddError::NoMemory(error)) => return Err(error),
        }
    }
    Ok(variable)
}

/// Makes the copy of a frozen type, whose parts have copies. The error means that memory or numbers ran out.
fn copy_cell(
    alloc: Global,
    store: &mut Store,
    copies: &[u32],
    cell: &FrozenCell,
    depth: u32,
) -> Result<u32, AllocError>
    requires whole { IsStore store.old }
    requires copies { All (Live depth store.old) copies.now }
    requires before { CellBefore (length copies.now) (cell_view cell.now) }
    requires record { IsRecord (cell_view cell.now) }
    requires live { CellLive depth store.old (cell_view cell.now) }
    requires possible { CanHave store.old (IsCopy copies.now (cell_view cell.now)) }
    ensures made { IfOk result (λ v. Grows depth store.old v store.new (IsCopy copies.now (cell_view cell.now))) }
    ensures whole { IsStore store.new }
{
    match cell {
        FrozenCell::Open(kind) => {
            let variable = open(store, kind, depth)?;
            Ok(variable)
        }
        FrozenCell::Built(head, list) => {
            let variables = parts(alloc, copies, list)?;
            let variable = store.built(head.copy()?, variables, depth)?;
            Ok(variable)
        }
        FrozenCell::Row(list, last) => {
            let slots = fields(alloc, copies, list)?;
            match store.row(slots, end(copies, *last), depth) {
                Ok(variable) => Ok(variable),
                Err(AddError::Clash) => unreachable!(),
                Err(AddError::NoMemory(error)) => Err(error),
            }
        }
    }
}

/// Makes a copy of the frozen type `frozen`, inside `depth` definitions, and returns its variable. The frozen type has
/// a copy whatever the types of the store's variables are. The error means that memory or numbers ran out: then a part
/// of the copy may have been made.
pub fn instantiate(
    alloc: Global,
    store: &mut Store,
    frozen: &Frozen,
    depth: u32,
) -> Result<u32, AllocError>
    requires whole { IsStore store.old }
    requires formed { IsFormed (frozen_view frozen.now) }
    requires live { OuterLive depth store.old (frozen_view frozen.now) }
    requires possible { CanCopy store.old (frozen_view frozen.now) }
    ensures made { IfOk result (λ v. Instantiates depth store.old (frozen_view frozen.now) v store.new) }
    ensures whole { IsStore store.new }
{
    solution_law();
    let mut copies = Vec::with_capacity(alloc, frozen.cells.len())?;
    for cell in &frozen.cells {
        let variable = copy_cell(alloc, store, &copies, cell, depth)?;
        copies.push(variable)?;
    }
    Ok(part(&copies, frozen.root))
}
