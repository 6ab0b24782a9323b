//! The fields of two rows, by their names.

ghost use Rattle.std.specs.Prelude.{◌≡◌, ◌<◌, ◌≤◌, ◌+◌, IfOk, drop, length, map};
ghost use Rattle.std.specs.Ordering.{nat_cmp};
ghost use Rattle.std.specs.Cmp.Lexicographic.{slice_cmp};
ghost use Rattle.type_store.specs.Shape.{Ascending};
ghost use Rattle.type_store.specs.Store.{field_names};
ghost use Rattle.type_store.specs.Steps.{Merges, Split, Turned};
ghost use Rattle.type_store.specs.View.{field_view, fields_in};

use crate::slot::FieldSlot;
use elm_base::names::Name;
use std::alloc::{AllocError, Global};
use std::cmp::Ordering;

/// Which of two rows has the next name.
pub enum Turn {
    /// The first alone.
    InFirst,
    /// The second alone.
    InSecond,
    /// Both.
    InBoth,
}

/// The fields of two rows: those of common names, of the first and of the second, and the others of each.
#[derive(Drop)]
pub struct Parted {
    pub first: Vec<FieldSlot>,
    pub second: Vec<FieldSlot>,
    pub left: Vec<FieldSlot>,
    pub right: Vec<FieldSlot>,
}

/// The order of two names.
fn compare(first: &Name, second: &Name) -> Ordering
    ensures { result ≡ slice_cmp nat_cmp first.now second.now }
{
    first.cmp(second)
}

/// Which of two rows has the next name, from these places on.
fn turn_at(first: &[FieldSlot], at: usize, second: &[FieldSlot], other: usize) -> Turn
    requires first { at ≤ length first.now }
    requires second { other ≤ length second.now }
    requires some { at + other < length first.now + length second.now }
    requires first_rises { Ascending (field_names (map field_view first.now)) }
    requires second_rises { Ascending (field_names (map field_view second.now)) }
    ensures { Turned result (drop at (map field_view first.now)) (drop other (map field_view second.now)) }
{
    if at == first.len() {
        return Turn::InSecond;
    }
    if other == second.len() {
        return Turn::InFirst;
    }
    match compare(&first[at].name, &second[other].name) {
        Ordering::Less => Turn::InFirst,
        Ordering::Equal => Turn::InBoth,
        Ordering::Greater => Turn::InSecond,
    }
}

/// The same field once more.
fn copy_field(field: &FieldSlot) -> Result<FieldSlot, AllocError>
    ensures { IfOk result (λ copy. field_view copy ≡ field_view field.now) }
{
    Ok(FieldSlot {
        name: field.name.clone()?,
        slot: field.slot,
    })
}

/// The fields of two rows, by their names. The error means that memory ran out.
pub(crate) fn split(
    alloc: Global,
    first: &[FieldSlot],
    second: &[FieldSlot],
) -> Result<Parted, AllocError>
    requires first_rises { Ascending (field_names (map field_view first.now)) }
    requires second_rises { Ascending (field_names (map field_view second.now)) }
    ensures { IfOk result (λ parted. Split (map field_view first.now) (map field_view second.now)
        (map field_view parted.first.items) (map field_view parted.second.items)
        (map field_view parted.left.items) (map field_view parted.right.items)) }
{
    let mut parted = Parted {
        first: Vec::new(alloc),
        second: Vec::new(alloc),
        left: Vec::new(alloc),
        right: Vec::new(alloc),
    };
    let mut at = 0;
    let mut other = 0;
    while at < first.len() || other < second.len() {
        match turn_at(first, at, second, other) {
            Turn::InFirst => {
                parted.left.push(copy_field(&first[at])?)?;
                at += 1;
            }
            Turn::InSecond => {
                parted.right.push(copy_field(&second[other])?)?;
                other += 1;
            }
            Turn::InBoth => {
                parted.first.push(copy_field(&first[at])?)?;
                parted.second.push(copy_field(&second[other])?)?;
                at += 1;
                other += 1;
            }
        }
    }
    Ok(parted)
}

/// The fields of two rows in one, by their names; None where a name is in both. The error means that memory ran out.
pub(crate) fn merge(
    alloc: Global,
    first: &[FieldSlot],
    second: &[FieldSlot],
) -> Result<Option<Vec<FieldSlot>>, AllocError>
    requires first_rises { Ascending (field_names (map field_view first.now)) }
    requires second_rises { Ascending (field_names (map field_view second.now)) }
    ensures { IfOk result (λ merged. Merges (map field_view first.now) (map field_view second.now) (fields_in merged)) }
{
    let mut merged = Vec::new(alloc);
    let mut at = 0;
    let mut other = 0;
    while at < first.len() || other < second.len() {
        match turn_at(first, at, second, other) {
            Turn::InFirst => {
                merged.push(copy_field(&first[at])?)?;
                at += 1;
            }
            Turn::InSecond => {
                merged.push(copy_field(&second[other])?)?;
                other += 1;
            }
            Turn::InBoth => return Ok(None),
        }
    }
    Ok(Some(merged))
}
