//! Records that extend what stands for a parameter.

ghost use Rattle.std.specs.Prelude.{◌≡◌, ◌++◌, ◌||◌, false, map, filter, IfOk, OnOk};
ghost use Rattle.indexmap.specs.IndexSet.{contains};
ghost use Rattle.elm_canon.specs.Names.{Name, same_name};
ghost use Rattle.elm_canon.specs.Tree.{field_types_of};
ghost use Rattle.elm_canon.specs.View.{annotation_view, field_type_view};
ghost use Rattle.canon_env.specs.Exposing.{is_among};
ghost use Rattle.canon_env.specs.Expanding.{extended, bad_on};
ghost use Rattle.canon_type.specs.Extending.{names_of, repeated};

use crate::copying::{copy, copy_fields};
use crate::outcomes::when_done;
use crate::shape::{Shape, shape_of};
use elm_base::names::Name;
use elm_canon::tree::{Annotation, FieldType};
use indexmap::IndexSet;
use std::alloc::{AllocError, Global};

/// The type `base` with the fields `fields` as well, as `{ base | fields }` has them. A type that is neither a record
/// nor a variable stays as it is. The error means that memory ran out.
pub fn extended(
    alloc: Global,
    base: &Annotation,
    mut fields: Vec<FieldType>,
) -> Result<Annotation, AllocError>
    ensures { IfOk result (λ r. annotation_view r
        ≡ extended (annotation_view base.now) (field_types_of (map field_type_view fields.items))) }
{
    match shape_of(base) {
        Shape::Variable(a) => Ok(Annotation::Record(Some(a.clone()?), fields)),
        Shape::Record(before) => {
            let mut all = copy_fields(alloc, before)?;
            all.append(&mut fields)?;
            Ok(Annotation::Record(None, all))
        }
        Shape::Extended(a, before) => {
            let mut all = copy_fields(alloc, before)?;
            all.append(&mut fields)?;
            Ok(Annotation::Record(Some(a.clone()?), all))
        }
        Shape::Named(_, _, _) => copy(alloc, base),
        Shape::Function(_, _) => copy(alloc, base),
        Shape::Tuple(_) => copy(alloc, base),
    }
}

/// Adds a name to a set.
fn insert(names: &mut IndexSet<Name>, name: &Name) -> Result<(), AllocError>
    ensures { OnOk result ((x : Name) → contains same_name names.new x
        ≡ (contains same_name names.old x || same_name x name.now)) }
{
    names.insert(name.clone()?)?;
    Ok(())
}

/// Adds the names of fields.
fn insert_all(names: &mut IndexSet<Name>, fields: &[FieldType]) -> Result<(), AllocError>
    ensures { OnOk result (((x : Name) → contains same_name names.old x ≡ false)
        → (x : Name) → contains same_name names.new x ≡ is_among x (names_of fields.now)) }
{
    for field in fields {
        insert(names, &field.name)?;
    }
    Ok(())
}

/// The names of fields.
fn names_in(alloc: Global, fields: &[FieldType]) -> Result<IndexSet<Name>, AllocError>
    ensures { IfOk result (λ s. (x : Name) → contains same_name s x
        ≡ is_among x (names_of fields.now)) }
{
    let mut names = IndexSet::new(alloc);
    let done = insert_all(&mut names, fields);
    when_done(done, names)
}

/// Adds the names of the fields `fields`.
fn push_all(fields: &[FieldType], bad: &mut Vec<Name>) -> Result<(), AllocError>
    ensures { OnOk result (bad.new.items ≡ bad.old.items ++ names_of fields.now) }
{
    for field in fields {
        bad.push(field.name.clone()?)?;
    }
    Ok(())
}

/// Adds the name of a field, if it is among these names.
fn push_if_among(names: &IndexSet<Name>, name: &Name, bad: &mut Vec<Name>) -> Result<(), AllocError>
    ensures { OnOk result (bad.new.items ≡ bad.old.items ++ repeated (contains same_name names.now) name.now) }
{
    if names.contains(name) {
        bad.push(name.clone()?)?;
    }
    Ok(())
}

/// Adds the names of the fields `fields` that are among these names.
fn push_among(
    names: &IndexSet<Name>,
    fields: &[FieldType],
    bad: &mut Vec<Name>,
) -> Result<(), AllocError>
    ensures { OnOk result (bad.new.items ≡ bad.old.items
        ++ filter (contains same_name names.now) (names_of fields.now)) }
{
    for field in fields {
        push_if_among(names, &field.name, bad)?;
    }
    Ok(())
}

/// Adds the names of the fields `fields` that are among the fields `before`.
fn push_repeated(
    alloc: Global,
    before: &[FieldType],
    fields: &[FieldType],
    bad: &mut Vec<Name>,
) -> Result<(), AllocError>
    ensures { OnOk result (bad.new.items ≡ bad.old.items
        ++ filter (λ x. is_among x (names_of before.now)) (names_of fields.now)) }
{
    let names = names_in(alloc, before)?;
    push_among(&names, fields, bad)?;
    Ok(())
}

/// Adds to `bad` the names of the fields `fields` that may not extend the type `base`. The error means that memory ran
/// out.
pub fn push_bad(
    alloc: Global,
    base: &Annotation,
    fields: &[FieldType],
    bad: &mut Vec<Name>,
) -> Result<(), AllocError>
    ensures { OnOk result (bad.new.items ≡ bad.old.items
        ++ bad_on (annotation_view base.now) (field_types_of (map field_type_view fields.now))) }
{
    match shape_of(base) {
        Shape::Variable(_) => Ok(()),
        Shape::Record(before) => push_repeated(alloc, before, fields, bad),
        Shape::Extended(_, before) => push_repeated(alloc, before, fields, bad),
        Shape::Named(_, _, _) => push_all(fields, bad),
        Shape::Function(_, _) => push_all(fields, bad),
        Shape::Tuple(_) => push_all(fields, bad),
    }
}
