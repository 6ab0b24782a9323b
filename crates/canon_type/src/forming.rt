//! Types that are made of parts, if the parts are made.

ghost use Rattle.std.specs.Prelude.{◌≡◌, ◌++◌, ◌∷◌, [], Some, map, IfOk, OnOk, IsOkAnd};
ghost use Rattle.elm_canon.specs.declared.tree.Annotation.TheVariants as form;
ghost use Rattle.elm_canon.specs.View.{annotation_view, field_type_view};

use crate::outcomes::add;
use elm_base::names::Name;
use elm_canon::tree::{Annotation, FieldType};
use std::alloc::AllocError;

/// A function of these types.
pub(crate) fn function_type(
    types: Result<Vec<Annotation>, AllocError>,
) -> Result<Annotation, AllocError>
    ensures { IfOk result (λ t. IsOkAnd types (λ v. t ≡ form.Function v)) }
{
    match types {
        Ok(types) => Ok(Annotation::Function(types)),
        Err(e) => Err(e),
    }
}

/// A tuple of these types.
pub(crate) fn tuple_type(
    types: Result<Vec<Annotation>, AllocError>,
) -> Result<Annotation, AllocError>
    ensures { IfOk result (λ t. IsOkAnd types (λ v. t ≡ form.Tuple v)) }
{
    match types {
        Ok(types) => Ok(Annotation::Tuple(types)),
        Err(e) => Err(e),
    }
}

/// A type of a module with these arguments.
fn type_with(home: &Name, name: &Name, types: Vec<Annotation>) -> Result<Annotation, AllocError>
    ensures { IfOk result (λ t. t ≡ form.Named home.now name.now types) }
{
    let home = home.clone()?;
    let name = name.clone()?;
    Ok(Annotation::Named(home, name, types))
}

/// A type of a module with these arguments, if they are made.
pub(crate) fn named_type(
    home: &Name,
    name: &Name,
    types: Result<Vec<Annotation>, AllocError>,
) -> Result<Annotation, AllocError>
    ensures { IfOk result (λ t. IsOkAnd types (λ v. t ≡ form.Named home.now name.now v)) }
{
    match types {
        Ok(types) => type_with(home, name, types),
        Err(e) => Err(e),
    }
}

/// The variable that a record extends, once more.
fn copy_base(base: &Option<Name>) -> Result<Option<Name>, AllocError>
    ensures { IfOk result (λ r. r ≡ base.now) }
{
    match base {
        Some(a) => Ok(Some(a.clone()?)),
        None => Ok(None),
    }
}

/// A record over this base with these fields.
fn record_with(base: &Option<Name>, fields: Vec<FieldType>) -> Result<Annotation, AllocError>
    ensures { IfOk result (λ t. t ≡ form.Record base.now fields) }
{
    let base = copy_base(base)?;
    Ok(Annotation::Record(base, fields))
}

/// A record over this base with these fields, if they are made.
pub(crate) fn record_type(
    base: &Option<Name>,
    fields: Result<Vec<FieldType>, AllocError>,
) -> Result<Annotation, AllocError>
    ensures { IfOk result (λ t. IsOkAnd fields (λ v. t ≡ form.Record base.now v)) }
{
    match fields {
        Ok(fields) => record_with(base, fields),
        Err(e) => Err(e),
    }
}

/// A record over this variable with these fields.
pub(crate) fn extended_type(name: &Name, fields: Vec<FieldType>) -> Result<Annotation, AllocError>
    ensures { IfOk result (λ t. t ≡ form.Record (Some name.now) fields) }
{
    let name = name.clone()?;
    Ok(Annotation::Record(Some(name), fields))
}

/// Adds a field of this name, if its type is made.
pub(crate) fn add_field(
    fields: &mut Vec<FieldType>,
    name: Name,
    made: Result<Annotation, AllocError>,
) -> Result<(), AllocError>
    ensures { OnOk result (IsOkAnd made (λ t. map field_type_view fields.new.items
        ≡ map field_type_view fields.old.items ++ (name, annotation_view t) ∷ [])) }
{
    match made {
        Ok(field_type) => add(fields, FieldType { name, field_type }),
        Err(e) => Err(e),
    }
}
