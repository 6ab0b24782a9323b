//! The fields that annotations write beside variables. The calls that go down a type are as deep as the type nests in
//! its tree.

ghost use Rattle.std.specs.Prelude.{◌≡◌, ◌++◌, map, OnOk, Some};
ghost use Rattle.std.specs.List.{flat_map};
ghost use Rattle.type_schemes.specs.Kinds.{base_pairs, besides, field_pairs, pair_view};
ghost use Rattle.elm_canon.specs.View.{annotation_view, field_type_view};

use elm_base::names::Name;
use elm_canon::tree::{Annotation, FieldType};
use std::alloc::AllocError;

/// A variable, and a field that is written beside it.
#[derive(Drop)]
pub struct Beside {
    pub variable: Name,
    pub field: Name,
}

/// Adds the fields of a record over a variable.
fn push_each(
    pairs: &mut Vec<Beside>,
    variable: &Name,
    fields: &[FieldType],
) -> Result<(), AllocError>
    ensures { OnOk result (map pair_view pairs.new.items ≡ map pair_view pairs.old.items
        ++ base_pairs (Some variable.now) (map field_type_view fields.now)) }
{
    for field in fields {
        pairs.push(Beside {
            variable: variable.clone()?,
            field: field.name.clone()?,
        })?;
    }
    Ok(())
}

/// Adds the fields of a record, if it is over a variable.
fn push_base(
    pairs: &mut Vec<Beside>,
    base: &Option<Name>,
    fields: &[FieldType],
) -> Result<(), AllocError>
    ensures { OnOk result (map pair_view pairs.new.items ≡ map pair_view pairs.old.items
        ++ base_pairs base.now (map field_type_view fields.now)) }
{
    match base {
        None => Ok(()),
        Some(variable) => push_each(pairs, variable, fields),
    }
}

/// Adds the fields beside the variables of a type, in order.
#[cycle(beside)]
pub fn push_beside(pairs: &mut Vec<Beside>, t: &Annotation) -> Result<(), AllocError>
    ensures { OnOk result (map pair_view pairs.new.items ≡ map pair_view pairs.old.items
        ++ besides (annotation_view t.now)) }
{
    match t {
        Annotation::Variable(_) => Ok(()),
        Annotation::Named(_, _, types) => push_all(pairs, types),
        Annotation::Function(types) => push_all(pairs, types),
        Annotation::Tuple(types) => push_all(pairs, types),
        Annotation::Record(base, fields) => {
            push_base(pairs, base, fields)?;
            push_fields(pairs, fields)
        }
        Annotation::Shared(shared) => push_beside(pairs, shared),
    }
}

/// Adds those of types.
#[cycle(beside)]
fn push_all(pairs: &mut Vec<Beside>, types: &[Annotation]) -> Result<(), AllocError>
    ensures { OnOk result (map pair_view pairs.new.items ≡ map pair_view pairs.old.items
        ++ flat_map besides (map annotation_view types.now)) }
{
    for t in types {
        push_beside(pairs, t)?;
    }
    Ok(())
}

/// Adds those of the types of fields.
#[cycle(beside)]
fn push_fields(pairs: &mut Vec<Beside>, fields: &[FieldType]) -> Result<(), AllocError>
    ensures { OnOk result (map pair_view pairs.new.items ≡ map pair_view pairs.old.items
        ++ flat_map field_pairs (map field_type_view fields.now)) }
{
    for field in fields {
        push_beside(pairs, &field.field_type)?;
    }
    Ok(())
}
