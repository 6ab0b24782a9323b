//! The variables of annotations, as they are written. The calls that go down a type are as deep as the type nests in its
//! tree.

ghost use Rattle.std.specs.Prelude.{◌≡◌, ◌++◌, map, OnOk};
ghost use Rattle.std.specs.List.{flat_map};
ghost use Rattle.elm_canon.specs.View.{annotation_view, field_type_view};
ghost use Rattle.type_schemes.specs.Names.{base_names, field_names};
ghost use Rattle.type_items.specs.Annotations.{written};

use elm_base::names::Name;
use elm_canon::tree::{Annotation, FieldType};
use std::alloc::AllocError;

/// Adds the variable that a record extends, if there is one.
fn push_base(names: &mut Vec<Name>, base: &Option<Name>) -> Result<(), AllocError>
    ensures { OnOk result (names.new.items ≡ names.old.items ++ base_names base.now) }
{
    if let Some(name) = base {
        names.push(name.clone()?)?;
    }
    Ok(())
}

/// Adds the variables of a type, in order.
#[cycle(names)]
pub fn push_names(names: &mut Vec<Name>, t: &Annotation) -> Result<(), AllocError>
    ensures { OnOk result (names.new.items ≡ names.old.items ++ written (annotation_view t.now)) }
{
    match t {
        Annotation::Variable(name) => {
            names.push(name.clone()?)?;
            Ok(())
        }
        Annotation::Named(_, _, types) => push_all(names, types),
        Annotation::Function(types) => push_all(names, types),
        Annotation::Tuple(types) => push_all(names, types),
        Annotation::Record(base, fields) => {
            push_base(names, base)?;
            push_fields(names, fields)
        }
        Annotation::Shared(shared) => push_names(names, shared),
    }
}

/// Adds the variables of types.
#[cycle(names)]
fn push_all(names: &mut Vec<Name>, types: &[Annotation]) -> Result<(), AllocError>
    ensures { OnOk result (names.new.items ≡ names.old.items ++ flat_map written (map annotation_view types.now)) }
{
    for t in types {
        push_names(names, t)?;
    }
    Ok(())
}

/// Adds the variables of the types of fields.
#[cycle(names)]
fn push_fields(names: &mut Vec<Name>, fields: &[FieldType]) -> Result<(), AllocError>
    ensures { OnOk result (names.new.items ≡ names.old.items ++ flat_map field_names (map field_type_view fields.now)) }
{
    for field in fields {
        push_names(names, &field.field_type)?;
    }
    Ok(())
}
