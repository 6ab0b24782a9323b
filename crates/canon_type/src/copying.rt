//! Types copied. What is shared stays shared.

ghost use Rattle.std.specs.Prelude.{◌≡◌, map, IfOk};
ghost use Rattle.elm_canon.specs.View.{annotation_view, field_type_view};

use crate::forming::{add_field, function_type, named_type, record_type, tuple_type};
use crate::outcomes::add_made;
use elm_canon::tree::{Annotation, FieldType};
use std::alloc::{AllocError, Global};
use std::sync::Arc;

/// The type `t` once more. What it shares stays shared. The error means that memory ran out.
#[cycle(copying)]
pub fn copy(alloc: Global, t: &Annotation) -> Result<Annotation, AllocError>
    ensures { IfOk result (λ r. annotation_view r ≡ annotation_view t.now) }
{
    match t {
        Annotation::Variable(a) => Ok(Annotation::Variable(a.clone()?)),
        Annotation::Named(home, name, types) => named_type(home, name, copy_all(alloc, types)),
        Annotation::Function(types) => function_type(copy_all(alloc, types)),
        Annotation::Tuple(types) => tuple_type(copy_all(alloc, types)),
        Annotation::Record(base, fields) => record_type(base, copy_fields(alloc, fields)),
        Annotation::Shared(t) => Ok(Annotation::Shared(Arc::try_clone(t)?)),
    }
}

/// The types once more.
#[cycle(copying)]
fn copy_all(alloc: Global, types: &[Annotation]) -> Result<Vec<Annotation>, AllocError>
    ensures { IfOk result (λ v. map annotation_view v.items ≡ map annotation_view types.now) }
{
    let mut copies = Vec::with_capacity(alloc, types.len())?;
    for t in types {
        add_made(&mut copies, copy(alloc, t))?;
    }
    Ok(copies)
}

/// The fields once more.
#[cycle(copying)]
pub(crate) fn copy_fields(alloc: Global, fields: &[FieldType]) -> Result<Vec<FieldType>, AllocError>
    ensures { IfOk result (λ v. map field_type_view v.items ≡ map field_type_view fields.now) }
{
    let mut copies = Vec::with_capacity(alloc, fields.len())?;
    for field in fields {
        let name = field.name.clone()?;
        add_field(&mut copies, name, copy(alloc, &field.field_type))?;
    }
    Ok(copies)
}
