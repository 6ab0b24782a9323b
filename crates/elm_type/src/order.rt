//! The fields that variables lack, in order.

ghost use Rattle.std.specs.Prelude.{◌≡◌, map, IfOk};
ghost use Rattle.elm_type.specs.View.{kind_view, scheme_view};
ghost use Rattle.elm_type.specs.Order as spec;

use crate::copy;
use crate::scheme::{Kind, Scheme};
use elm_base::names::Name;
use std::alloc::{AllocError, Global};

/// The same names once more.
fn copy_names(alloc: Global, names: &[Name]) -> Result<Vec<Name>, AllocError>
    ensures { IfOk result (λ copies. copies.items ≡ names.now) }
{
    let mut copies = Vec::with_capacity(alloc, names.len())?;
    for name in names {
        copies.push(name.clone()?)?;
    }
    Ok(copies)
}

/// The names `names` in ascending order of their units, each once. The error means that memory ran out.
pub fn in_order(alloc: Global, names: &[Name]) -> Result<Vec<Name>, AllocError>
    ensures { IfOk result (λ ordered. ordered.items ≡ spec.in_order names.now) }
{
    let mut ordered = copy_names(alloc, names)?;
    ordered.sort_unstable();
    ordered.dedup();
    Ok(ordered)
}

/// The kinds with the fields that each lacks in order.
fn kinds_in_order(alloc: Global, kinds: &[Kind]) -> Result<Vec<Kind>, AllocError>
    ensures { IfOk result (λ ordered. map kind_view ordered.items
        ≡ map spec.kind_in_order (map kind_view kinds.now)) }
{
    let mut ordered = Vec::with_capacity(alloc, kinds.len())?;
    for kind in kinds {
        ordered.push(Kind {
            class: kind.class,
            lacks: in_order(alloc, &kind.lacks)?,
        })?;
    }
    Ok(ordered)
}

/// The scheme `scheme` once more, where the fields that each of its variables lacks stand in ascending order, each once.
/// The error means that memory ran out.
pub fn scheme_in_order(alloc: Global, scheme: &Scheme) -> Result<Scheme, AllocError>
    ensures { IfOk result (λ ordered. scheme_view ordered ≡ spec.scheme_in_order (scheme_view scheme.now)) }
{
    Ok(Scheme {
        ty: copy(alloc, &scheme.ty)?,
        kinds: kinds_in_order(alloc, &scheme.kinds)?,
    })
}
