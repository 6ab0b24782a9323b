//! The types of a store's variables as values.

ghost use Rattle.std.specs.Prelude.{◌≡◌, ◌<◌, length, IfOk};
ghost use Rattle.elm_type.specs.View.{scheme_view, type_view};
ghost use Rattle.type_schemes.specs.Schemes.{HasScheme};
ghost use Rattle.type_schemes.specs.Reading.{Reads};
ghost use Rattle.type_store.specs.Shape.{IsStore};

use crate::kinds::kinds;
use crate::order::parts_first;
use crate::writing::nodes;
use elm_type::rename;
use elm_type::scheme::Scheme;
use elm_type::ty::Ty;
use std::alloc::{AllocError, Global};
use type_store::store::Store;

/// The type of the variable `variable`, whose variables are those of the store. It is written out, so the time and the
/// memory grow with its size, as `size` of `type_reading` counts it. The error means that memory or numbers ran out.
pub fn type_of(alloc: Global, store: &Store, variable: u32) -> Result<Ty, AllocError>
    requires whole { IsStore store.now }
    requires inside { variable < length store.now }
    ensures { IfOk result (λ ty. Reads store.now variable (type_view ty)) }
{
    let order = parts_first(alloc, store, variable, 0)?;
    let nodes = nodes(alloc, store, &order, variable)?;
    Ok(Ty { nodes })
}

/// The scheme of the variable `variable`: its type, with its variables numbered from 0 on in order of appearance, and
/// their kinds. It is written out, so the time and the memory grow with its size, as `size` of `type_reading` counts
/// it. The error means that memory or numbers ran out.
pub fn scheme(alloc: Global, store: &Store, variable: u32) -> Result<Scheme, AllocError>
    requires whole { IsStore store.now }
    requires inside { variable < length store.now }
    ensures { IfOk result (λ scheme. HasScheme store.now variable (scheme_view scheme)) }
{
    let ty = type_of(alloc, store, variable)?;
    let kinds = kinds(alloc, store, &ty.nodes)?;
    let unnamed = Scheme {
        ty,
        kinds: Vec::new(alloc),
    };
    let Scheme { ty, .. } = rename(alloc, &unnamed)?;
    Ok(Scheme { ty, kinds })
}
