//! Annotations as schemes.

ghost use Rattle.std.specs.Prelude.{◌≡◌, map, IfOk};
ghost use Rattle.type_schemes.specs.Names.{numbered};
ghost use Rattle.elm_canon.specs.View.{annotation_view};
ghost use Rattle.elm_type.specs.View.{kind_view, scheme_view, type_view};
ghost use Rattle.type_items.specs.Annotations.{annotation_scheme, annotation_type, kind_of, variables_of};

use crate::annotation_schemes_order::order_of;
use crate::beside::push_beside;
use crate::classes::kinds;
use crate::nodes::push_nodes;
use elm_base::names::Name;
use elm_canon::tree::Annotation;
use elm_type::scheme::Scheme;
use elm_type::ty::Ty;
use std::alloc::{AllocError, Global};

/// The variables of an annotation in order of appearance, each once, and its type, with each variable by its number.
#[derive(Drop)]
struct Typed {
    names: Vec<Name>,
    ty: Ty,
}

/// The variables of an annotation in order of appearance, each once, and its scheme, with each variable by its number.
#[derive(Drop)]
pub struct Written {
    pub names: Vec<Name>,
    pub scheme: Scheme,
}

/// The annotation as a type.
fn written_type(alloc: Global, annotation: &Annotation) -> Result<Typed, AllocError>
    ensures names { IfOk result (λ w. w.names.items ≡ variables_of (annotation_view annotation.now)) }
    ensures ty { IfOk result (λ w. type_view w.ty ≡ annotation_type (numbered (variables_of
        (annotation_view annotation.now))) (annotation_view annotation.now)) }
{
    let order = order_of(alloc, annotation)?;
    let mut nodes = Vec::new(alloc);
    push_nodes(alloc, &mut nodes, &order, annotation)?;
    Ok(Typed {
        names: order.names,
        ty: Ty { nodes },
    })
}

/// The annotation `annotation`, which stands inside no others, as a scheme: its variables by their numbers in order of
/// appearance, and their kinds. The calls that go down it are as deep as it nests in its tree. The error means that
/// memory or numbers ran out.
pub fn written_scheme(alloc: Global, annotation: &Annotation) -> Result<Written, AllocError>
    ensures names { IfOk result (λ w. w.names.items ≡ variables_of (annotation_view annotation.now)) }
    ensures scheme { IfOk result (λ w. scheme_view w.scheme ≡ annotation_scheme (annotation_view annotation.now)) }
    ensures ty { IfOk result (λ w. type_view w.scheme.ty ≡ annotation_type (numbered (variables_of
        (annotation_view annotation.now))) (annotation_view annotation.now)) }
    ensures kinds { IfOk result (λ w. map kind_view w.scheme.kinds.items
        ≡ map (kind_of (annotation_view annotation.now)) (variables_of (annotation_view annotation.now))) }
{
    let mut pairs = Vec::new(alloc);
    push_beside(&mut pairs, annotation)?;
    let Typed { names, ty } = written_type(alloc, annotation)?;
    let kinds = kinds(alloc, &pairs, &names)?;
    Ok(Written {
        names,
        scheme: Scheme { ty, kinds },
    })
}
