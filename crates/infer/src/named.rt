//! Names with their types.

ghost use Rattle.std.specs.Prelude.{◌≡◌, ◌++◌, ◌∷◌, [], map, IfOk, OnOk};
ghost use Rattle.std.specs.Map.{lookup};
ghost use Rattle.std.specs.Str.{bytes_eq};
ghost use Rattle.elm_canon.specs.View.{annotation_view};
ghost use Rattle.elm_type.specs.Types.{Name as PlainName};
ghost use Rattle.infer_steps.specs.View.{schemes_view};
ghost use Rattle.infer.specs.Known.{as_scheme};
ghost use Rattle.infer.specs.Named.{named_view, named_views};

use elm_base::names::Name;
use elm_canon::tree::Annotation;
use elm_type::scheme::Scheme;
use infer_steps::known::ModuleTypes;
use std::alloc::{AllocError, Global};
use type_schemes::written::{Written, written_scheme};

/// A name with its type.
#[derive(Drop)]
pub(crate) struct Named {
    pub name: Name,
    pub scheme: Scheme,
}

/// Adds a name with the type that an annotation says.
pub(crate) fn push_annotated(
    alloc: Global,
    name: &Name,
    annotation: &Annotation,
    found: &mut Vec<Named>,
) -> Result<(), AllocError>
    ensures { OnOk result (named_views found.new.items
        ≡ named_views found.old.items ++ as_scheme (name.now, annotation_view annotation.now) ∷ []) }
{
    let Written { scheme, .. } = written_scheme(alloc, annotation)?;
    let name = name.clone()?;
    found.push(Named { name, scheme })?;
    Ok(())
}

/// The types by their names. Of several types of one name the first is the one that is found.
pub(crate) fn table(alloc: Global, found: Vec<Named>) -> Result<ModuleTypes, AllocError>
    ensures { IfOk result (λ types. (x : PlainName)
        → schemes_view types x ≡ lookup (bytes_eq x) (named_views found.items)) }
{
    let mut rest = found;
    let mut types = ModuleTypes::new(alloc);
    while let Some(last) = rest.pop() {
        let Named { name, scheme } = last;
        types.insert(name, scheme)?;
    }
    Ok(types)
}
