//! The types of the names of a type group.

ghost use Rattle.std.specs.Prelude.{◌≡◌, ◌<◌, ◌++◌, ◌∷◌, [], List, Some, length, map, slice_get};
ghost use Rattle.std.specs.Prelude.{IfOk, OnOk};
ghost use Rattle.std.specs.List.{All, filter_map};
ghost use Rattle.elm_canon.specs.Tree.{Annotation as PlainAnnotation, Group as PlainGroup};
ghost use Rattle.elm_canon.specs.View.{annotation_view};
ghost use Rattle.elm_type.specs.Schemes.{rename};
ghost use Rattle.elm_type.specs.View.{scheme_view};
ghost use Rattle.type_items.specs.Annotations.{annotation_scheme};
ghost use Rattle.type_items.specs.Definitions as plain;
ghost use Rattle.type_items.specs.Inferred.{first_annotation};
ghost use Rattle.type_store.specs.Shape.{IsStore};
ghost use Rattle.infer_groups.specs.Names.{named_view, named_views};
ghost use Rattle.infer_order.specs.Order.{AreDefinitions, IsDefinition, TitleIs};
ghost use Rattle.infer.specs.Names.{AllTitled, names_of};
ghost use Rattle.infer.specs.Told.{AddsSchemes, told_views, written_types};

use crate::infer_known_types::copy_scheme;
use elm_canon::reference::Ref;
use elm_canon::tree::{Annotation, Title};
use elm_type::rename;
use elm_type::scheme::Scheme;
use infer_groups::names::Named;
use infer_order::order::Definition;
use std::alloc::{AllocError, Global};
use type_schemes::schemes::scheme;
use type_schemes::written::{Written, written_scheme};
use type_store::store::Store;

/// A name with its type.
#[derive(Drop)]
pub(crate) struct Told {
    pub name: Ref,
    pub scheme: Scheme,
}

/// The same name once more.
fn copy_name(name: &Ref) -> Result<Ref, AllocError>
    ensures { IfOk result (λ copy. copy ≡ name.now) }
{
    match name {
        Ref::Local(local) => Ok(Ref::Local(local.clone()?)),
        Ref::Top(home, top) => Ok(Ref::Top(home.clone()?, top.clone()?)),
    }
}

/// Adds a name with the type that the store says of its variable.
fn tell_one(
    alloc: Global,
    store: &Store,
    name: &Named,
    told: &mut Vec<Told>,
) -> Result<(), AllocError>
    requires whole { IsStore store.now }
    requires inside { name.now.variable < length store.now }
    ensures { OnOk result (AddsSchemes store.now (named_view name.now ∷ []) (told_views told.old.items)
        (told_views told.new.items)) }
{
    let scheme = scheme(alloc, store, name.variable)?;
    let name = copy_name(&name.name)?;
    told.push(Told { name, scheme })?;
    Ok(())
}

/// Adds names with the types that the store says of their variables. The error means that memory or numbers ran out.
pub(crate) fn tell_each(
    alloc: Global,
    store: &Store,
    names: &[Named],
    told: &mut Vec<Told>,
) -> Result<(), AllocError>
    requires whole { IsStore store.now }
    requires inside { All (λ n. n.variable < length store.now) names.now }
    ensures { OnOk result (AddsSchemes store.now (named_views names.now) (told_views told.old.items)
        (told_views told.new.items)) }
{
    for name in names {
        tell_one(alloc, store, name, told)?;
    }
    Ok(())
}

/// The type that an annotation says, with its variables in order of appearance.
fn annotated(alloc: Global, annotation: &Annotation) -> Result<Scheme, AllocError>
    ensures { IfOk result (λ s. scheme_view s ≡ rename (annotation_scheme (annotation_view annotation.now))) }
{
    let Written { scheme, .. } = written_scheme(alloc, annotation)?;
    rename(alloc, &scheme)
}

/// Adds the name of a definition with a type.
fn tell_as(
    alloc: Global,
    definition: &Definition<'_>,
    scheme: &Scheme,
    told: &mut Vec<Told>,
) -> Result<(), AllocError>
    ensures { OnOk result ((gs : List PlainGroup) (d : plain.Definition) → AllTitled gs → IsDefinition gs definition.now d
        → told_views told.new.items ≡ told_views told.old.items
        ++ map (λ x. (x, scheme_view scheme.now)) d.names) }
{
    match definition.title {
        Some(title) => {
            let name = copy_name(&title.name)?;
            let scheme = copy_scheme(alloc, scheme)?;
            told.push(Told { name, scheme })?;
            Ok(())
        }
        None => Ok(()),
    }
}

/// The title of the first definition of a type group. None: it is a pattern with its value, or there is none.
fn first_title<'a>(definitions: &[Definition<'a>], group: &[u32]) -> Option<&'a Title>
    requires { All (λ i. i < length definitions.now) group.now }
    ensures { (gs : List PlainGroup) (ds rest : List plain.Definition) (d : plain.Definition)
        → AreDefinitions gs definitions.now ds → filter_map (slice_get ds) group.now ≡ d ∷ rest → TitleIs result d }
{
    match group {
        [] => None,
        [first, ..] => definitions[*first as usize].title,
    }
}

/// Adds the names of definitions with a type.
fn tell_all(
    alloc: Global,
    definitions: &[Definition<'_>],
    group: &[u32],
    scheme: &Scheme,
    told: &mut Vec<Told>,
) -> Result<(), AllocError>
    requires { All (λ i. i < length definitions.now) group.now }
    ensures { OnOk result ((gs : List PlainGroup) (ds : List plain.Definition) → AllTitled gs
        → AreDefinitions gs definitions.now ds → told_views told.new.items ≡ told_views told.old.items
        ++ map (λ x. (x, scheme_view scheme.now)) (names_of (filter_map (slice_get ds) group.now))) }
{
    for number in group {
        tell_as(alloc, &definitions[*number as usize], scheme, told)?;
    }
    Ok(())
}

/// Adds the names of a type group with the type that its annotation says. The error means that memory or numbers ran
/// out.
pub(crate) fn tell_annotated(
    alloc: Global,
    definitions: &[Definition<'_>],
    group: &[u32],
    told: &mut Vec<Told>,
) -> Result<(), AllocError>
    requires { All (λ i. i < length definitions.now) group.now }
    ensures { OnOk result ((gs : List PlainGroup) (ds : List plain.Definition) (a : PlainAnnotation) → AllTitled gs
        → AreDefinitions gs definitions.now ds → first_annotation (filter_map (slice_get ds) group.now) ≡ Some a
        → told_views told.new.items ≡ told_views told.old.items
        ++ written_types a (filter_map (slice_get ds) group.now)) }
{
    match first_title(definitions, group) {
        Some(title) => match &title.annotation {
            Some(annotation) => {
                let scheme = annotated(alloc, annotation)?;
                tell_all(alloc, definitions, group, &scheme, told)
            }
            None => Ok(()),
        },
        None => Ok(()),
    }
}
