//! Types with what stands for the parameters of an alias.

ghost use Rattle.std.specs.Prelude.{◌≡◌, ◌++◌, [], ◌∷◌, drop, map, flat_map, IfOk, OnOk, IsOkAnd};
ghost use Rattle.elm_canon.specs.Tree.{field_types_of};
ghost use Rattle.elm_canon.specs.View.{annotation_view, field_type_view, types_view};
ghost use Rattle.canon_env.specs.Expanding as sites;
ghost use Rattle.canon_type.specs.Filling.{Fills, bad_field, entry, filled_field, filled_over};

use crate::extending::{extended, push_bad};
use crate::forming::{add_field, extended_type, function_type, named_type, tuple_type};
use crate::outcomes::add_made;
use elm_base::names::Name;
use elm_canon::tree::{Annotation, FieldType};
use indexmap::IndexMap;
use std::alloc::{AllocError, Global};
use std::sync::Arc;

/// What stands for the parameters of an alias, shared.
#[derive(Drop)]
pub struct Filling {
    by_name: IndexMap<Name, Arc<Annotation, Global>>,
}

/// The type as others may share it. One that is shared already is not wrapped again.
fn shared(alloc: Global, t: Annotation) -> Result<Arc<Annotation, Global>, AllocError>
    ensures { IfOk result (λ r. annotation_view r.value ≡ annotation_view t) }
{
    match t {
        Annotation::Shared(t) => Ok(t),
        other => Ok(Arc::new(alloc, other)?),
    }
}

impl Filling {
    /// Nothing stands for any name.
    fn new(alloc: Global) -> Filling
        ensures { Fills result [] }
    {
        Filling {
            by_name: IndexMap::new(alloc),
        }
    }

    /// The type stands for the name, unless another does.
    fn add(&mut self, name: &Name, t: Arc<Annotation, Global>) -> Result<(), AllocError>
        ensures { OnOk result ((s : sites.Filling) → Fills self.old s
            → Fills self.new (s ++ (name.now, annotation_view t.value) ∷ [])) }
    {
        if self.by_name.contains_key(name) {
            return Ok(());
        }
        self.by_name.insert(name.clone()?, t)?;
        Ok(())
    }

    /// The type stands for the first of the names, if there is one, unless another does.
    fn add_first(&mut self, names: &[Name], t: Arc<Annotation, Global>) -> Result<(), AllocError>
        ensures { OnOk result ((s : sites.Filling) → Fills self.old s
            → Fills self.new (s ++ entry names.now (annotation_view t.value))) }
    {
        match names {
            [name, ..] => self.add(name, t),
            [] => Ok(()),
        }
    }

    /// The types `types` stand for the names `names`, in turn. Of one name twice the first counts. The error means that
    /// memory ran out.
    pub fn of(alloc: Global, names: &[Name], types: Vec<Annotation>) -> Result<Filling, AllocError>
        ensures { IfOk result (λ f. Fills f (sites.filling names.now (types_view types.items))) }
    {
        let mut filling = Filling::new(alloc);
        let mut rest = names;
        for t in types {
            filling.add_first(rest, shared(alloc, t)?)?;
            rest = after_first(rest);
        }
        Ok(filling)
    }

    /// What stands for the name.
    fn of_name(&self, name: &Name) -> Result<Annotation, AllocError>
        ensures { IfOk result (λ u. (s : sites.Filling) → Fills self.now s
            → annotation_view u ≡ sites.filled_in s name.now) }
    {
        match self.by_name.get(name) {
            Some(t) => Ok(Annotation::Shared(Arc::try_clone(t)?)),
            None => Ok(Annotation::Variable(name.clone()?)),
        }
    }

    /// The fields on what stands for the name.
    fn with_fields(
        &self,
        alloc: Global,
        name: &Name,
        fields: Vec<FieldType>,
    ) -> Result<Annotation, AllocError>
        ensures { IfOk result (λ u. (s : sites.Filling) → Fills self.now s → annotation_view u
            ≡ sites.extended (sites.filled_in s name.now) (field_types_of (map field_type_view fields.items))) }
    {
        match self.by_name.get(name) {
            Some(t) => extended(alloc, t, fields),
            None => extended_type(name, fields),
        }
    }

    /// A record over what stands for its base, with the fields.
    fn record_over(
        &self,
        alloc: Global,
        base: &Option<Name>,
        fields: Vec<FieldType>,
    ) -> Result<Annotation, AllocError>
        ensures { IfOk result (λ u. (s : sites.Filling) → Fills self.now s → annotation_view u
            ≡ filled_over s base.now (field_types_of (map field_type_view fields.items))) }
    {
        match base {
            None => Ok(Annotation::Record(None, fields)),
            Some(a) => self.with_fields(alloc, a, fields),
        }
    }

    /// The same, if the fields are made.
    fn record(
        &self,
        alloc: Global,
        base: &Option<Name>,
        fields: Result<Vec<FieldType>, AllocError>,
    ) -> Result<Annotation, AllocError>
        ensures { IfOk result (λ u. IsOkAnd fields (λ v. (s : sites.Filling) → Fills self.now s → annotation_view u
            ≡ filled_over s base.now (field_types_of (map field_type_view v.items)))) }
    {
        match fields {
            Ok(fields) => self.record_over(alloc, base, fields),
            Err(e) => Err(e),
        }
    }

    /// Adds the names of the fields that may not extend what stands for the name.
    fn push_bad_on(
        &self,
        alloc: Global,
        name: &Name,
        fields: &[FieldType],
        bad: &mut Vec<Name>,
    ) -> Result<(), AllocError>
        ensures { OnOk result ((s : sites.Filling) → Fills self.now s → bad.new.items ≡ bad.old.items
            ++ sites.bad_on (sites.filled_in s name.now) (field_types_of (map field_type_view fields.now))) }
    {
        match self.by_name.get(name) {
            Some(t) => push_bad(alloc, t, fields, bad),
            None => Ok(()),
        }
    }
}

/// The names after the first.
fn after_first(names: &[Name]) -> &[Name]
    ensures { result.now ≡ drop 1 names.now }
{
    match names {
        [_, after @ ..] => after,
        [] => names,
    }
}

/// The type with what `filling` has in the place of its variables. Each such type is shared. The error means that
/// memory ran out.
#[cycle(filling)]
pub fn fill(alloc: Global, t: &Annotation, filling: &Filling) -> Result<Annotation, AllocError>
    ensures { IfOk result (λ u. (s : sites.Filling) → Fills filling.now s
        → annotation_view u ≡ sites.fill s (annotation_view t.now)) }
{
    match t {
        Annotation::Variable(a) => filling.of_name(a),
        Annotation::Named(home, name, types) => {
            named_type(home, name, fill_all(alloc, types, filling))
        }
        Annotation::Function(types) => function_type(fill_all(alloc, types, filling)),
        Annotation::Tuple(types) => tuple_type(fill_all(alloc, types, filling)),
        Annotation::Record(base, fields) => {
            filling.record(alloc, base, fill_fields(alloc, fields, filling))
        }
        Annotation::Shared(t) => fill(alloc, t, filling),
    }
}

/// The types with what stands for their variables.
#[cycle(filling)]
fn fill_all(
    alloc: Global,
    types: &[Annotation],
    filling: &Filling,
) -> Result<Vec<Annotation>, AllocError>
    ensures { IfOk result (λ v. (s : sites.Filling) → Fills filling.now s
        → map annotation_view v.items ≡ map (sites.fill s) (map annotation_view types.now)) }
{
    let mut filled = Vec::with_capacity(alloc, types.len())?;
    for t in types {
        add_made(&mut filled, fill(alloc, t, filling))?;
    }
    Ok(filled)
}

/// The fields with what stands for the variables of their types.
#[cycle(filling)]
fn fill_fields(
    alloc: Global,
    fields: &[FieldType],
    filling: &Filling,
) -> Result<Vec<FieldType>, AllocError>
    ensures { IfOk result (λ v. (s : sites.Filling) → Fills filling.now s
        → map field_type_view v.items ≡ map (filled_field s) (map field_type_view fields.now)) }
{
    let mut filled = Vec::with_capacity(alloc, fields.len())?;
    for field in fields {
        let name = field.name.clone()?;
        add_field(&mut filled, name, fill(alloc, &field.field_type, filling))?;
    }
    Ok(filled)
}

/// Adds to `bad` the names of the fields in the type that may not extend what `filling` has for their base. The error
/// means that memory ran out.
#[cycle(badness)]
pub fn push_bad_fields(
    alloc: Global,
    t: &Annotation,
    filling: &Filling,
    bad: &mut Vec<Name>,
) -> Result<(), AllocError>
    ensures { OnOk result ((s : sites.Filling) → Fills filling.now s → bad.new.items
        ≡ bad.old.items ++ sites.bad_fields s (annotation_view t.now)) }
{
    match t {
        Annotation::Variable(_) => Ok(()),
        Annotation::Named(_, _, types) => push_bad_in_all(alloc, types, filling, bad),
        Annotation::Function(types) => push_bad_in_all(alloc, types, filling, bad),
        Annotation::Tuple(types) => push_bad_in_all(alloc, types, filling, bad),
        Annotation::Record(base, fields) => match base {
            None => push_bad_in_fields(alloc, fields, filling, bad),
            Some(a) => {
                filling.push_bad_on(alloc, a, fields, bad)?;
                push_bad_in_fields(alloc, fields, filling, bad)
            }
        },
        Annotation::Shared(t) => push_bad_fields(alloc, t, filling, bad),
    }
}

/// The same in types.
#[cycle(badness)]
fn push_bad_in_all(
    alloc: Global,
    types: &[Annotation],
    filling: &Filling,
    bad: &mut Vec<Name>,
) -> Result<(), AllocError>
    ensures { OnOk result ((s : sites.Filling) → Fills filling.now s → bad.new.items
        ≡ bad.old.items ++ flat_map (sites.bad_fields s) (map annotation_view types.now)) }
{
    for t in types {
        push_bad_fields(alloc, t, filling, bad)?;
    }
    Ok(())
}

/// The same in the types of fields.
#[cycle(badness)]
fn push_bad_in_fields(
    alloc: Global,
    fields: &[FieldType],
    filling: &Filling,
    bad: &mut Vec<Name>,
) -> Result<(), AllocError>
    ensures { OnOk result ((s : sites.Filling) → Fills filling.now s → bad.new.items
        ≡ bad.old.items ++ flat_map (bad_field s) (map field_type_view fields.now)) }
{
    for field in fields {
        push_bad_fields(alloc, &field.field_type, filling, bad)?;
    }
    Ok(())
}
