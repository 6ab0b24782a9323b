//! The names that a module shows, as far as a filter lets them through.

ghost use Rattle.std.specs.Prelude.{◌≡◌, ◌++◌, map, flat_map, IfOk, OnOk};
ghost use Rattle.elm_canon.specs.View.{union_declaration_view};
ghost use Rattle.canon_env.specs.Shown as spec;
ghost use Rattle.canon_env.specs.Filter.{filter_value, filter_type, filter_makers};
ghost use Rattle.canon_env.specs.Env.{named_values, named_types, named_makers, values_by, union_type, alias_type};
ghost use Rattle.canon_env.specs.Env.{types_by, maker, union_makers, record_maker, makers_by};

use crate::filter::Filter;
use crate::found::Named;
use crate::shown::{MakerMeaning, Shown, TypeMeaning};
use elm_canon::tree::{AliasDeclaration, UnionDeclaration};
use elm_canon::unions::{Alternative, Union, UnionShape};
use std::alloc::{AllocError, Global};
use std::sync::Arc;

/// The values that pass.
pub(crate) fn values(
    alloc: Global,
    filter: &Filter,
    shown: &Shown,
) -> Result<Vec<Named<()>>, AllocError>
    ensures { IfOk result (λ v. named_values v.items
        ≡ values_by (filter_value filter.now) (spec.shown_view shown.now)) }
{
    let mut values = Vec::new(alloc);
    for name in &shown.values {
        if filter.passes_value(name) {
            values.push(Named {
                name: name.clone()?,
                meaning: (),
            })?;
        }
    }
    Ok(values)
}

/// Adds the names of unions, as types.
fn push_union_types(
    filter: &Filter,
    unions: &[Arc<UnionDeclaration, Global>],
    types: &mut Vec<Named<TypeMeaning>>,
) -> Result<(), AllocError>
    ensures { OnOk result (named_types types.new.items ≡ named_types types.old.items
        ++ flat_map (union_type (filter_type filter.now)) (spec.unions_view unions.now)) }
{
    for union in unions {
        if filter.passes_type(&union.name) {
            types.push(Named {
                name: union.name.clone()?,
                meaning: TypeMeaning::Union(Arc::try_clone(union)?),
            })?;
        }
    }
    Ok(())
}

/// Adds the names of aliases, as types.
fn push_alias_types(
    filter: &Filter,
    aliases: &[Arc<AliasDeclaration, Global>],
    types: &mut Vec<Named<TypeMeaning>>,
) -> Result<(), AllocError>
    ensures { OnOk result (named_types types.new.items ≡ named_types types.old.items
        ++ flat_map (alias_type (filter_type filter.now)) (spec.aliases_view aliases.now)) }
{
    for alias in aliases {
        if filter.passes_type(&alias.name) {
            types.push(Named {
                name: alias.name.clone()?,
                meaning: TypeMeaning::Alias(Arc::try_clone(alias)?),
            })?;
        }
    }
    Ok(())
}

/// The types that pass.
pub(crate) fn types(
    alloc: Global,
    filter: &Filter,
    shown: &Shown,
) -> Result<Vec<Named<TypeMeaning>>, AllocError>
    ensures { IfOk result (λ v. named_types v.items
        ≡ types_by (filter_type filter.now) (spec.shown_view shown.now)) }
{
    let mut types = Vec::new(alloc);
    push_union_types(filter, &shown.unions, &mut types)?;
    push_alias_types(filter, &shown.aliases, &mut types)?;
    Ok(types)
}

/// Adds constructors of a union.
fn push_alternatives(
    union: &Union,
    alternatives: &[Alternative],
    makers: &mut Vec<Named<MakerMeaning>>,
) -> Result<(), AllocError>
    ensures { OnOk result (named_makers makers.new.items ≡ named_makers makers.old.items
        ++ map (maker union.now) alternatives.now) }
{
    for alternative in alternatives {
        makers.push(Named {
            name: alternative.name.clone()?,
            meaning: MakerMeaning::OfUnion(union.clone()?, alternative.clone()?),
        })?;
    }
    Ok(())
}

/// Adds the constructors of a union that pass.
fn push_union_makers(
    filter: &Filter,
    union: &UnionDeclaration,
    makers: &mut Vec<Named<MakerMeaning>>,
) -> Result<(), AllocError>
    ensures { OnOk result (named_makers makers.new.items ≡ named_makers makers.old.items
        ++ union_makers (filter_makers filter.now) (union_declaration_view union.now)) }
{
    if !filter.passes_makers(&union.name) {
        return Ok(());
    }
    match union.union.shape() {
        UnionShape::Tuple(_) => Ok(()),
        UnionShape::List => Ok(()),
        UnionShape::Declared(_, _, alternatives) => {
            push_alternatives(&union.union, alternatives, makers)
        }
    }
}

/// Adds the constructors of each union that pass.
fn push_makers(
    filter: &Filter,
    unions: &[Arc<UnionDeclaration, Global>],
    makers: &mut Vec<Named<MakerMeaning>>,
) -> Result<(), AllocError>
    ensures { OnOk result (named_makers makers.new.items ≡ named_makers makers.old.items
        ++ flat_map (union_makers (filter_makers filter.now)) (spec.unions_view unions.now)) }
{
    for union in unions {
        push_union_makers(filter, union, makers)?;
    }
    Ok(())
}

/// Adds the constructors of records' aliases that pass.
fn push_record_makers(
    filter: &Filter,
    aliases: &[Arc<AliasDeclaration, Global>],
    makers: &mut Vec<Named<MakerMeaning>>,
) -> Result<(), AllocError>
    ensures { OnOk result (named_makers makers.new.items ≡ named_makers makers.old.items
        ++ flat_map (record_maker (filter_type filter.now)) (spec.aliases_view aliases.now)) }
{
    for alias in aliases {
        if alias.is_maker && filter.passes_type(&alias.name) {
            makers.push(Named {
                name: alias.name.clone()?,
                meaning: MakerMeaning::OfRecord(Arc::try_clone(alias)?),
            })?;
        }
    }
    Ok(())
}

/// The constructors that pass.
pub(crate) fn makers(
    alloc: Global,
    filter: &Filter,
    shown: &Shown,
) -> Result<Vec<Named<MakerMeaning>>, AllocError>
    ensures { IfOk result (λ v. named_makers v.items
        ≡ makers_by (filter_makers filter.now) (filter_type filter.now) (spec.shown_view shown.now)) }
{
    let mut makers = Vec::new(alloc);
    push_makers(filter, &shown.unions, &mut makers)?;
    push_record_makers(filter, &shown.aliases, &mut makers)?;
    Ok(makers)
}
