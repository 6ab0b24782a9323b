//! What a module shows of all that it has.

ghost use Rattle.std.specs.Prelude.{◌≡◌, ◌++◌, [], map, option_map, IfOk, OnOk};
ghost use Rattle.std.specs.List.{filter};
ghost use Rattle.elm_tree.specs.View.{header_view};
ghost use Rattle.elm_tree.specs.Turns.{tokens_view};
ghost use Rattle.elm_canon.specs.Unions.{Declared};
ghost use Rattle.elm_canon.specs.View.{union_declaration_view};
ghost use Rattle.canon_env.specs.Imports as imports;
ghost use Rattle.canon_env.specs.Imports.{exposing_view};
ghost use Rattle.canon_env.specs.Filter.{Filters, filter_value, filter_type, filter_makers};
ghost use Rattle.canon_env.specs.Shown.{shown_view, unions_view, aliases_view};
ghost use Rattle.canon_module.specs.Offers as spec;

use crate::outcomes::put;
use canon_env::filter::Filter;
use canon_env::import::{Exposing, exposing_names};
use canon_env::shown::Shown;
use elm_base::names::Name;
use elm_canon::tree::{AliasDeclaration, UnionDeclaration};
use elm_canon::unions::{Union, UnionShape};
use elm_lexer::token::Token;
use elm_tree::tree::Header;
use std::alloc::{AllocError, Global};
use std::sync::Arc;

/// What the header `header` exposes by the text of the tokens `tokens`. None: the module has no header, and exposes
/// everything. The error means that memory ran out.
fn exposed_by(
    alloc: Global,
    tokens: &[Token<'_>],
    header: &Option<Header>,
) -> Result<Exposing, AllocError>
    ensures { IfOk result (λ e. exposing_view e
        ≡ spec.exposed_by (option_map (header_view (tokens_view tokens.now)) header.now)) }
{
    match header {
        Some(header) => exposing_names(alloc, tokens, &header.exposes),
        None => Ok(Exposing::Everything),
    }
}

/// The values that pass.
fn values(alloc: Global, passing: &Filter, all: &[Name]) -> Result<Vec<Name>, AllocError>
    ensures { IfOk result (λ v. v.items ≡ filter (filter_value passing.now) all.now) }
{
    let mut values = Vec::new(alloc);
    for name in all {
        if passing.passes_value(name) {
            put(&mut values, name.clone()?)?;
        }
    }
    Ok(values)
}

/// The union of a name, without constructors.
fn opaque_union(alloc: Global, home: &Name, name: &Name) -> Result<Union, AllocError>
    ensures { IfOk result (λ u. u ≡ Declared home.now name.now []) }
{
    let home = home.clone()?;
    let name = name.clone()?;
    Union::new(alloc, UnionShape::Declared(home, name, Vec::new(alloc)))
}

/// A union without constructors.
fn without_makers(alloc: Global, union: &Union) -> Result<Union, AllocError>
    ensures { IfOk result (λ u. u ≡ spec.without_makers union.now) }
{
    match union.shape() {
        UnionShape::Tuple(_) => union.clone(),
        UnionShape::List => union.clone(),
        UnionShape::Declared(home, name, _) => opaque_union(alloc, home, name),
    }
}

/// A copy of names.
fn copied(alloc: Global, names: &[Name]) -> Result<Vec<Name>, AllocError>
    ensures { IfOk result (λ v. v.items ≡ names.now) }
{
    let mut copies = Vec::with_capacity(alloc, names.len())?;
    for name in names {
        put(&mut copies, name.clone()?)?;
    }
    Ok(copies)
}

/// A union whose constructors nobody else knows.
fn opaque(alloc: Global, union: &UnionDeclaration) -> Result<UnionDeclaration, AllocError>
    ensures { IfOk result (λ u. union_declaration_view u ≡ spec.opaque (union_declaration_view union.now)) }
{
    let parameters = copied(alloc, &union.parameters)?;
    let name = union.name.clone()?;
    let union = without_makers(alloc, &union.union)?;
    Ok(UnionDeclaration {
        name,
        union,
        parameters,
        fields: Vec::new(alloc),
    })
}

/// A union with its constructors if they pass.
fn offered(
    alloc: Global,
    passing: &Filter,
    union: &Arc<UnionDeclaration, Global>,
) -> Result<Arc<UnionDeclaration, Global>, AllocError>
    ensures { IfOk result (λ u. union_declaration_view u.value
        ≡ spec.offered_by (filter_makers passing.now) (union_declaration_view union.now.value)) }
{
    if passing.passes_makers(&union.name) {
        Arc::try_clone(union)
    } else {
        Ok(Arc::new(alloc, opaque(alloc, union)?)?)
    }
}

/// Adds the unions that pass.
fn push_unions(
    alloc: Global,
    passing: &Filter,
    all: &[Arc<UnionDeclaration, Global>],
    unions: &mut Vec<Arc<UnionDeclaration, Global>>,
) -> Result<(), AllocError>
    ensures { OnOk result (unions_view unions.new.items ≡ unions_view unions.old.items
        ++ spec.unions_by (filter_type passing.now) (filter_makers passing.now) (unions_view all.now)) }
{
    for union in all {
        if passing.passes_type(&union.name) {
            put(unions, offered(alloc, passing, union)?)?;
        }
    }
    Ok(())
}

/// The aliases that pass.
fn aliases(
    alloc: Global,
    passing: &Filter,
    all: &[Arc<AliasDeclaration, Global>],
) -> Result<Vec<Arc<AliasDeclaration, Global>>, AllocError>
    ensures { IfOk result (λ v. aliases_view v.items
        ≡ spec.aliases_by (filter_type passing.now) (aliases_view all.now)) }
{
    let mut aliases = Vec::new(alloc);
    for alias in all {
        if passing.passes_type(&alias.name) {
            put(&mut aliases, Arc::try_clone(alias)?)?;
        }
    }
    Ok(aliases)
}

/// What passes of the unions that a module has without a text, and of all that it declares.
fn passed(
    alloc: Global,
    passing: &Filter,
    given: &[Arc<UnionDeclaration, Global>],
    all: &Shown,
) -> Result<Shown, AllocError>
    ensures { IfOk result (λ s. (e : imports.Exposing) → Filters passing.now e → shown_view s
        ≡ spec.shown_by e (unions_view given.now) (shown_view all.now)) }
{
    let mut unions = Vec::new(alloc);
    push_unions(alloc, passing, given, &mut unions)?;
    push_unions(alloc, passing, &all.unions, &mut unions)?;
    let values = values(alloc, passing, &all.values)?;
    let aliases = aliases(alloc, passing, &all.aliases)?;
    Ok(Shown {
        values,
        unions,
        aliases,
    })
}

/// What a module shows to those that import it, where its header exposes `exposes`: it declares `all`, and has the
/// unions `given` without a text. A union whose constructors are not exposed has none. It takes time in proportion to
/// what is declared and exposed. The error means that memory ran out.
fn shown_by(
    alloc: Global,
    exposes: &Exposing,
    given: &[Arc<UnionDeclaration, Global>],
    all: &Shown,
) -> Result<Shown, AllocError>
    ensures { IfOk result (λ s. shown_view s
        ≡ spec.shown_by (exposing_view exposes.now) (unions_view given.now) (shown_view all.now)) }
{
    let passing = Filter::of(alloc, exposes)?;
    passed(alloc, &passing, given, all)
}

/// The same by the header of the module.
pub(crate) fn shown_of(
    alloc: Global,
    tokens: &[Token<'_>],
    header: &Option<Header>,
    given: &[Arc<UnionDeclaration, Global>],
    all: &Shown,
) -> Result<Shown, AllocError>
    ensures { IfOk result (λ s. shown_view s
        ≡ spec.shown_by (spec.exposed_by (option_map (header_view (tokens_view tokens.now)) header.now))
        (unions_view given.now) (shown_view all.now)) }
{
    let exposes = exposed_by(alloc, tokens, header)?;
    shown_by(alloc, &exposes, given, all)
}
