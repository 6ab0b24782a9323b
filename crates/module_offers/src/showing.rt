//! What a module shows by its interface.

ghost use Rattle.std.specs.Prelude.{◌≡◌, not, map, IfOk};
ghost use Rattle.std.specs.List.{filter};
ghost use Rattle.canon_env.specs.Shown.{shown_view, unions_view, aliases_view};
ghost use Rattle.interface.specs.View.{interface_view};
ghost use Rattle.module_offers.specs.Offers as spec;
ghost use Rattle.module_offers.specs.View.{values_view};

use crate::functions::is_operator_function;
use canon_env::shown::Shown;
use elm_base::names::Name;
use elm_canon::tree::{AliasDeclaration, UnionDeclaration};
use interface::Interface;
use interface::value::Value;
use std::alloc::{AllocError, Global};
use std::sync::Arc;

/// The names of the values, but for the functions of operators that the module `home` has.
fn shown_names(alloc: Global, home: &Name, values: &[Value]) -> Result<Vec<Name>, AllocError>
    ensures { IfOk result (λ v. v.items ≡ filter (λ x. not (spec.is_operator_function home.now x))
        (map (λ v. v.name) (values_view values.now))) }
{
    let mut names = Vec::with_capacity(alloc, values.len())?;
    for value in values {
        if !is_operator_function(home, &value.name) {
            names.push(value.name.clone()?)?;
        }
    }
    Ok(names)
}

/// The same unions, which are shared.
fn share_unions(
    alloc: Global,
    unions: &[Arc<UnionDeclaration, Global>],
) -> Result<Vec<Arc<UnionDeclaration, Global>>, AllocError>
    ensures { IfOk result (λ v. unions_view v.items ≡ unions_view unions.now) }
{
    let mut shared = Vec::with_capacity(alloc, unions.len())?;
    for union in unions {
        shared.push(Arc::try_clone(union)?)?;
    }
    Ok(shared)
}

/// The same aliases, which are shared.
fn share_aliases(
    alloc: Global,
    aliases: &[Arc<AliasDeclaration, Global>],
) -> Result<Vec<Arc<AliasDeclaration, Global>>, AllocError>
    ensures { IfOk result (λ v. aliases_view v.items ≡ aliases_view aliases.now) }
{
    let mut shared = Vec::with_capacity(alloc, aliases.len())?;
    for alias in aliases {
        shared.push(Arc::try_clone(alias)?)?;
    }
    Ok(shared)
}

/// What the module `home` shows to those that import it, by its interface `interface`. It shares the declarations and
/// their names. The error means that memory ran out.
pub fn shown_by(alloc: Global, home: &Name, interface: &Interface) -> Result<Shown, AllocError>
    ensures { IfOk result (λ s. shown_view s ≡ spec.shown_of home.now (interface_view interface.now)) }
{
    Ok(Shown {
        values: shown_names(alloc, home, interface.values())?,
        unions: share_unions(alloc, interface.unions())?,
        aliases: share_aliases(alloc, interface.aliases())?,
    })
}
