//! The variables of an annotation that are not those of annotations around.

ghost use Rattle.std.specs.Prelude.{◌≡◌, ◌∷◌, [], ◌++◌, length, map, IfOk, OnOk};
ghost use Rattle.elm_type.specs.View.{kind_view};
ghost use Rattle.infer_steps.specs.View.{code_of};
ghost use Rattle.infer_types.specs.Own.{own_view, own_of, OwnAreOwn};

use elm_base::names::Name;
use elm_type::scheme::Kind;
use infer_steps::scope::Scope;
use std::alloc::{AllocError, Global};

/// A variable of an annotation, and what it may stand for.
#[derive(Drop)]
pub struct OwnVariable {
    pub name: Name,
    pub kind: Kind,
}

/// The same names once more.
fn copy_names(alloc: Global, names: &[Name]) -> Result<Vec<Name>, AllocError>
    ensures { IfOk result (λ copies. copies.items ≡ names.now) }
{
    let mut copies = Vec::new(alloc);
    for name in names {
        copies.push(name.clone()?)?;
    }
    Ok(copies)
}

/// Adds a variable, if no annotation around has it.
fn add_own(
    alloc: Global,
    scope: &Scope,
    name: &Name,
    kind: &Kind,
    own: &mut Vec<OwnVariable>,
) -> Result<(), AllocError>
    ensures { OnOk result (map own_view own.new.items ≡ map own_view own.old.items
        ++ own_of (code_of scope.now) (name.now ∷ []) (kind_view kind.now ∷ [])) }
{
    match scope.constant(name) {
        Some(_) => Ok(()),
        None => {
            let copy = Kind {
                class: kind.class,
                lacks: copy_names(alloc, &kind.lacks)?,
            };
            own.push(OwnVariable {
                name: name.clone()?,
                kind: copy,
            })?;
            Ok(())
        }
    }
}

/// Those of the variables `names`, of the kinds `kinds`, that no annotation around has. The error means that memory ran
/// out.
pub fn own_variables(
    alloc: Global,
    scope: &Scope,
    names: &[Name],
    kinds: &[Kind],
) -> Result<Vec<OwnVariable>, AllocError>
    requires { length kinds.now ≡ length names.now }
    ensures { IfOk result (λ own. map own_view own.items ≡ own_of (code_of scope.now) names.now
        (map kind_view kinds.now)) }
{
    let mut own = Vec::new(alloc);
    for i in 0..names.len() {
        add_own(alloc, scope, &names[i], &kinds[i], &mut own)?;
    }
    Ok(own)
}

/// The own variables of an annotation are those that its annotations around have not.
pub fn own_law()
    ensures { OwnAreOwn }
{}
