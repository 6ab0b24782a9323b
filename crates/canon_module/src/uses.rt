//! Which declarations of a module each declaration uses.

ghost use Rattle.std.specs.Prelude.{◌≡◌, ◌<◌, ◌++◌, List, length, map, IfOk, OnOk};
ghost use Rattle.std.specs.List.{All};
ghost use Rattle.decl_groups.specs.Groups.{plain};
ghost use Rattle.elm_canon.specs.Names as names;
ghost use Rattle.canon_expr.specs.Kept.{made_view};
ghost use Rattle.canon_module.specs.TopUsesKept.{Numbered};
ghost use Rattle.canon_module.specs.Items as spec;
ghost use Rattle.canon_module.specs.CanonValuesKept.{item_view};

use crate::item::Item;
use crate::numbers::Numbers;
use canon_env::uses::push_uses;
use canon_expr::made::Made;
use elm_base::names::Name;
use elm_canon::reference::Ref;
use std::alloc::{AllocError, Global};

/// Adds the names of modules that a definition uses.
fn push_made_uses(made: &Made, uses: &mut Vec<Ref>) -> Result<(), AllocError>
    ensures { OnOk result (uses.new.items ≡ uses.old.items ++ spec.made_uses (made_view made.now)) }
{
    match made {
        Made::Nothing => Ok(()),
        Made::Function(_, _, body) => push_uses(body, uses),
        Made::Constant(_, body) => push_uses(body, uses),
        Made::Parts(_, body) => push_uses(body, uses),
    }
}

/// Adds the names of modules that a declaration uses.
fn push_item_uses(item: &Item, uses: &mut Vec<Ref>) -> Result<(), AllocError>
    ensures { OnOk result (uses.new.items ≡ uses.old.items ++ spec.item_uses (item_view item.now)) }
{
    match item {
        Item::Nothing => Ok(()),
        Item::Port(_) => Ok(()),
        Item::Value(made) => push_made_uses(made, uses),
    }
}

/// The declarations that a declaration uses.
fn used_by(
    alloc: Global,
    home: &Name,
    numbers: &Numbers,
    item: &Item,
) -> Result<Vec<u32>, AllocError>
    ensures used { IfOk result (λ v. (each : List (List names.Name)) → Numbered numbers.now each
        → v.items ≡ spec.used_in home.now each (item_view item.now)) }
    ensures within { IfOk result (λ v. (each : List (List names.Name)) → Numbered numbers.now each
        → All (λ j. j < length each) v.items) }
{
    let mut uses = Vec::new(alloc);
    push_item_uses(item, &mut uses)?;
    numbers.used(alloc, home, &uses)
}

/// For each declaration of the module `home` the places of those that it uses. `items` says what they mean, and `numbers`
/// has their numbers. The error means that memory ran out.
pub fn used_among(
    alloc: Global,
    home: &Name,
    numbers: &Numbers,
    items: &[Item],
) -> Result<Vec<Vec<u32>>, AllocError>
    ensures count { IfOk result (λ v. length v.items ≡ length items.now) }
    ensures used { IfOk result (λ v. (each : List (List names.Name)) → Numbered numbers.now each
        → plain v.items ≡ spec.used_among home.now each (map item_view items.now)) }
    ensures within { IfOk result (λ v. (each : List (List names.Name)) → Numbered numbers.now each
        → All (λ row. All (λ j. j < length each) row.items) v.items) }
{
    let mut rows = Vec::with_capacity(alloc, items.len())?;
    for item in items {
        rows.push(used_by(alloc, home, numbers, item)?)?;
    }
    Ok(rows)
}
