//! The groups that a module defines.

ghost use Rattle.std.specs.Prelude.{◌≡◌, ◌++◌, map, flat_map, IfOk, OnOk};
ghost use Rattle.elm_canon.specs.View.{group_view, declaration_view};
ghost use Rattle.infer.specs.Modules.{groups_in};

use elm_canon::tree::{Declaration, Group};
use std::alloc::{AllocError, Global};

/// Adds the group that a declaration defines, if it does.
fn push_group<'a>(
    declaration: &'a Declaration,
    found: &mut Vec<&'a Group>,
) -> Result<(), AllocError>
    ensures { OnOk result (map (λ g. group_view g.now) found.new.items
        ≡ map (λ g. group_view g.now) found.old.items ++ groups_in (declaration_view declaration.now)) }
{
    match declaration {
        Declaration::Given(_, _) => Ok(()),
        Declaration::Define(group) => {
            found.push(group)?;
            Ok(())
        }
    }
}

/// The groups that a module defines. The error means that memory ran out.
pub(crate) fn module_groups<'a>(
    alloc: Global,
    declarations: &'a [Declaration],
) -> Result<Vec<&'a Group>, AllocError>
    ensures { IfOk result (λ found. map (λ g. group_view g.now) found.items
        ≡ flat_map groups_in (map declaration_view declarations.now)) }
{
    let mut found = Vec::new(alloc);
    for declaration in declarations {
        push_group(declaration, &mut found)?;
    }
    Ok(found)
}
