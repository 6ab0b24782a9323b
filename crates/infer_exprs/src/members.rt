//! The definitions of a type group.

ghost use Rattle.std.specs.Prelude.{◌≡◌, ◌<◌, List, length, IfOk};
ghost use Rattle.std.specs.List.{All, AllByRecursion, AllZip};
ghost use Rattle.decl_groups.specs.Groups.{plain as plain_lists};
ghost use Rattle.elm_canon.specs.Tree.{groups_of, Group};
ghost use Rattle.type_items.specs.Definitions as plain;
ghost use Rattle.infer_order.specs.Order.{AreDefinitions, IsOrder, IsSimple};
ghost use Rattle.infer_groups.specs.Members.{IsTitledAs};
ghost use Rattle.infer_exprs.specs.Members.{HasTitle, IsTypeGroup};

use elm_canon::tree::Title;
use infer_order::order::{Definition, Order};
use std::alloc::{AllocError, Global};

/// The same definition once more.
fn same<'a>(definition: &Definition<'a>) -> Definition<'a>
    ensures { result ≡ definition.now }
{
    Definition {
        group: definition.group,
        function: definition.function,
        place: definition.place,
        title: definition.title,
    }
}

/// The definitions of the type group of the number `number`, in written order. The error means that memory ran out.
pub fn members<'a>(
    alloc: Global,
    order: &Order<'a>,
    number: usize,
) -> Result<Vec<Definition<'a>>, AllocError>
    requires number { number < length order.now.groups.items }
    requires inside { AllByRecursion (All (λ i. i < length order.now.definitions.items))
        (plain_lists order.now.groups.items) }
    ensures { IfOk result (λ members. (gs : List Group) → IsOrder gs order.now → IsSimple (groups_of gs)
        → IsTypeGroup gs number members.items) }
{
    let numbers = &order.groups[number];
    let mut members = Vec::with_capacity(alloc, numbers.len())?;
    for at in numbers {
        let definition = &order.definitions[*at as usize];
        members.push(same(definition))?;
    }
    Ok(members)
}

/// The titles of definitions that have one. The error means that memory ran out.
pub fn titles<'a>(alloc: Global, members: &[Definition<'a>]) -> Result<Vec<&'a Title>, AllocError>
    requires { AllByRecursion HasTitle members.now }
    ensures { IfOk result (λ titles. (gs : List Group) (ds : List plain.Definition)
        → AreDefinitions gs members.now ds → AllZip (λ t d. IsTitledAs t.now.name d) titles.items ds) }
{
    let mut titles = Vec::with_capacity(alloc, members.len())?;
    for member in members {
        match member.title {
            Some(title) => titles.push(title)?,
            None => unreachable!(),
        }
    }
    Ok(titles)
}
