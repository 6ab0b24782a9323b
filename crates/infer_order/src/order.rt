//! Definitions in written order, and their type groups in order of use.

ghost use Rattle.std.specs.Prelude.{◌≡◌, ◌<◌, ◌^◌, ◌++◌, ◌∷◌, ℕ, List, Some, IsSome, length, map, flat_map, is_none};
ghost use Rattle.std.specs.Prelude.{is_some, IfOk, OnOk, if◌then◌else◌};
ghost use Rattle.std.specs.Ordering.{nat_cmp, ordering_then};
ghost use Rattle.std.specs.List.{All, AllByRecursion, AllZip};
ghost use Rattle.decl_groups.specs.Groups.{plain as plain_lists};
ghost use Rattle.decl_groups.specs.InOrder.{ordered_groups};
ghost use Rattle.elm_canon.specs.Tree.{groups_of, Group as PlainGroup};
ghost use Rattle.elm_canon.specs.View.{group_view, declaration_view};
ghost use Rattle.elm_canon.specs.declared.reference.Ref.{Ref as PlainRef};
ghost use Rattle.type_items.specs.Definitions as plain;
ghost use Rattle.type_items.specs.Expressions.{definitions, group_definitions};
ghost use Rattle.type_items.specs.Modules.{definitions_in};
ghost use Rattle.infer_order.specs.Owners.{all_numbers, numbers_of, put_all, put_from, nothing};
ghost use Rattle.infer_order.specs.Spots.{in_group, at_spot, has_titles};
ghost use Rattle.infer_order.specs.Order.{TitleIs, IsDefinition, AreDefinitions, IsOrder, ordered, all_spots};
ghost use Rattle.infer_order.specs.Order.{spots_from, StandsAt};

use crate::bound::{push_bound, start};
use crate::owners::Owners;
use crate::uses::push_expr;
use decl_groups::binding_groups_laws::computed_law;
use decl_groups::groups as groups_in_order;
use elm_base::position::Pos;
use elm_canon::reference::Ref;
use elm_canon::tree::{Declaration, Group, Title};
use std::alloc::{AllocError, Global};
use std::cmp::Ordering;

/// Where a definition stands, by the number of its group and its own in the group, and where it is written.
#[derive(Clone, Copy, Debug)]
struct Spot {
    group: usize,
    function: usize,
    place: Pos,
}

/// A definition.
#[derive(Drop)]
pub struct Definition<'a> {
    /// The number of its group.
    pub group: usize,
    /// Its number among the functions of the group, or 0 where the group is a constant or a pattern with its value.
    pub function: usize,
    /// Where it is written.
    pub place: Pos,
    /// None: it is a pattern with its value.
    pub title: Option<&'a Title>,
}

/// Definitions, and the order in which their types are inferred.
#[derive(Drop)]
pub struct Order<'a> {
    /// In written order.
    pub definitions: Vec<Definition<'a>>,
    /// The type groups in order of use, each with the numbers of its definitions, the least first.
    pub groups: Vec<Vec<u32>>,
}

/// How two definitions stand in the text.
fn by_place(first: &Spot, second: &Spot) -> Ordering
    ensures { result ≡ ordering_then (nat_cmp first.now.place.row second.now.place.row)
        (nat_cmp first.now.place.column second.now.place.column) }
{
    first
        .place
        .row
        .cmp(&second.place.row)
        .then(first.place.column.cmp(&second.place.column))
}

/// Adds where the definitions of a group stand.
fn push_spots(group: &Group, number: usize, spots: &mut Vec<Spot>) -> Result<(), AllocError>
    ensures { OnOk result (spots.new.items
        ≡ spots.old.items ++ spots_from number 0 (group_definitions (group_view group.now))) }
{
    match group {
        Group::Together(functions) => {
            for (function, each) in functions.iter().enumerate() {
                spots.push(Spot {
                    group: number,
                    function,
                    place: each.title.place,
                })?;
            }
            Ok(())
        }
        Group::Constant(title, _) => {
            spots.push(Spot {
                group: number,
                function: 0,
                place: title.place,
            })?;
            Ok(())
        }
        Group::Destructure(pattern, _) => {
            spots.push(Spot {
                group: number,
                function: 0,
                place: start(pattern),
            })?;
            Ok(())
        }
    }
}

/// The title of a definition of a group. None: it is a pattern with its value, or the group has no such definition.
fn title_of<'a>(group: &'a Group, function: usize) -> Option<&'a Title>
    ensures title { (d : plain.Definition) → in_group (Some (group_view group.now)) function ≡ Some d
        → TitleIs result d }
    ensures kind { (d : plain.Definition) → in_group (Some (group_view group.now)) function ≡ Some d
        → is_some result ≡ has_titles (Some (group_view group.now)) }
{
    match group {
        Group::Together(functions) => match functions.get(function) {
            Some(each) => Some(&each.title),
            None => None,
        },
        Group::Constant(title, _) => Some(title),
        Group::Destructure(_, _) => None,
    }
}

/// Where the definitions of groups stand.
fn spots_of(alloc: Global, groups: &[&Group]) -> Result<Vec<Spot>, AllocError>
    ensures { IfOk result (λ spots. spots.items ≡ all_spots 0 (map (λ g. group_view g.now) groups.now)) }
{
    let mut spots = Vec::new(alloc);
    for (number, group) in groups.iter().enumerate() {
        push_spots(group, number, &mut spots)?;
    }
    Ok(spots)
}

/// The definitions in written order. Those that are written at one place keep their order.
fn sorted(spots: Vec<Spot>) -> Result<Vec<Spot>, AllocError>
    ensures { IfOk result (λ found. (gs : List PlainGroup) → spots.items ≡ all_spots 0 gs
        → AllZip (StandsAt gs) found.items (ordered gs)) }
{
    let mut spots = spots;
    spots.sort_by(|first, second| by_place(first, second))?;
    Ok(spots)
}

/// The definition that stands at a spot.
fn definition_at<'a>(groups: &[&'a Group], spot: Spot) -> Definition<'a>
    ensures { (d : plain.Definition) → StandsAt (map (λ g. group_view g.now) groups.now) spot d
        → IsDefinition (map (λ g. group_view g.now) groups.now) result d }
{
    let title = match groups.get(spot.group) {
        Some(group) => title_of(*group, spot.function),
        None => None,
    };
    Definition {
        group: spot.group,
        function: spot.function,
        place: spot.place,
        title,
    }
}

/// The definitions that stand at spots.
fn definitions_at<'a>(
    alloc: Global,
    groups: &[&'a Group],
    spots: &[Spot],
) -> Result<Vec<Definition<'a>>, AllocError>
    ensures { IfOk result (λ found. (ds : List plain.Definition)
        → AllZip (StandsAt (map (λ g. group_view g.now) groups.now)) spots.now ds
        → AreDefinitions (map (λ g. group_view g.now) groups.now) found.items ds) }
{
    let mut definitions = Vec::with_capacity(alloc, spots.len())?;
    for spot in spots {
        definitions.push(definition_at(groups, *spot))?;
    }
    Ok(definitions)
}

/// The same name once more.
fn copy_name(name: &Ref) -> Result<Ref, AllocError>
    ensures { IfOk result (λ copy. copy ≡ name.now) }
{
    match name {
        Ref::Local(local) => Ok(Ref::Local(local.clone()?)),
        Ref::Top(home, top) => Ok(Ref::Top(home.clone()?, top.clone()?)),
    }
}

/// Adds the names of a definition of a group.
fn push_names(group: &Group, function: usize, names: &mut Vec<Ref>) -> Result<(), AllocError>
    ensures { OnOk result ((d : plain.Definition) → in_group (Some (group_view group.now)) function ≡ Some d
        → names.new.items ≡ names.old.items ++ d.names) }
{
    match group {
        Group::Together(functions) => match functions.get(function) {
            Some(each) => {
                names.push(copy_name(&each.title.name)?)?;
                Ok(())
            }
            None => Ok(()),
        },
        Group::Constant(title, _) => {
            names.push(copy_name(&title.name)?)?;
            Ok(())
        }
        Group::Destructure(pattern, _) => push_bound(pattern, names),
    }
}

/// Adds the number of a definition to those of its names.
fn add_names(
    alloc: Global,
    names: &[Ref],
    number: u32,
    owners: &mut Owners,
) -> Result<(), AllocError>
    ensures { OnOk result ((y : PlainRef)
        → numbers_of owners.new y ≡ put_all names.now number (numbers_of owners.old) y) }
{
    for name in names {
        owners.add(alloc, name, number)?;
    }
    Ok(())
}

/// Whether a definition has no annotation.
fn is_inferred(definition: &Definition<'_>) -> bool
    ensures { (d : plain.Definition) → TitleIs definition.now.title d → result ≡ is_none d.annotation }
{
    match definition.title {
        Some(title) => title.annotation.is_none(),
        None => true,
    }
}

/// The names of a definition.
fn names_of(
    alloc: Global,
    groups: &[&Group],
    definition: &Definition<'_>,
) -> Result<Vec<Ref>, AllocError>
    ensures { IfOk result (λ names. (d : plain.Definition)
        → IsDefinition (map (λ g. group_view g.now) groups.now) definition.now d → names.items ≡ d.names) }
{
    let mut names = Vec::new(alloc);
    match groups.get(definition.group) {
        Some(group) => {
            push_names(*group, definition.function, &mut names)?;
            Ok(names)
        }
        None => Ok(names),
    }
}

/// Adds the number of a definition to those of its names, if it has no annotation.
fn add_definition(
    alloc: Global,
    groups: &[&Group],
    definition: &Definition<'_>,
    number: u32,
    owners: &mut Owners,
) -> Result<(), AllocError>
    ensures { OnOk result ((d : plain.Definition)
        → IsDefinition (map (λ g. group_view g.now) groups.now) definition.now d → (y : PlainRef)
        → numbers_of owners.new y
        ≡ (if is_none d.annotation then put_all d.names number (numbers_of owners.old) else numbers_of owners.old) y) }
{
    if is_inferred(definition) {
        let names = names_of(alloc, groups, definition)?;
        add_names(alloc, &names, number, owners)
    } else {
        Ok(())
    }
}

/// The numbers of the definitions without an annotation by their names.
fn owners_of(
    alloc: Global,
    groups: &[&Group],
    definitions: &[Definition<'_>],
) -> Result<Owners, AllocError>
    requires { length definitions.now < 2 ^ 32 }
    ensures { IfOk result (λ owners. (ds : List plain.Definition)
        → AreDefinitions (map (λ g. group_view g.now) groups.now) definitions.now ds → (y : PlainRef)
        → numbers_of owners y ≡ put_from 0 ds nothing y) }
{
    let mut owners = Owners::new(alloc);
    for number in 0..definitions.len() {
        add_definition(
            alloc,
            groups,
            &definitions[number],
            number as u32,
            &mut owners,
        )?;
    }
    Ok(owners)
}

/// Adds the numbers of the definitions that a definition of a group uses.
fn push_uses(
    group: &Group,
    function: usize,
    owners: &Owners,
    found: &mut Vec<u32>,
) -> Result<(), AllocError>
    ensures { OnOk result ((d : plain.Definition) → in_group (Some (group_view group.now)) function ≡ Some d
        → found.new.items ≡ found.old.items ++ all_numbers owners.now d.uses) }
{
    match group {
        Group::Together(functions) => match functions.get(function) {
            Some(each) => push_expr(owners, &each.body, found),
            None => Ok(()),
        },
        Group::Constant(_, body) => push_expr(owners, body, found),
        Group::Destructure(_, body) => push_expr(owners, body, found),
    }
}

/// The numbers of the definitions that a definition uses.
fn row(
    alloc: Global,
    groups: &[&Group],
    definition: &Definition<'_>,
    owners: &Owners,
) -> Result<Vec<u32>, AllocError>
    ensures { IfOk result (λ row. (d : plain.Definition)
        → IsDefinition (map (λ g. group_view g.now) groups.now) definition.now d
        → row.items ≡ all_numbers owners.now d.uses) }
{
    let mut found = Vec::new(alloc);
    match groups.get(definition.group) {
        Some(group) => {
            push_uses(*group, definition.function, owners, &mut found)?;
            Ok(found)
        }
        None => Ok(found),
    }
}

/// The numbers of the definitions that each definition uses.
fn rows(
    alloc: Global,
    groups: &[&Group],
    definitions: &[Definition<'_>],
    owners: &Owners,
) -> Result<Vec<Vec<u32>>, AllocError>
    ensures { IfOk result (λ rows. (ds : List plain.Definition)
        → AreDefinitions (map (λ g. group_view g.now) groups.now) definitions.now ds
        → plain_lists rows.items ≡ map (λ d. all_numbers owners.now d.uses) ds) }
{
    let mut rows = Vec::with_capacity(alloc, definitions.len())?;
    for definition in definitions {
        rows.push(row(alloc, groups, definition, owners)?)?;
    }
    Ok(rows)
}

/// The type groups of definitions, each with the numbers of its definitions, the least first.
fn type_groups(
    alloc: Global,
    groups: &[&Group],
    definitions: &[Definition<'_>],
) -> Result<Vec<Vec<u32>>, AllocError>
    requires few { length definitions.now < 2 ^ 32 }
    requires ordered { AreDefinitions (map (λ g. group_view g.now) groups.now) definitions.now
        (ordered (map (λ g. group_view g.now) groups.now)) }
    ensures groups { IfOk result (λ found. plain_lists found.items
        ≡ ordered_groups (plain.all_uses (ordered (map (λ g. group_view g.now) groups.now)))) }
    ensures inside { IfOk result (λ found.
        AllByRecursion (All (λ i. i < length definitions.now)) (plain_lists found.items)) }
{
    computed_law();
    let owners = owners_of(alloc, groups, definitions)?;
    let rows = rows(alloc, groups, definitions, &owners)?;
    groups_in_order(alloc, &rows)
}

/// The order in which the types of the definitions of groups are inferred. The error means that memory ran out; so it
/// does where there are 2 ^ 32 definitions or more.
pub fn order_of<'a>(alloc: Global, groups: &[&'a Group]) -> Result<Order<'a>, AllocError>
    ensures { IfOk result (λ order. IsOrder (map (λ g. group_view g.now) groups.now) order) }
{
    let spots = sorted(spots_of(alloc, groups)?)?;
    let definitions = definitions_at(alloc, groups, &spots)?;
    if definitions.len() > u32::MAX as usize {
        return Err(AllocError);
    }
    let found = type_groups(alloc, groups, &definitions)?;
    if found.len() > u32::MAX as usize {
        return Err(AllocError);
    }
    Ok(Order {
        definitions,
        groups: found,
    })
}

/// The groups of a let. The error means that memory ran out.
pub fn let_groups<'a>(alloc: Global, groups: &'a [Group]) -> Result<Vec<&'a Group>, AllocError>
    ensures { IfOk result (λ found. map (λ g. group_view g.now) found.items ≡ map group_view groups.now) }
{
    let mut found = Vec::with_capacity(alloc, groups.len())?;
    for group in groups {
        found.push(group)?;
    }
    Ok(found)
}

/// Adds the group that a declaration defines, if it does.
fn push_group<'a>(
    declaration: &'a Declaration,
    found: &mut Vec<&'a Group>,
) -> Result<(), AllocError>
    ensures { OnOk result (definitions (groups_of (map (λ g. group_view g.now) found.new.items))
        ≡ definitions (groups_of (map (λ g. group_view g.now) found.old.items))
        ++ definitions_in (declaration_view declaration.now)) }
{
    match declaration {
        Declaration::Given(_, _) => Ok(()),
        Declaration::Define(group) => {
            found.push(group)?;
            Ok(())
        }
    }
}

/// The groups that a module defines. The error means that memory ran out.
pub fn module_groups<'a>(
    alloc: Global,
    declarations: &'a [Declaration],
) -> Result<Vec<&'a Group>, AllocError>
    ensures { IfOk result (λ found. definitions (groups_of (map (λ g. group_view g.now) found.items))
        ≡ flat_map definitions_in (map declaration_view declarations.now)) }
{
    let mut found = Vec::new(alloc);
    for declaration in declarations {
        push_group(declaration, &mut found)?;
    }
    Ok(found)
}
