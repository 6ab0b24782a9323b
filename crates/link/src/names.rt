//! The names that a declaration declares, and those that it uses.

ghost use Rattle.std.specs.Prelude.{◌≡◌, ◌∷◌, ◌++◌, [], map, IfOk, OnOk};
ghost use Rattle.elm_canon.specs.Tree.{functions_of};
ghost use Rattle.elm_canon.specs.View.{declaration_view, group_view, function_view};
ghost use Rattle.elm_canon.specs.Proper.{function_names, group_names};
ghost use Rattle.link.specs.Made.{names_of, uses_of};
ghost use Rattle.link.specs.Names.{top_names, each_once, noted};

use canon_env::uses::push_group_uses;
use elm_base::names::Name;
use elm_canon::reference::Ref;
use elm_canon::tree::{Declaration, Function, Group};
use indexmap::IndexSet;
use std::alloc::{AllocError, Global};

/// The name of a value of a module.
pub(crate) fn pair_of(home: &Name, name: &Name) -> Result<(Name, Name), AllocError>
    ensures { IfOk result (λ pair. pair ≡ (home.now, name.now)) }
{
    let home = home.clone()?;
    let name = name.clone()?;
    Ok((home, name))
}

/// Adds a name, if it is one of a module.
pub(crate) fn push_name(name: &Ref, names: &mut Vec<(Name, Name)>) -> Result<(), AllocError>
    ensures { OnOk result (names.new.items ≡ names.old.items ++ top_names (name.now ∷ [])) }
{
    match name {
        Ref::Local(_) => Ok(()),
        Ref::Top(home, name) => {
            names.push(pair_of(home, name)?)?;
            Ok(())
        }
    }
}

/// Adds the names of functions.
fn push_function_names(
    functions: &[Function],
    names: &mut Vec<(Name, Name)>,
) -> Result<(), AllocError>
    ensures { OnOk result (names.new.items
        ≡ names.old.items ++ top_names (function_names (functions_of (map function_view functions.now)))) }
{
    for function in functions {
        push_name(&function.title.name, names)?;
    }
    Ok(())
}

/// The same of all functions of a group.
fn push_all_names(
    functions: &Vec<Function>,
    names: &mut Vec<(Name, Name)>,
) -> Result<(), AllocError>
    ensures { OnOk result (names.new.items ≡ names.old.items
        ++ top_names (function_names (functions_of (map function_view functions.now.items)))) }
{
    push_function_names(functions, names)
}

/// Adds the names of modules that a group defines.
fn push_group_names(group: &Group, names: &mut Vec<(Name, Name)>) -> Result<(), AllocError>
    ensures { OnOk result (names.new.items ≡ names.old.items ++ top_names (group_names (group_view group.now))) }
{
    match group {
        Group::Together(functions) => push_all_names(functions, names),
        Group::Constant(title, _) => push_name(&title.name, names),
        Group::Destructure(_, _) => Ok(()),
    }
}

/// The names of modules that a declaration declares.
pub(crate) fn declared_names(
    alloc: Global,
    declaration: &Declaration,
) -> Result<Vec<(Name, Name)>, AllocError>
    ensures { IfOk result (λ v. v.items ≡ names_of (declaration_view declaration.now)) }
{
    let mut names = Vec::new(alloc);
    match declaration {
        Declaration::Given(name, _) => push_name(name, &mut names)?,
        Declaration::Define(group) => push_group_names(group, &mut names)?,
    }
    Ok(names)
}

/// The same names once more.
fn copy_names(alloc: Global, names: &[(Name, Name)]) -> Result<Vec<(Name, Name)>, AllocError>
    ensures { IfOk result (λ v. v.items ≡ names.now) }
{
    let mut copies = Vec::with_capacity(alloc, names.len())?;
    for (home, name) in names {
        copies.push(pair_of(home, name)?)?;
    }
    Ok(copies)
}

/// Notes a name, if it is one of a module.
fn note(seen: &mut IndexSet<(Name, Name)>, name: &Ref) -> Result<(), AllocError>
    ensures { OnOk result (seen.new.keys ≡ noted seen.old.keys (top_names (name.now ∷ []))) }
{
    match name {
        Ref::Local(_) => Ok(()),
        Ref::Top(home, name) => {
            seen.insert(pair_of(home, name)?)?;
            Ok(())
        }
    }
}

/// The names of modules among names, each once.
fn once(alloc: Global, names: &[Ref]) -> Result<Vec<(Name, Name)>, AllocError>
    ensures { IfOk result (λ v. v.items ≡ each_once (top_names names.now)) }
{
    let mut seen = IndexSet::new(alloc);
    for name in names {
        note(&mut seen, name)?;
    }
    copy_names(alloc, seen.as_slice())
}

/// The names of modules that a declaration uses, each once.
pub(crate) fn used_names(
    alloc: Global,
    declaration: &Declaration,
) -> Result<Vec<(Name, Name)>, AllocError>
    ensures { IfOk result (λ v. v.items ≡ uses_of (declaration_view declaration.now)) }
{
    let mut refs = Vec::new(alloc);
    match declaration {
        Declaration::Given(_, _) => {}
        Declaration::Define(group) => push_group_uses(group, &mut refs)?,
    }
    once(alloc, &refs)
}
