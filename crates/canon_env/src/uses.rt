//! The names of modules that an expression uses.

ghost use Rattle.std.specs.Prelude.{◌≡◌, ◌++◌, ◌∷◌, [], true, map, flat_map, OnOk};
ghost use Rattle.elm_canon.specs.declared.reference.Ref.TheVariants.{Top};
ghost use Rattle.elm_canon.specs.Tree.{exprs_of, branches_of, groups_of, functions_of};
ghost use Rattle.elm_canon.specs.View.{expr_view, link_view, branch_view, group_view, function_view};
ghost use Rattle.canon_env.specs.Uses.{ref_uses, expr_uses, exprs_uses, branches_uses, groups_uses, group_uses};
ghost use Rattle.canon_env.specs.Uses.{functions_uses};
ghost use Rattle.canon_env.specs.Links.{before, before_all, after};
ghost use Rattle.canon_env.specs.Adds.{Adds};

use elm_base::names::Name;
use elm_canon::reference::Ref;
use elm_canon::tree::{Branch, Expr, Function, Group, Link};
use std::alloc::AllocError;

/// Adds a name of a module.
fn add_top(home: &Name, name: &Name, uses: &mut Vec<Ref>) -> Result<(), AllocError>
    ensures { OnOk result (uses.new.items ≡ uses.old.items ++ Top home.now name.now ∷ []) }
{
    let home = home.clone()?;
    let name = name.clone()?;
    uses.push(Ref::Top(home, name))?;
    Ok(())
}

/// The same, unless memory ran out before: then `fits` is false.
fn push_top(home: &Name, name: &Name, uses: &mut Vec<Ref>, fits: &mut bool)
    ensures { Adds fits.old fits.new uses.old.items uses.new.items (Top home.now name.now ∷ []) }
{
    if *fits {
        *fits = add_top(home, name, uses).is_ok();
    }
}

/// Adds a name, if it is one of a module.
fn push_ref(name: &Ref, uses: &mut Vec<Ref>, fits: &mut bool)
    ensures { Adds fits.old fits.new uses.old.items uses.new.items (ref_uses name.now) }
{
    match name {
        Ref::Local(_) => {}
        Ref::Top(home, name) => push_top(home, name, uses, fits),
    }
}

/// Adds the names that an expression uses. Nothing is added once memory ran out, which `fits` tells.
#[cycle(uses)]
fn add_uses(expr: &Expr, uses: &mut Vec<Ref>, fits: &mut bool)
    ensures { Adds fits.old fits.new uses.old.items uses.new.items (expr_uses (expr_view expr.now)) }
{
    match expr {
        Expr::Literal(_) => {}
        Expr::Name(name) => push_ref(name, uses, fits),
        Expr::Accessor(_) => {}
        Expr::Lambda(_, body) => add_boxed(body, uses, fits),
        Expr::Apply(function, arguments) => {
            add_boxed(function, uses, fits);
            add_all(arguments, uses, fits);
        }
        Expr::Strict(_, parts) => add_all(parts, uses, fits),
        Expr::Access(inner, _) => add_boxed(inner, uses, fits),
        Expr::If(condition, yes, no) => {
            add_boxed(condition, uses, fits);
            add_boxed(yes, uses, fits);
            add_boxed(no, uses, fits);
        }
        Expr::Chain(first, links) => {
            add_before(links, uses, fits);
            add_boxed(first, uses, fits);
            add_after(links, uses, fits);
        }
        Expr::Let(groups, body) => {
            add_groups(groups, uses, fits);
            add_boxed(body, uses, fits);
        }
        Expr::Case(subject, branches) => {
            add_boxed(subject, uses, fits);
            add_branches(branches, uses, fits);
        }
        Expr::Located(_, inner) => add_boxed(inner, uses, fits),
    }
}

/// The same of one in a box. The proof of a function pays for the types that its references lead to, up to a box or a
/// `Vec`, so what is only passed on is passed as that.
#[cycle(uses)]
fn add_boxed(expr: &Box<Expr>, uses: &mut Vec<Ref>, fits: &mut bool)
    ensures { Adds fits.old fits.new uses.old.items uses.new.items (expr_uses (expr_view expr.now.value)) }
{
    add_uses(expr, uses, fits);
}

/// Adds the names that expressions use.
#[cycle(uses)]
fn add_all(exprs: &Vec<Expr>, uses: &mut Vec<Ref>, fits: &mut bool)
    ensures { Adds fits.old fits.new uses.old.items uses.new.items
        (exprs_uses (exprs_of (map expr_view exprs.now.items))) }
{
    for i in 0..exprs.len() {
        add_uses(&exprs[i], uses, fits);
    }
}

/// Adds the names that stand before an expression with which these things are done: those of the last come first.
#[cycle(uses)]
fn add_before(links: &Vec<Link>, uses: &mut Vec<Ref>, fits: &mut bool)
    ensures { Adds fits.old fits.new uses.old.items uses.new.items (before_all (map link_view links.now.items)) }
{
    let mut left = links.len();
    while left > 0 {
        left -= 1;
        add_one_before(&links[left], uses, fits);
    }
}

/// Those of one thing.
#[cycle(uses)]
fn add_one_before(link: &Link, uses: &mut Vec<Ref>, fits: &mut bool)
    ensures { Adds fits.old fits.new uses.old.items uses.new.items (before (link_view link.now)) }
{
    match link {
        Link::Given(function, arguments) => {
            add_boxed(function, uses, fits);
            add_all(arguments, uses, fits);
        }
        Link::Composed(function, _) => add_boxed(function, uses, fits),
        Link::After(_, parts) => add_all(parts, uses, fits),
        Link::Before(_, _) => {}
        Link::Decided(_, _, left) => add_boxed(left, uses, fits),
    }
}

/// Adds the names that stand after an expression with which these things are done.
#[cycle(uses)]
fn add_after(links: &Vec<Link>, uses: &mut Vec<Ref>, fits: &mut bool)
    ensures { Adds fits.old fits.new uses.old.items uses.new.items (flat_map after (map link_view links.now.items)) }
{
    for i in 0..links.len() {
        add_one_after(&links[i], uses, fits);
    }
}

/// Those of one thing.
#[cycle(uses)]
fn add_one_after(link: &Link, uses: &mut Vec<Ref>, fits: &mut bool)
    ensures { Adds fits.old fits.new uses.old.items uses.new.items (after (link_view link.now)) }
{
    match link {
        Link::Given(_, _) => {}
        Link::Composed(_, right) => add_boxed(right, uses, fits),
        Link::After(_, _) => {}
        Link::Before(_, right) => add_boxed(right, uses, fits),
        Link::Decided(_, _, _) => {}
    }
}

/// Adds the names that the bodies of branches use.
#[cycle(uses)]
fn add_branches(branches: &Vec<Branch>, uses: &mut Vec<Ref>, fits: &mut bool)
    ensures { Adds fits.old fits.new uses.old.items uses.new.items
        (branches_uses (branches_of (map branch_view branches.now.items))) }
{
    for i in 0..branches.len() {
        add_boxed(&branches[i].body, uses, fits);
    }
}

/// Adds the names that groups of definitions use.
#[cycle(uses)]
fn add_groups(groups: &Vec<Group>, uses: &mut Vec<Ref>, fits: &mut bool)
    ensures { Adds fits.old fits.new uses.old.items uses.new.items
        (groups_uses (groups_of (map group_view groups.now.items))) }
{
    for i in 0..groups.len() {
        add_group(&groups[i], uses, fits);
    }
}

/// Adds the names that functions use.
#[cycle(uses)]
fn add_functions(functions: &Vec<Function>, uses: &mut Vec<Ref>, fits: &mut bool)
    ensures { Adds fits.old fits.new uses.old.items uses.new.items
        (functions_uses (functions_of (map function_view functions.now.items))) }
{
    for i in 0..functions.len() {
        add_boxed(&functions[i].body, uses, fits);
    }
}

/// Adds the names that the definitions of a group use.
#[cycle(uses)]
fn add_group(group: &Group, uses: &mut Vec<Ref>, fits: &mut bool)
    ensures { Adds fits.old fits.new uses.old.items uses.new.items (group_uses (group_view group.now)) }
{
    match group {
        Group::Together(functions) => add_functions(functions, uses, fits),
        Group::Constant(_, body) => add_boxed(body, uses, fits),
        Group::Destructure(_, body) => add_boxed(body, uses, fits),
    }
}

/// Fails, unless what was added fits into memory.
fn all_fit(fits: bool) -> Result<(), AllocError>
    ensures { OnOk result (fits ≡ true) }
{
    if fits { Ok(()) } else { Err(AllocError) }
}

/// Adds the names of modules that an expression uses to `uses`, in the order in which they stand in its tree. The error
/// means that memory ran out.
pub fn push_uses(expr: &Expr, uses: &mut Vec<Ref>) -> Result<(), AllocError>
    ensures { OnOk result (uses.new.items ≡ uses.old.items ++ expr_uses (expr_view expr.now)) }
{
    let mut fits = true;
    add_uses(expr, uses, &mut fits);
    all_fit(fits)
}

/// Adds the names of modules that the definitions of a group use to `uses`, in the order in which they stand in its tree.
/// The error means that memory ran out.
pub fn push_group_uses(group: &Group, uses: &mut Vec<Ref>) -> Result<(), AllocError>
    ensures { OnOk result (uses.new.items ≡ uses.old.items ++ group_uses (group_view group.now)) }
{
    let mut fits = true;
    add_group(group, uses, &mut fits);
    all_fit(fits)
}
