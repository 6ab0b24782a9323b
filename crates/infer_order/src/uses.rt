//! The definitions that an expression uses, in one walk over it.

ghost use Rattle.std.specs.Prelude.{◌≡◌, ◌++◌, map, flat_map, OnOk};
ghost use Rattle.elm_canon.specs.Tree.{exprs_of, branches_of, groups_of, functions_of};
ghost use Rattle.elm_canon.specs.View.{expr_view, link_view, branch_view, group_view, function_view};
ghost use Rattle.type_items.specs.Uses as uses;
ghost use Rattle.infer_order.specs.Owners.{all_numbers};
ghost use Rattle.infer_order.specs.Links.{before, before_all, after};

use crate::owners::Owners;
use elm_canon::tree::{Branch, Expr, Function, Group, Link};
use std::alloc::AllocError;

/// Adds the numbers of the definitions of `owners` that an expression uses to `found`.
#[cycle(walk)]
pub(crate) fn push_expr(
    owners: &Owners,
    expr: &Expr,
    found: &mut Vec<u32>,
) -> Result<(), AllocError>
    ensures { OnOk result (found.new.items
        ≡ found.old.items ++ all_numbers owners.now (uses.used (expr_view expr.now))) }
{
    match expr {
        Expr::Literal(_) => Ok(()),
        Expr::Name(name) => owners.push(name, found),
        Expr::Accessor(_) => Ok(()),
        Expr::Lambda(_, body) => push_expr(owners, body, found),
        Expr::Apply(function, arguments) => {
            push_expr(owners, function, found)?;
            push_all(owners, arguments, found)
        }
        Expr::Strict(_, parts) => push_all(owners, parts, found),
        Expr::Access(inner, _) => push_expr(owners, inner, found),
        Expr::If(condition, yes, no) => {
            push_expr(owners, condition, found)?;
            push_expr(owners, yes, found)?;
            push_expr(owners, no, found)
        }
        Expr::Chain(first, links) => {
            push_before(owners, links, found)?;
            push_expr(owners, first, found)?;
            push_after(owners, links, found)
        }
        Expr::Let(groups, body) => {
            push_groups(owners, groups, found)?;
            push_expr(owners, body, found)
        }
        Expr::Case(subject, branches) => {
            push_expr(owners, subject, found)?;
            push_branches(owners, branches, found)
        }
        Expr::Located(_, inner) => push_expr(owners, inner, found),
    }
}

/// Adds the numbers of the definitions that expressions use.
#[cycle(walk)]
fn push_all(owners: &Owners, exprs: &[Expr], found: &mut Vec<u32>) -> Result<(), AllocError>
    ensures { OnOk result (found.new.items
        ≡ found.old.items ++ all_numbers owners.now (uses.used_each (exprs_of (map expr_view exprs.now)))) }
{
    for expr in exprs {
        push_expr(owners, expr, found)?;
    }
    Ok(())
}

/// Adds those that are used before an expression with which these things are done: those of the last come first.
#[cycle(walk)]
fn push_before(owners: &Owners, links: &[Link], found: &mut Vec<u32>) -> Result<(), AllocError>
    ensures { OnOk result (found.new.items
        ≡ found.old.items ++ all_numbers owners.now (before_all (map link_view links.now))) }
{
    for link in links.iter().rev() {
        push_one_before(owners, link, found)?;
    }
    Ok(())
}

/// Those of one thing.
#[cycle(walk)]
fn push_one_before(owners: &Owners, link: &Link, found: &mut Vec<u32>) -> Result<(), AllocError>
    ensures { OnOk result (found.new.items
        ≡ found.old.items ++ all_numbers owners.now (before (link_view link.now))) }
{
    match link {
        Link::Given(function, arguments) => {
            push_expr(owners, function, found)?;
            push_all(owners, arguments, found)
        }
        Link::Composed(function, _) => push_expr(owners, function, found),
        Link::After(_, parts) => push_all(owners, parts, found),
        Link::Before(_, _) => Ok(()),
        Link::Decided(_, _, left) => push_expr(owners, left, found),
    }
}

/// Adds those that are used after an expression with which these things are done.
#[cycle(walk)]
fn push_after(owners: &Owners, links: &[Link], found: &mut Vec<u32>) -> Result<(), AllocError>
    ensures { OnOk result (found.new.items
        ≡ found.old.items ++ all_numbers owners.now (flat_map after (map link_view links.now))) }
{
    for link in links {
        push_one_after(owners, link, found)?;
    }
    Ok(())
}

/// Those of one thing.
#[cycle(walk)]
fn push_one_after(owners: &Owners, link: &Link, found: &mut Vec<u32>) -> Result<(), AllocError>
    ensures { OnOk result (found.new.items
        ≡ found.old.items ++ all_numbers owners.now (after (link_view link.now))) }
{
    match link {
        Link::Given(_, _) => Ok(()),
        Link::Composed(_, right) => push_expr(owners, right, found),
        Link::After(_, _) => Ok(()),
        Link::Before(_, right) => push_expr(owners, right, found),
        Link::Decided(_, _, _) => Ok(()),
    }
}

/// Adds those that the bodies of branches use.
#[cycle(walk)]
fn push_branches(
    owners: &Owners,
    branches: &[Branch],
    found: &mut Vec<u32>,
) -> Result<(), AllocError>
    ensures { OnOk result (found.new.items
        ≡ found.old.items ++ all_numbers owners.now (uses.used_branches (branches_of (map branch_view branches.now)))) }
{
    for branch in branches {
        push_expr(owners, &branch.body, found)?;
    }
    Ok(())
}

/// Adds those that groups of definitions use.
#[cycle(walk)]
fn push_groups(owners: &Owners, groups: &[Group], found: &mut Vec<u32>) -> Result<(), AllocError>
    ensures { OnOk result (found.new.items
        ≡ found.old.items ++ all_numbers owners.now (uses.used_groups (groups_of (map group_view groups.now)))) }
{
    for group in groups {
        push_group(owners, group, found)?;
    }
    Ok(())
}

/// Adds those that a group of definitions uses.
#[cycle(walk)]
fn push_group(owners: &Owners, group: &Group, found: &mut Vec<u32>) -> Result<(), AllocError>
    ensures { OnOk result (found.new.items
        ≡ found.old.items ++ all_numbers owners.now (uses.used_group (group_view group.now))) }
{
    match group {
        Group::Together(functions) => push_functions(owners, functions, found),
        Group::Constant(_, body) => push_expr(owners, body, found),
        Group::Destructure(_, body) => push_expr(owners, body, found),
    }
}

/// Adds those that functions use.
#[cycle(walk)]
fn push_functions(
    owners: &Owners,
    functions: &[Function],
    found: &mut Vec<u32>,
) -> Result<(), AllocError>
    ensures { OnOk result (found.new.items ≡ found.old.items
        ++ all_numbers owners.now (uses.used_functions (functions_of (map function_view functions.now)))) }
{
    for function in functions {
        push_expr(owners, &function.body, found)?;
    }
    Ok(())
}
