//! The faults of the patterns of a module, in one walk over its tree.

ghost use Rattle.std.specs.Prelude.{◌≡◌, ◌∷◌, ◌++◌, [], map, flat_map, IfOk, OnOk};
ghost use Rattle.elm_canon.specs.Tree.{exprs_of, branches_of, groups_of, functions_of};
ghost use Rattle.elm_canon.specs.View.{expr_view, link_view, branch_view, group_view, function_view};
ghost use Rattle.elm_canon.specs.View.{declaration_view, module_view};
ghost use Rattle.canon_env.specs.Order.{IsInOrder};
ghost use Rattle.pattern_check.specs.Sites as sites;
ghost use Rattle.pattern_check.specs.Faults.{faults, module_faults};
ghost use Rattle.pattern_check.specs.Links.{before, before_all, after};

use crate::sites::{push_choice, push_sole, push_soles};
use canon_env::finding::Finding;
use canon_env::order::in_order;
use elm_base::position::Pos;
use elm_canon::tree::{Branch, Declaration, Expr, Function, Group, Link, Module};
use std::alloc::{AllocError, Global};

/// Adds the faults of the patterns in an expression that begins at `here` or where it says.
#[cycle(walk)]
fn push_expr(
    alloc: Global,
    here: Pos,
    expr: &Expr,
    findings: &mut Vec<Finding>,
) -> Result<(), AllocError>
    ensures { OnOk result (findings.new.items
        ≡ findings.old.items ++ faults (sites.expr_sites here (expr_view expr.now))) }
{
    match expr {
        Expr::Literal(_) => Ok(()),
        Expr::Name(_) => Ok(()),
        Expr::Accessor(_) => Ok(()),
        Expr::Lambda(parameters, body) => {
            push_soles(alloc, here, parameters, findings)?;
            push_expr(alloc, here, body, findings)
        }
        Expr::Apply(function, arguments) => {
            push_expr(alloc, here, function, findings)?;
            push_all(alloc, here, arguments, findings)
        }
        Expr::Strict(_, parts) => push_all(alloc, here, parts, findings),
        Expr::Access(inner, _) => push_expr(alloc, here, inner, findings),
        Expr::If(condition, yes, no) => {
            push_expr(alloc, here, condition, findings)?;
            push_expr(alloc, here, yes, findings)?;
            push_expr(alloc, here, no, findings)
        }
        Expr::Chain(first, links) => {
            push_before(alloc, here, links, findings)?;
            push_expr(alloc, here, first, findings)?;
            push_after(alloc, here, links, findings)
        }
        Expr::Let(groups, body) => {
            push_groups(alloc, here, groups, findings)?;
            push_expr(alloc, here, body, findings)
        }
        Expr::Case(subject, branches) => {
            push_expr(alloc, here, subject, findings)?;
            push_choice(alloc, here, branches, findings)?;
            push_branches(alloc, here, branches, findings)
        }
        Expr::Located(place, inner) => push_expr(alloc, *place, inner, findings),
    }
}

/// Adds the faults of the patterns in expressions.
#[cycle(walk)]
fn push_all(
    alloc: Global,
    here: Pos,
    exprs: &[Expr],
    findings: &mut Vec<Finding>,
) -> Result<(), AllocError>
    ensures { OnOk result (findings.new.items
        ≡ findings.old.items ++ faults (sites.exprs_sites here (exprs_of (map expr_view exprs.now)))) }
{
    for expr in exprs {
        push_expr(alloc, here, expr, findings)?;
    }
    Ok(())
}

/// Adds the faults of the patterns that stand before an expression with which these things are done: those of the last
/// come first.
#[cycle(walk)]
fn push_before(
    alloc: Global,
    here: Pos,
    links: &[Link],
    findings: &mut Vec<Finding>,
) -> Result<(), AllocError>
    ensures { OnOk result (findings.new.items
        ≡ findings.old.items ++ before_all here (map link_view links.now)) }
{
    for link in links.iter().rev() {
        push_one_before(alloc, here, link, findings)?;
    }
    Ok(())
}

/// Those of one thing.
#[cycle(walk)]
fn push_one_before(
    alloc: Global,
    here: Pos,
    link: &Link,
    findings: &mut Vec<Finding>,
) -> Result<(), AllocError>
    ensures { OnOk result (findings.new.items ≡ findings.old.items ++ before here (link_view link.now)) }
{
    match link {
        Link::Given(function, arguments) => {
            push_expr(alloc, here, function, findings)?;
            push_all(alloc, here, arguments, findings)
        }
        Link::Composed(function, _) => push_expr(alloc, here, function, findings),
        Link::After(_, parts) => push_all(alloc, here, parts, findings),
        Link::Before(_, _) => Ok(()),
        Link::Decided(_, _, left) => push_expr(alloc, here, left, findings),
    }
}

/// Adds the faults of the patterns that stand after an expression with which these things are done.
#[cycle(walk)]
fn push_after(
    alloc: Global,
    here: Pos,
    links: &[Link],
    findings: &mut Vec<Finding>,
) -> Result<(), AllocError>
    ensures { OnOk result (findings.new.items
        ≡ findings.old.items ++ flat_map (after here) (map link_view links.now)) }
{
    for link in links {
        push_one_after(alloc, here, link, findings)?;
    }
    Ok(())
}

/// Those of one thing.
#[cycle(walk)]
fn push_one_after(
    alloc: Global,
    here: Pos,
    link: &Link,
    findings: &mut Vec<Finding>,
) -> Result<(), AllocError>
    ensures { OnOk result (findings.new.items ≡ findings.old.items ++ after here (link_view link.now)) }
{
    match link {
        Link::Given(_, _) => Ok(()),
        Link::Composed(_, right) => push_expr(alloc, here, right, findings),
        Link::After(_, _) => Ok(()),
        Link::Before(_, right) => push_expr(alloc, here, right, findings),
        Link::Decided(_, _, _) => Ok(()),
    }
}

/// Adds the faults of the patterns in the bodies of branches.
#[cycle(walk)]
fn push_branches(
    alloc: Global,
    here: Pos,
    branches: &[Branch],
    findings: &mut Vec<Finding>,
) -> Result<(), AllocError>
    ensures { OnOk result (findings.new.items
        ≡ findings.old.items ++ faults (sites.branches_sites here (branches_of (map branch_view branches.now)))) }
{
    for branch in branches {
        push_expr(alloc, here, &branch.body, findings)?;
    }
    Ok(())
}

/// Adds the faults of the patterns in groups of definitions.
#[cycle(walk)]
fn push_groups(
    alloc: Global,
    here: Pos,
    groups: &[Group],
    findings: &mut Vec<Finding>,
) -> Result<(), AllocError>
    ensures { OnOk result (findings.new.items
        ≡ findings.old.items ++ faults (sites.groups_sites here (groups_of (map group_view groups.now)))) }
{
    for group in groups {
        push_group(alloc, here, group, findings)?;
    }
    Ok(())
}

/// Adds the faults of the patterns in a group of definitions.
#[cycle(walk)]
fn push_group(
    alloc: Global,
    here: Pos,
    group: &Group,
    findings: &mut Vec<Finding>,
) -> Result<(), AllocError>
    ensures { OnOk result (findings.new.items
        ≡ findings.old.items ++ faults (sites.group_sites here (group_view group.now))) }
{
    match group {
        Group::Together(functions) => push_functions(alloc, functions, findings),
        Group::Constant(title, body) => push_expr(alloc, title.place, body, findings),
        Group::Destructure(pattern, body) => {
            push_sole(alloc, here, pattern, findings)?;
            push_expr(alloc, here, body, findings)
        }
    }
}

/// Adds the faults of the patterns in functions.
#[cycle(walk)]
fn push_functions(
    alloc: Global,
    functions: &[Function],
    findings: &mut Vec<Finding>,
) -> Result<(), AllocError>
    ensures { OnOk result (findings.new.items
        ≡ findings.old.items ++ faults (sites.functions_sites (functions_of (map function_view functions.now)))) }
{
    for function in functions {
        push_soles(alloc, function.title.place, &function.parameters, findings)?;
        push_expr(alloc, function.title.place, &function.body, findings)?;
    }
    Ok(())
}

/// Adds the faults of the patterns in one declaration.
fn push_declaration(
    alloc: Global,
    declaration: &Declaration,
    findings: &mut Vec<Finding>,
) -> Result<(), AllocError>
    ensures { OnOk result (findings.new.items
        ≡ findings.old.items ++ faults (sites.declarations_sites (declaration_view declaration.now ∷ []))) }
{
    match declaration {
        Declaration::Given(_, _) => Ok(()),
        Declaration::Define(group) => {
            push_group(alloc, Pos { row: 1, column: 1 }, group, findings)
        }
    }
}

/// Adds the faults of the patterns in what a module declares.
fn push_declarations(
    alloc: Global,
    declarations: &[Declaration],
    findings: &mut Vec<Finding>,
) -> Result<(), AllocError>
    ensures { OnOk result (findings.new.items
        ≡ findings.old.items ++ faults (sites.declarations_sites (map declaration_view declarations.now))) }
{
    for declaration in declarations {
        push_declaration(alloc, declaration, findings)?;
    }
    Ok(())
}

/// The faults of the patterns of the module `resolved`, each once, by place and then by code: each `case` that leaves
/// something out, with the pattern that is missing; each branch that earlier ones cover; each parameter and each
/// pattern that a definition takes apart that leaves something out, with what is missing. The error means that memory
/// ran out.
pub fn pattern_faults(alloc: Global, resolved: &Module) -> Result<Vec<Finding>, AllocError>
    ensures { IfOk result (λ v. IsInOrder (module_faults (module_view resolved.now)) v.items) }
{
    let mut findings = Vec::new(alloc);
    push_declarations(alloc, &resolved.declarations, &mut findings)?;
    in_order(alloc, findings)
}
