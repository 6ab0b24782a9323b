//! The signs of expressions.

ghost use Rattle.std.specs.Prelude.{◌≡◌, ◌++◌, ◌∷◌, [], map, flat_map, OnOk};
ghost use Rattle.elm_canon.specs.Tree.{exprs_of, branches_of, groups_of, functions_of};
ghost use Rattle.elm_canon.specs.View.{expr_view, link_view, branch_view, group_view, function_view, op_view};
ghost use Rattle.elm_canon.specs.View.{patterns_view};
ghost use Rattle.core_modules.specs.declared.port_faults_sign.Sign.TheVariants as sign;
ghost use Rattle.core_modules.specs.PortFaultsSigns as spec;
ghost use Rattle.core_modules.specs.Links.{before, before_all, after};

use crate::makers::{push_built, push_form, push_name};
use crate::patterns::{push_pattern, push_patterns};
use crate::port_faults_sign::{Form, Sign};
use elm_base::names::Name;
use elm_canon::tree::{Branch, Expr, Function, Group, Link, Op, Pattern};
use std::alloc::AllocError;

/// Adds the sign of what is done with values.
fn push_op(op: &Op, signs: &mut Vec<Sign>) -> Result<(), AllocError>
    ensures { OnOk result (signs.new.items ≡ signs.old.items ++ spec.op_sign (op_view op.now) ∷ []) }
{
    match op {
        Op::Build(_, union, constructor) => push_built(union, constructor, signs),
        _ => push_form(Form::Other, signs),
    }
}

/// Adds the end of what is built.
fn push_op_ends(op: &Op, signs: &mut Vec<Sign>) -> Result<(), AllocError>
    ensures { OnOk result (signs.new.items ≡ signs.old.items ++ spec.op_ends (op_view op.now)) }
{
    match op {
        Op::Build(_, _, _) => push_form(Form::End, signs),
        _ => Ok(()),
    }
}

/// Adds the sign of a function without a name.
#[tactic(auto, using(crate::proofs::Counting::one_parameter, crate::proofs::Counting::other_parameters))]
fn push_lambda(parameters: &Vec<Pattern>, signs: &mut Vec<Sign>) -> Result<(), AllocError>
    ensures { OnOk result (signs.new.items
        ≡ signs.old.items ++ spec.lambda_sign (patterns_view parameters.now.items) ∷ []) }
{
    if parameters.len() == 1 {
        push_form(Form::Lambda, signs)
    } else {
        push_form(Form::Other, signs)
    }
}

/// Adds the sign of a choice.
#[tactic(auto, using(crate::proofs::Counting::two_branches, crate::proofs::Counting::other_branches))]
fn push_case(branches: &Vec<Branch>, signs: &mut Vec<Sign>) -> Result<(), AllocError>
    ensures { OnOk result (signs.new.items
        ≡ signs.old.items ++ spec.case_sign (branches_of (map branch_view branches.now.items)) ∷ []) }
{
    if branches.len() == 2 {
        push_form(Form::Two, signs)
    } else {
        push_form(Form::Other, signs)
    }
}

/// Adds the sign of functions.
#[tactic(auto, using(crate::proofs::Counting::one_function, crate::proofs::Counting::other_functions))]
fn push_together(functions: &Vec<Function>, signs: &mut Vec<Sign>) -> Result<(), AllocError>
    ensures { OnOk result (signs.new.items
        ≡ signs.old.items ++ spec.together_sign (functions_of (map function_view functions.now.items)) ∷ []) }
{
    if functions.len() == 1 {
        push_form(Form::Alone, signs)
    } else {
        push_form(Form::Other, signs)
    }
}

/// Adds a sign for each field.
fn push_fields(fields: &[Name], signs: &mut Vec<Sign>) -> Result<(), AllocError>
    ensures { OnOk result (signs.new.items
        ≡ signs.old.items ++ flat_map (λ x. spec.other ∷ []) fields.now) }
{
    for _ in fields {
        push_form(Form::Other, signs)?;
    }
    Ok(())
}

/// Adds the signs of an expression.
#[cycle(signs)]
fn push_signs(expr: &Expr, signs: &mut Vec<Sign>) -> Result<(), AllocError>
    ensures { OnOk result (signs.new.items ≡ signs.old.items ++ spec.signs (expr_view expr.now)) }
{
    match expr {
        Expr::Literal(_) => push_form(Form::Other, signs),
        Expr::Name(name) => push_name(name, signs),
        Expr::Accessor(_) => push_form(Form::Other, signs),
        Expr::Lambda(parameters, body) => {
            push_lambda(parameters, signs)?;
            push_patterns(parameters, signs)?;
            push_boxed(body, signs)
        }
        Expr::Apply(function, arguments) => {
            push_form(Form::Apply, signs)?;
            push_boxed(function, signs)?;
            push_all(arguments, signs)?;
            push_form(Form::End, signs)
        }
        Expr::Strict(op, parts) => {
            push_op(op, signs)?;
            push_all(parts, signs)?;
            push_op_ends(op, signs)
        }
        Expr::Access(inner, fields) => {
            push_fields(fields, signs)?;
            push_boxed(inner, signs)
        }
        Expr::If(condition, yes, no) => {
            push_form(Form::Other, signs)?;
            push_boxed(condition, signs)?;
            push_boxed(yes, signs)?;
            push_boxed(no, signs)
        }
        Expr::Chain(first, links) => {
            push_before(links, signs)?;
            push_boxed(first, signs)?;
            push_after(links, signs)
        }
        Expr::Let(groups, body) => {
            push_form(Form::Other, signs)?;
            push_groups(groups, signs)?;
            push_boxed(body, signs)
        }
        Expr::Case(subject, branches) => {
            push_case(branches, signs)?;
            push_boxed(subject, signs)?;
            push_branches(branches, signs)
        }
        Expr::Located(_, inner) => push_boxed(inner, signs),
    }
}

/// Adds the signs of an expression in a box.
#[cycle(signs)]
fn push_boxed(expr: &Box<Expr>, signs: &mut Vec<Sign>) -> Result<(), AllocError>
    ensures { OnOk result (signs.new.items ≡ signs.old.items ++ spec.signs (expr_view expr.now.value)) }
{
    push_signs(expr, signs)
}

/// Adds the signs of expressions.
#[cycle(signs)]
fn push_all(exprs: &Vec<Expr>, signs: &mut Vec<Sign>) -> Result<(), AllocError>
    ensures { OnOk result (signs.new.items
        ≡ signs.old.items ++ spec.exprs_signs (exprs_of (map expr_view exprs.now.items))) }
{
    for place in 0..exprs.len() {
        push_signs(&exprs[place], signs)?;
    }
    Ok(())
}

/// Adds a sign that is of no port, and those of an expression.
#[cycle(signs)]
fn push_formed(form: Form, expr: &Box<Expr>, signs: &mut Vec<Sign>) -> Result<(), AllocError>
    ensures { OnOk result (signs.new.items
        ≡ signs.old.items ++ sign.Form form ∷ spec.signs (expr_view expr.now.value)) }
{
    push_form(form, signs)?;
    push_boxed(expr, signs)
}

/// Adds the signs that stand before an expression with which these things are done: those of the last come first.
#[cycle(signs)]
fn push_before(links: &Vec<Link>, signs: &mut Vec<Sign>) -> Result<(), AllocError>
    ensures { OnOk result (signs.new.items ≡ signs.old.items ++ before_all (map link_view links.now.items)) }
{
    let mut left = links.len();
    while left > 0 {
        left -= 1;
        push_one_before(&links[left], signs)?;
    }
    Ok(())
}

/// Those of one thing.
#[cycle(signs)]
fn push_one_before(link: &Link, signs: &mut Vec<Sign>) -> Result<(), AllocError>
    ensures { OnOk result (signs.new.items ≡ signs.old.items ++ before (link_view link.now)) }
{
    match link {
        Link::Given(function, arguments) => {
            push_formed(Form::Apply, function, signs)?;
            push_all(arguments, signs)
        }
        Link::Composed(function, _) => push_formed(Form::Apply, function, signs),
        Link::After(op, parts) => {
            push_op(op, signs)?;
            push_all(parts, signs)
        }
        Link::Before(op, _) => push_op(op, signs),
        Link::Decided(_, _, left) => push_formed(Form::Other, left, signs),
    }
}

/// Adds the signs that stand after an expression with which these things are done.
#[cycle(signs)]
fn push_after(links: &Vec<Link>, signs: &mut Vec<Sign>) -> Result<(), AllocError>
    ensures { OnOk result (signs.new.items ≡ signs.old.items ++ flat_map after (map link_view links.now.items)) }
{
    for place in 0..links.len() {
        push_one_after(&links[place], signs)?;
    }
    Ok(())
}

/// Those of one thing.
#[cycle(signs)]
fn push_one_after(link: &Link, signs: &mut Vec<Sign>) -> Result<(), AllocError>
    ensures { OnOk result (signs.new.items ≡ signs.old.items ++ after (link_view link.now)) }
{
    match link {
        Link::Given(_, _) => push_form(Form::End, signs),
        Link::Composed(_, right) => {
            push_boxed(right, signs)?;
            push_form(Form::End, signs)
        }
        Link::After(op, _) => push_op_ends(op, signs),
        Link::Before(op, right) => {
            push_boxed(right, signs)?;
            push_op_ends(op, signs)
        }
        Link::Decided(_, _, _) => Ok(()),
    }
}

/// Adds the signs of branches.
#[cycle(signs)]
fn push_branches(branches: &Vec<Branch>, signs: &mut Vec<Sign>) -> Result<(), AllocError>
    ensures { OnOk result (signs.new.items
        ≡ signs.old.items ++ spec.branches_signs (branches_of (map branch_view branches.now.items))) }
{
    for place in 0..branches.len() {
        let branch = &branches[place];
        push_pattern(&branch.pattern, signs)?;
        push_boxed(&branch.body, signs)?;
    }
    Ok(())
}

/// Adds the signs of groups of definitions.
#[cycle(signs)]
fn push_groups(groups: &Vec<Group>, signs: &mut Vec<Sign>) -> Result<(), AllocError>
    ensures { OnOk result (signs.new.items
        ≡ signs.old.items ++ spec.groups_signs (groups_of (map group_view groups.now.items))) }
{
    for place in 0..groups.len() {
        push_group(&groups[place], signs)?;
    }
    Ok(())
}

/// Adds the signs of a group of definitions.
#[cycle(signs)]
pub(crate) fn push_group(group: &Group, signs: &mut Vec<Sign>) -> Result<(), AllocError>
    ensures { OnOk result (signs.new.items ≡ signs.old.items ++ spec.group_signs (group_view group.now)) }
{
    match group {
        Group::Together(functions) => {
            push_together(functions, signs)?;
            push_functions(functions, signs)
        }
        Group::Constant(_, body) => push_boxed(body, signs),
        Group::Destructure(pattern, body) => {
            push_pattern(pattern, signs)?;
            push_boxed(body, signs)
        }
    }
}

/// Adds the signs of functions.
#[cycle(signs)]
fn push_functions(functions: &Vec<Function>, signs: &mut Vec<Sign>) -> Result<(), AllocError>
    ensures { OnOk result (signs.new.items
        ≡ signs.old.items ++ spec.functions_signs (functions_of (map function_view functions.now.items))) }
{
    for place in 0..functions.len() {
        let function = &functions[place];
        push_patterns(&function.parameters, signs)?;
        push_form(Form::End, signs)?;
        push_boxed(&function.body, signs)?;
    }
    Ok(())
}
