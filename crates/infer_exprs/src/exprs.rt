//! Type inference of expressions, at the place of the state. All goes as deep as the expression nests; a list and a
//! chain of operators are loops.
//!
//! `position` is everywhere where the expression begins, unless it says so itself, and `wanted` the variable of the
//! type that is wanted. The errors: an item is bad, at which the items of the expression stop; memory or numbers ran
//! out.

ghost use Rattle.std.specs.Prelude.{◌≡◌, ◌≤◌, ◌<◌, ◌+◌, ◌∷◌, ◌++◌, [], ℕ, suc, List, Err, IfOk, OnOk, length, map};
ghost use Rattle.std.specs.Prelude.{Some, slice_get};
ghost use Rattle.std.specs.List.{AllByRecursion};
ghost use Rattle.elm_canon.specs.Tree as tree;
ghost use Rattle.elm_canon.specs.Tree.{Apply, Strict, exprs_of, patterns_of, branches_of, groups_of};
ghost use Rattle.elm_canon.specs.View.{expr_view, pattern_view, op_view, link_view, branch_view, group_view, linked};
ghost use Rattle.elm_canon.specs.View.{done, accessed, annotation_view, Composed, After, Before, Decided};
ghost use Rattle.elm_canon.specs.declared.tree.Connective.{Connective};
ghost use Rattle.type_items.specs.Items.{Wanted, child};
ghost use Rattle.type_items.specs.Definitions.{Definition as PlainDefinition, type_groups, list_definitions};
ghost use Rattle.type_items.specs.Expressions.{definitions, group_definitions};
ghost use Rattle.type_walks.specs.Links.{Live};
ghost use Rattle.type_walks.specs.Regions.{below};
ghost use Rattle.infer_steps.specs.Leaving.{without};
ghost use Rattle.infer_steps.specs.Promises.{Walked, Stopped};
ghost use Rattle.infer_steps.specs.Ready.{Follows};
ghost use Rattle.infer_steps.specs.View.{here, bad_view, code_of};
ghost use Rattle.infer_steps.specs.declared.bad.Bad.{Bad};
ghost use Rattle.infer_steps.specs.declared.bad.InferError.TheVariants as error;
ghost use Rattle.infer_types.specs.Once.{FieldsOnce as AnnotationFieldsOnce};
ghost use Rattle.infer_order.specs.Order.{ordered, AreDefinitions, IsOrder, IsSimple};
ghost use Rattle.infer_order.specs.Spots.{in_group};
ghost use Rattle.infer_patterns.specs.Once.{FieldsOnce, EachFieldsOnce};
ghost use Rattle.infer_groups.specs.Defined.{Defined, DefinitionsStop, at_child};
ghost use Rattle.infer_groups.specs.Members.{GroupDone};
ghost use Rattle.infer_groups.specs.Names.{named_views};
ghost use Rattle.infer_parts.specs.Formed.{Formed, AllFormed, FormedBranches, FormedGroups, FormedGroup, FormedOp};
ghost use Rattle.infer_parts.specs.Linked.{FormedLink, FormedLinks};
ghost use Rattle.infer_parts.specs.Steps.{CanWalk, one, two, Went, Stuck};
ghost use Rattle.infer_parts.specs.Parts.{listed, part_of, part_place, operand_of, operand_place, known_count};
ghost use Rattle.infer_parts.specs.Parts.{OpOpens, CallOpens, function_of, branch_at, BranchesWent, BranchesStuck};
ghost use Rattle.infer_parts.specs.Parts.{ArgumentsWent, ArgumentsStuck};
ghost use Rattle.infer_parts.specs.Chains.{OpensOne, Closable, Closes, ClosesStuck, Waits, Inside, Unwinds};
ghost use Rattle.infer_parts.specs.Chains.{UnwindsStuck};
ghost use Rattle.infer_exprs.specs.Finished.{GroupWalked, GroupStops, InferredStops, AnnotatedDefined, AnnotatedStops};
ghost use Rattle.infer_exprs.specs.First.{HasDefinition, StartsAt};
ghost use Rattle.infer_exprs.specs.Members.{AreTitled};

use crate::declare::declare;
use crate::entering::enter_annotated;
use crate::finishing::finish_group;
use crate::first::{First, first_of};
use crate::members::{members, titles};
use crate::operations::begin_op;
use crate::patterns::{begin_pattern, end_pattern};
use crate::refs::group_refs;
use elm_base::names::Name;
use elm_base::position::Pos;
use elm_canon::tree::{Annotation, Branch, Expr, Group, Link, Op, Pattern};
use infer_groups::annotated::close_annotated;
use infer_groups::groups::{Opened, open_group};
use infer_groups::infer_annotated_laws::body_law;
use infer_groups::sizes::check_size;
use infer_order::order::{Definition, Order, order_of};
use infer_parts::parts::{enter_both, go_inside, go_on, keep, leave_both, leave_one, number_of};
use infer_parts::reads::{begin_reads, end_reads};
use infer_patterns::bound::enter;
use infer_patterns::pattern::{infer_pattern, infer_patterns};
use infer_steps::accessor::infer_accessor;
use infer_steps::bad::InferError;
use infer_steps::calls::{begin_apply, begin_function, begin_logical};
use infer_steps::literal::infer_literal;
use infer_steps::make;
use infer_steps::scope::{Entered, Scope};
use infer_steps::state::State;
use infer_types::names::infer_name;
use std::alloc::{AllocError, Global};

/// Infers an expression, which begins at `position` or where it says, where the type of the variable `wanted` is
/// wanted.
#[cycle(inference)]
fn walk(
    alloc: Global,
    state: &mut State,
    scope: &mut Scope,
    expr: &Expr,
    position: Pos,
    wanted: u32,
) -> Result<(), InferError>
    requires can { CanWalk (code_of scope.old) (here state.old) }
    requires formed { Formed (expr_view expr.now) }
    requires wanted { Live (here state.old).depth (here state.old).store wanted }
    ensures scope { OnOk result (code_of scope.new ≡ code_of scope.old) }
    ensures walked { OnOk result (Went Wanted (code_of scope.old) (one wanted) below
        (listed (expr_view expr.now) position) (here state.old) (here state.new)) }
    ensures stopped { (b : Bad) → result ≡ Err (error.Bad b) → Stuck Wanted (code_of scope.old) (one wanted) below
        (listed (expr_view expr.now) position) (here state.old) (here state.new) (bad_view b) }
{
    match expr {
        Expr::Literal(literal) => infer_literal(alloc, state, position, literal, wanted),
        Expr::Name(name) => infer_name(alloc, state, scope, position, name, wanted),
        Expr::Accessor(name) => infer_accessor(alloc, state, position, name, wanted),
        Expr::Lambda(parameters, body) => {
            walk_function(alloc, state, scope, body, parameters, position, wanted)
        }
        Expr::Apply(callee, arguments) => {
            let count = arguments.len();
            let variables = walk_callee(alloc, state, scope, callee, count, position, wanted)?;
            walk_arguments(alloc, state, scope, arguments, position, &variables)
        }
        Expr::Strict(op, parts) => {
            walk_operation(alloc, state, scope, op, parts, position, wanted)
        }
        Expr::Access(inner, names) => {
            walk_access(alloc, state, scope, inner, names, position, wanted)
        }
        Expr::If(test, yes, no) => {
            let choice = make::bool(alloc, state)?;
            walk_part(alloc, state, scope, test, position, 0, choice)?;
            walk_part(alloc, state, scope, yes, position, 1, wanted)?;
            walk_part(alloc, state, scope, no, position, 2, wanted)
        }
        Expr::Chain(first, links) => {
            let mut kept = Vec::new(alloc);
            let inner = open_links(alloc, state, scope, links, position, wanted, &mut kept)?;
            walk(alloc, state, scope, first, position, inner)?;
            close_links(alloc, state, scope, links, position, &mut kept)
        }
        Expr::Let(groups, body) => {
            let entered = walk_groups(alloc, state, scope, groups)?;
            state.enter(1)?;
            walk(alloc, state, scope, body, position, wanted)?;
            leave_one(state);
            scope.leave(entered)?;
            Ok(())
        }
        Expr::Case(subject, branches) => {
            let variable = make::open(state)?;
            walk_part(alloc, state, scope, subject, position, 0, variable)?;
            walk_branches(alloc, state, scope, branches, position, variable, wanted)
        }
        Expr::Located(start, inner) => walk(alloc, state, scope, inner, *start, wanted),
    }
}

/// Infers an expression at the child `number`.
#[cycle(inference)]
fn walk_part(
    alloc: Global,
    state: &mut State,
    scope: &mut Scope,
    expr: &Expr,
    position: Pos,
    number: u32,
    wanted: u32,
) -> Result<(), InferError>
    requires can { CanWalk (code_of scope.old) (here state.old) }
    requires formed { Formed (expr_view expr.now) }
    requires wanted { Live (here state.old).depth (here state.old).store wanted }
    ensures scope { OnOk result (code_of scope.new ≡ code_of scope.old) }
    ensures walked { OnOk result (Went Wanted (code_of scope.old) (one wanted) (part_place number)
        (part_of (expr_view expr.now) position number) (here state.old) (here state.new)) }
    ensures stopped { (b : Bad) → result ≡ Err (error.Bad b) → Stuck Wanted (code_of scope.old) (one wanted)
        (part_place number) (part_of (expr_view expr.now) position number) (here state.old) (here state.new)
        (bad_view b) }
{
    state.enter(number)?;
    match walk(alloc, state, scope, expr, position, wanted) {
        Ok(()) => {
            leave_one(state);
            Ok(())
        }
        Err(error) => Err(error),
    }
}

/// Infers an expression at the child `number` of the child `outer`.
#[cycle(inference)]
fn walk_operand(
    alloc: Global,
    state: &mut State,
    scope: &mut Scope,
    expr: &Expr,
    position: Pos,
    outer: u32,
    number: u32,
    wanted: u32,
) -> Result<(), InferError>
    requires can { CanWalk (code_of scope.old) (here state.old) }
    requires formed { Formed (expr_view expr.now) }
    requires wanted { Live (here state.old).depth (here state.old).store wanted }
    ensures scope { OnOk result (code_of scope.new ≡ code_of scope.old) }
    ensures walked { OnOk result (Went Wanted (code_of scope.old) (one wanted) (operand_place outer number)
        (operand_of (expr_view expr.now) position outer number) (here state.old) (here state.new)) }
    ensures stopped { (b : Bad) → result ≡ Err (error.Bad b) → Stuck Wanted (code_of scope.old) (one wanted)
        (operand_place outer number) (operand_of (expr_view expr.now) position outer number) (here state.old)
        (here state.new) (bad_view b) }
{
    enter_both(state, outer, number)?;
    match walk(alloc, state, scope, expr, position, wanted) {
        Ok(()) => {
            leave_both(state);
            Ok(())
        }
        Err(error) => Err(error),
    }
}

/// Begins an operation of `count` parts, and infers the first of them. Returns the variables that the parts are wanted
/// at.
#[cycle(inference)]
fn walk_parts(
    alloc: Global,
    state: &mut State,
    scope: &mut Scope,
    op: &Op,
    parts: &[Expr],
    count: usize,
    position: Pos,
    wanted: u32,
) -> Result<Vec<u32>, InferError>
    requires can { CanWalk (code_of scope.old) (here state.old) }
    requires formed { FormedOp (op_view op.now) count }
    requires parts { AllFormed (exprs_of (map expr_view parts.now)) }
    requires few { length parts.now ≤ count }
    requires wanted { Live (here state.old).depth (here state.old).store wanted }
    ensures scope { OnOk result (code_of scope.new ≡ code_of scope.old) }
    ensures follows { OnOk result (Follows (here state.old) (here state.new)) }
    ensures live { IfOk result (λ vs. AllByRecursion (Live (here state.new).depth (here state.new).store) vs.items) }
    ensures number { IfOk result (λ vs. length vs.items ≡ known_count (op_view op.now) count (length parts.now)) }
    ensures opened { IfOk result (λ vs. OpOpens (code_of scope.old) wanted (op_view op.now) count position
        (map expr_view parts.now) vs.items (here state.old) (here state.new)) }
    ensures stopped { (b : Bad) → result ≡ Err (error.Bad b) → (more : List tree.Expr)
        → length parts.now + length more ≡ count → Stuck Wanted (code_of scope.old) (one wanted) below
        (listed (Strict (op_view op.now) (exprs_of (map expr_view parts.now ++ more))) position) (here state.old)
        (here state.new) (bad_view b) }
{
    let mut variables = begin_op(alloc, state, scope.known(), op, count, position, wanted)?;
    for (index, part) in parts.iter().enumerate() {
        let number = number_of(index)?;
        let variable = variables[index];
        walk_operand(alloc, state, scope, part, position, 0, number, variable)?;
        go_on(alloc, state, op, index, position, &mut variables)?;
    }
    Ok(variables)
}

/// Infers an operation with the values of all its parts.
#[cycle(inference)]
fn walk_operation(
    alloc: Global,
    state: &mut State,
    scope: &mut Scope,
    op: &Op,
    parts: &Vec<Expr>,
    position: Pos,
    wanted: u32,
) -> Result<(), InferError>
    requires can { CanWalk (code_of scope.old) (here state.old) }
    requires formed { Formed (Strict (op_view op.now) (exprs_of (map expr_view parts.now.items))) }
    requires wanted { Live (here state.old).depth (here state.old).store wanted }
    ensures scope { OnOk result (code_of scope.new ≡ code_of scope.old) }
    ensures walked { OnOk result (Went Wanted (code_of scope.old) (one wanted) below
        (listed (Strict (op_view op.now) (exprs_of (map expr_view parts.now.items))) position) (here state.old)
        (here state.new)) }
    ensures stopped { (b : Bad) → result ≡ Err (error.Bad b) → Stuck Wanted (code_of scope.old) (one wanted) below
        (listed (Strict (op_view op.now) (exprs_of (map expr_view parts.now.items))) position) (here state.old)
        (here state.new) (bad_view b) }
{
    match walk_parts(
        alloc,
        state,
        scope,
        op,
        parts,
        parts.len(),
        position,
        wanted,
    ) {
        Ok(_) => Ok(()),
        Err(error) => Err(error),
    }
}

/// Begins a call with `count` arguments, and infers the function. Returns the variables that the function and then the
/// arguments are wanted at.
#[cycle(inference)]
fn walk_callee(
    alloc: Global,
    state: &mut State,
    scope: &mut Scope,
    callee: &Expr,
    count: usize,
    position: Pos,
    wanted: u32,
) -> Result<Vec<u32>, InferError>
    requires can { CanWalk (code_of scope.old) (here state.old) }
    requires formed { Formed (expr_view callee.now) }
    requires wanted { Live (here state.old).depth (here state.old).store wanted }
    ensures scope { OnOk result (code_of scope.new ≡ code_of scope.old) }
    ensures follows { OnOk result (Follows (here state.old) (here state.new)) }
    ensures live { IfOk result (λ vs. AllByRecursion (Live (here state.new).depth (here state.new).store) vs.items) }
    ensures number { IfOk result (λ vs. length vs.items ≡ suc count) }
    ensures opened { IfOk result (λ vs. CallOpens (code_of scope.old) wanted (expr_view callee.now) count position []
        vs.items (here state.old) (here state.new)) }
    ensures stopped { (b : Bad) → result ≡ Err (error.Bad b) → (es : List tree.Expr) → length es ≡ count
        → Stuck Wanted (code_of scope.old) (one wanted) below
        (listed (Apply (expr_view callee.now) (exprs_of es)) position) (here state.old) (here state.new) (bad_view b) }
{
    let variables = begin_apply(alloc, state, count, wanted)?;
    let variable = variables[0];
    match walk_part(alloc, state, scope, callee, position, 0, variable) {
        Ok(()) => Ok(variables),
        Err(error) => Err(error),
    }
}

/// Infers arguments at the later of these variables, of which the first is for the function.
#[cycle(inference)]
fn walk_arguments(
    alloc: Global,
    state: &mut State,
    scope: &mut Scope,
    arguments: &[Expr],
    position: Pos,
    variables: &Vec<u32>,
) -> Result<(), InferError>
    requires can { CanWalk (code_of scope.old) (here state.old) }
    requires arguments { AllFormed (exprs_of (map expr_view arguments.now)) }
    requires few { length arguments.now < length variables.now.items }
    requires live { AllByRecursion (Live (here state.old).depth (here state.old).store) variables.now.items }
    ensures scope { OnOk result (code_of scope.new ≡ code_of scope.old) }
    ensures follows { OnOk result (Follows (here state.old) (here state.new)) }
    ensures opened { OnOk result (ArgumentsWent (code_of scope.old) position (map expr_view arguments.now)
        variables.now.items (here state.old) (here state.new)) }
    ensures stopped { (b : Bad) → result ≡ Err (error.Bad b) → ArgumentsStuck (code_of scope.old) position
        (map expr_view arguments.now) variables.now.items (here state.old) (here state.new) (bad_view b) }
{
    for (index, argument) in arguments.iter().enumerate() {
        let number = number_of(index)?;
        let variable = variables[index + 1];
        walk_operand(alloc, state, scope, argument, position, 1, number, variable)?;
    }
    Ok(())
}

/// Infers a function of these parameters. Of none it is the body.
#[cycle(inference)]
fn walk_function(
    alloc: Global,
    state: &mut State,
    scope: &mut Scope,
    body: &Expr,
    parameters: &[Pattern],
    position: Pos,
    wanted: u32,
) -> Result<(), InferError>
    requires can { CanWalk (code_of scope.old) (here state.old) }
    requires parameters { EachFieldsOnce (patterns_of (map pattern_view parameters.now)) }
    requires body { Formed (expr_view body.now) }
    requires wanted { Live (here state.old).depth (here state.old).store wanted }
    ensures scope { OnOk result (code_of scope.new ≡ code_of scope.old) }
    ensures walked { OnOk result (Went Wanted (code_of scope.old) (one wanted) below
        (function_of (map pattern_view parameters.now) (expr_view body.now) position) (here state.old)
        (here state.new)) }
    ensures stopped { (b : Bad) → result ≡ Err (error.Bad b) → Stuck Wanted (code_of scope.old) (one wanted) below
        (function_of (map pattern_view parameters.now) (expr_view body.now) position) (here state.old)
        (here state.new) (bad_view b) }
{
    let begun = begin_function(alloc, state, parameters.len(), position, wanted)?;
    let Some((value, variables)) = begun.split_first() else {
        return Ok(());
    };
    let bound = infer_patterns(alloc, state, scope.known(), position, parameters, variables)?;
    let entered = enter(alloc, scope, bound)?;
    walk_part(alloc, state, scope, body, position, 1, *value)?;
    scope.leave(entered)?;
    Ok(())
}

/// Infers branches for values of the type of the variable `subject`, at the children of child 1.
#[cycle(inference)]
fn walk_branches(
    alloc: Global,
    state: &mut State,
    scope: &mut Scope,
    branches: &[Branch],
    position: Pos,
    subject: u32,
    wanted: u32,
) -> Result<(), InferError>
    requires can { CanWalk (code_of scope.old) (here state.old) }
    requires branches { FormedBranches (branches_of (map branch_view branches.now)) }
    requires subject { Live (here state.old).depth (here state.old).store subject }
    requires wanted { Live (here state.old).depth (here state.old).store wanted }
    ensures scope { OnOk result (code_of scope.new ≡ code_of scope.old) }
    ensures walked { OnOk result (BranchesWent (code_of scope.old) subject wanted position
        (map branch_view branches.now) (here state.old) (here state.new)) }
    ensures stopped { (b : Bad) → result ≡ Err (error.Bad b) → BranchesStuck (code_of scope.old) subject wanted position
        (map branch_view branches.now) (here state.old) (here state.new) (bad_view b) }
{
    for (index, branch) in branches.iter().enumerate() {
        let number = number_of(index)?;
        walk_branch(
            alloc, state, scope, branch, position, number, subject, wanted,
        )?;
    }
    Ok(())
}

/// Infers a branch at the child `number` of child 1.
#[cycle(inference)]
fn walk_branch(
    alloc: Global,
    state: &mut State,
    scope: &mut Scope,
    branch: &Branch,
    position: Pos,
    number: u32,
    subject: u32,
    wanted: u32,
) -> Result<(), InferError>
    requires can { CanWalk (code_of scope.old) (here state.old) }
    requires pattern { FieldsOnce (branch_view branch.now).0 }
    requires body { Formed (branch_view branch.now).1 }
    requires subject { Live (here state.old).depth (here state.old).store subject }
    requires wanted { Live (here state.old).depth (here state.old).store wanted }
    ensures scope { OnOk result (code_of scope.new ≡ code_of scope.old) }
    ensures walked { OnOk result (Went (Wanted × Wanted) (code_of scope.old) (two subject wanted)
        (operand_place 1 number)
        (branch_at (branch_view branch.now).0 (branch_view branch.now).1 position number) (here state.old)
        (here state.new)) }
    ensures stopped { (b : Bad) → result ≡ Err (error.Bad b) → Stuck (Wanted × Wanted) (code_of scope.old)
        (two subject wanted) (operand_place 1 number)
        (branch_at (branch_view branch.now).0 (branch_view branch.now).1 position number) (here state.old)
        (here state.new) (bad_view b) }
{
    enter_both(state, 1, number)?;
    let bound = infer_pattern(
        alloc,
        state,
        scope.known(),
        position,
        &branch.pattern,
        subject,
    )?;
    let entered = enter(alloc, scope, bound)?;
    walk_part(alloc, state, scope, &branch.body, position, 1, wanted)?;
    scope.leave(entered)?;
    leave_both(state);
    Ok(())
}

/// Infers `a.x.y`.
#[cycle(inference)]
fn walk_access(
    alloc: Global,
    state: &mut State,
    scope: &mut Scope,
    inner: &Expr,
    names: &[Name],
    position: Pos,
    wanted: u32,
) -> Result<(), InferError>
    requires can { CanWalk (code_of scope.old) (here state.old) }
    requires formed { Formed (expr_view inner.now) }
    requires wanted { Live (here state.old).depth (here state.old).store wanted }
    ensures scope { OnOk result (code_of scope.new ≡ code_of scope.old) }
    ensures walked { OnOk result (Went Wanted (code_of scope.old) (one wanted) below
        (listed (accessed (expr_view inner.now) names.now) position) (here state.old) (here state.new)) }
    ensures stopped { (b : Bad) → result ≡ Err (error.Bad b) → Stuck Wanted (code_of scope.old) (one wanted) below
        (listed (accessed (expr_view inner.now) names.now) position) (here state.old) (here state.new)
        (bad_view b) }
{
    let begun = begin_reads(alloc, state, names, position, wanted)?;
    walk(alloc, state, scope, inner, position, begun.owner)?;
    end_reads(state, names, position, begun.fields)
}

/// Begins the things that are done with an expression, from the last, which is outside of all others. Returns the
/// variable that the expression is wanted at.
#[cycle(inference)]
fn open_links(
    alloc: Global,
    state: &mut State,
    scope: &mut Scope,
    links: &[Link],
    position: Pos,
    wanted: u32,
    kept: &mut Vec<Vec<u32>>,
) -> Result<u32, InferError>
    requires can { CanWalk (code_of scope.old) (here state.old) }
    requires formed { FormedLinks (map link_view links.now) }
    requires wanted { Live (here state.old).depth (here state.old).store wanted }
    requires none { kept.old.items ≡ [] }
    ensures scope { OnOk result (code_of scope.new ≡ code_of scope.old) }
    ensures can { OnOk result (CanWalk (code_of scope.old) (here state.new)) }
    ensures live { IfOk result (λ v. Live (here state.new).depth (here state.new).store v) }
    ensures waits { IfOk result (λ v. Waits (code_of scope.old) position (here state.old) wanted
        (map link_view links.now)
        (map (λ vs. vs.items) kept.new.items) (here state.new) v) }
    ensures stopped { (b : Bad) → result ≡ Err (error.Bad b) → (e : tree.Expr) → Stuck Wanted (code_of scope.old)
        (one wanted) below (listed (linked e (map link_view links.now)) position) (here state.old) (here state.new)
        (bad_view b) }
{
    let mut inner = wanted;
    let mut left = links.len();
    while left > 0 {
        left -= 1;
        inner = open_link(alloc, state, scope, &links[left], position, inner, kept)?;
    }
    Ok(inner)
}

/// Ends what was begun with an expression, from the first.
#[cycle(inference)]
fn close_links(
    alloc: Global,
    state: &mut State,
    scope: &mut Scope,
    links: &[Link],
    position: Pos,
    kept: &mut Vec<Vec<u32>>,
) -> Result<(), InferError>
    requires formed { FormedLinks (map link_view links.now) }
    requires open { Inside (code_of scope.old) position (map link_view links.now) (map (λ vs. vs.items) kept.old.items)
        (here state.old) }
    ensures scope { OnOk result (code_of scope.new ≡ code_of scope.old) }
    ensures closed { OnOk result (Unwinds (code_of scope.old) position (map link_view links.now)
        (map (λ vs. vs.items) kept.old.items) (here state.old) (here state.new)) }
    ensures stopped { (b : Bad) → result ≡ Err (error.Bad b) → UnwindsStuck (code_of scope.old) position
        (map link_view links.now) (map (λ vs. vs.items) kept.old.items) (here state.old) (here state.new)
        (bad_view b) }
{
    for link in links {
        close_link(alloc, state, scope, link, position, kept)?;
    }
    Ok(())
}

/// Begins one thing that is done with an expression, infers what stands before the expression, and goes to its place.
/// Returns the variable that it is wanted at, and keeps the others.
#[cycle(inference)]
fn open_link(
    alloc: Global,
    state: &mut State,
    scope: &mut Scope,
    link: &Link,
    position: Pos,
    wanted: u32,
    kept: &mut Vec<Vec<u32>>,
) -> Result<u32, InferError>
    requires can { CanWalk (code_of scope.old) (here state.old) }
    requires formed { FormedLink (link_view link.now) }
    requires wanted { Live (here state.old).depth (here state.old).store wanted }
    ensures scope { OnOk result (code_of scope.new ≡ code_of scope.old) }
    ensures opened { IfOk result (λ v. OpensOne (code_of scope.old) position (link_view link.now)
        (map (λ vs. vs.items) kept.old.items) (map (λ vs. vs.items) kept.new.items) (here state.old) wanted
        (here state.new) v) }
    ensures stopped { (b : Bad) → result ≡ Err (error.Bad b) → (e : tree.Expr) → Stuck Wanted (code_of scope.old)
        (one wanted) below (listed (done (link_view link.now) e) position) (here state.old) (here state.new)
        (bad_view b) }
{
    match link {
        Link::Given(callee, arguments) => {
            let count = arguments.len();
            let variables = walk_callee(alloc, state, scope, callee, count + 1, position, wanted)?;
            walk_arguments(alloc, state, scope, arguments, position, &variables)?;
            let inner = go_inside(state, 1, count, variables, count + 1, kept)?;
            Ok(inner)
        }
        Link::Composed(callee, _) => {
            open_composed(alloc, state, scope, callee, position, wanted, kept)
        }
        Link::After(op, parts) => {
            open_after(alloc, state, scope, op, parts, position, wanted, kept)
        }
        Link::Before(op, _) => open_before(alloc, state, scope, op, position, wanted, kept),
        Link::Decided(place, _, left) => open_decided(
            alloc, state, scope, *place, left, position, wanted, kept,
        ),
    }
}

/// The same as `open_link`, for a function of which the expression is the first of two arguments.
#[cycle(inference)]
fn open_composed(
    alloc: Global,
    state: &mut State,
    scope: &mut Scope,
    callee: &Expr,
    position: Pos,
    wanted: u32,
    kept: &mut Vec<Vec<u32>>,
) -> Result<u32, InferError>
    requires can { CanWalk (code_of scope.old) (here state.old) }
    requires formed { Formed (expr_view callee.now) }
    requires wanted { Live (here state.old).depth (here state.old).store wanted }
    ensures scope { OnOk result (code_of scope.new ≡ code_of scope.old) }
    ensures opened { IfOk result (λ v. (x : tree.Expr) → OpensOne (code_of scope.old) position
        (Composed (expr_view callee.now) x)
        (map (λ vs. vs.items) kept.old.items) (map (λ vs. vs.items) kept.new.items) (here state.old) wanted
        (here state.new) v) }
    ensures stopped { (b : Bad) → result ≡ Err (error.Bad b) → (x : tree.Expr) → (e : tree.Expr)
        → Stuck Wanted (code_of scope.old) (one wanted) below
        (listed (done (Composed (expr_view callee.now) x) e) position) (here state.old) (here state.new) (bad_view b) }
{
    let variables = walk_callee(alloc, state, scope, callee, 2, position, wanted)?;
    let inner = go_inside(state, 1, 0, variables, 1, kept)?;
    Ok(inner)
}

/// The same as `open_link`, for an operation with all its parts but the last.
#[cycle(inference)]
fn open_after(
    alloc: Global,
    state: &mut State,
    scope: &mut Scope,
    op: &Op,
    parts: &Vec<Expr>,
    position: Pos,
    wanted: u32,
    kept: &mut Vec<Vec<u32>>,
) -> Result<u32, InferError>
    requires can { CanWalk (code_of scope.old) (here state.old) }
    requires formed { FormedLink (After (op_view op.now) (map expr_view parts.now.items)) }
    requires wanted { Live (here state.old).depth (here state.old).store wanted }
    ensures scope { OnOk result (code_of scope.new ≡ code_of scope.old) }
    ensures opened { IfOk result (λ v. OpensOne (code_of scope.old) position
        (After (op_view op.now) (map expr_view parts.now.items))
        (map (λ vs. vs.items) kept.old.items) (map (λ vs. vs.items) kept.new.items) (here state.old) wanted
        (here state.new) v) }
    ensures stopped { (b : Bad) → result ≡ Err (error.Bad b) → (e : tree.Expr) → Stuck Wanted (code_of scope.old)
        (one wanted) below (listed (done (After (op_view op.now) (map expr_view parts.now.items)) e) position)
        (here state.old) (here state.new) (bad_view b) }
{
    let count = parts.len();
    let variables = walk_parts(alloc, state, scope, op, parts, count + 1, position, wanted)?;
    let inner = go_inside(state, 0, count, variables, count, kept)?;
    Ok(inner)
}

/// The same as `open_link`, for an operation of which the expression is the first of two parts.
fn open_before(
    alloc: Global,
    state: &mut State,
    scope: &mut Scope,
    op: &Op,
    position: Pos,
    wanted: u32,
    kept: &mut Vec<Vec<u32>>,
) -> Result<u32, InferError>
    requires can { CanWalk (code_of scope.old) (here state.old) }
    requires formed { FormedOp (op_view op.now) 2 }
    requires wanted { Live (here state.old).depth (here state.old).store wanted }
    ensures scope { OnOk result (code_of scope.new ≡ code_of scope.old) }
    ensures opened { IfOk result (λ v. (x : tree.Expr) → OpensOne (code_of scope.old) position
        (Before (op_view op.now) x)
        (map (λ vs. vs.items) kept.old.items) (map (λ vs. vs.items) kept.new.items) (here state.old) wanted
        (here state.new) v) }
    ensures stopped { (b : Bad) → result ≡ Err (error.Bad b) → (x : tree.Expr) → (e : tree.Expr)
        → Stuck Wanted (code_of scope.old) (one wanted) below (listed (done (Before (op_view op.now) x) e) position)
        (here state.old) (here state.new) (bad_view b) }
{
    let variables = begin_op(alloc, state, scope.known(), op, 2, position, wanted)?;
    let inner = go_inside(state, 0, 0, variables, 0, kept)?;
    Ok(inner)
}

/// The same as `open_link`, for `&&` or `||` at `place`, after its left side.
#[cycle(inference)]
fn open_decided(
    alloc: Global,
    state: &mut State,
    scope: &mut Scope,
    place: Pos,
    left: &Expr,
    position: Pos,
    wanted: u32,
    kept: &mut Vec<Vec<u32>>,
) -> Result<u32, InferError>
    requires can { CanWalk (code_of scope.old) (here state.old) }
    requires formed { Formed (expr_view left.now) }
    requires wanted { Live (here state.old).depth (here state.old).store wanted }
    ensures scope { OnOk result (code_of scope.new ≡ code_of scope.old) }
    ensures opened { IfOk result (λ v. (x : Connective) → OpensOne (code_of scope.old) position
        (Decided place x (expr_view left.now))
        (map (λ vs. vs.items) kept.old.items) (map (λ vs. vs.items) kept.new.items) (here state.old) wanted
        (here state.new) v) }
    ensures stopped { (b : Bad) → result ≡ Err (error.Bad b) → (x : Connective) → (e : tree.Expr)
        → Stuck Wanted (code_of scope.old) (one wanted) below
        (listed (done (Decided place x (expr_view left.now)) e) position) (here state.old) (here state.new)
        (bad_view b) }
{
    let operands = begin_logical(alloc, state, place, wanted)?;
    walk_part(alloc, state, scope, left, position, 0, operands.left)?;
    state.enter(1)?;
    keep(kept, Vec::new(alloc))?;
    Ok(operands.right)
}

/// Goes back from the place of an expression with which this is done, and infers what stands after the expression.
#[cycle(inference)]
fn close_link(
    alloc: Global,
    state: &mut State,
    scope: &mut Scope,
    link: &Link,
    position: Pos,
    kept: &mut Vec<Vec<u32>>,
) -> Result<(), InferError>
    requires formed { FormedLink (link_view link.now) }
    requires open { Closable (code_of scope.old) position (link_view link.now) (map (λ vs. vs.items) kept.old.items)
        (here state.old) }
    ensures scope { OnOk result (code_of scope.new ≡ code_of scope.old) }
    ensures closed { OnOk result (Closes (code_of scope.old) position (link_view link.now)
        (map (λ vs. vs.items) kept.old.items) (map (λ vs. vs.items) kept.new.items) (here state.old)
        (here state.new)) }
    ensures stopped { (b : Bad) → result ≡ Err (error.Bad b) → ClosesStuck (code_of scope.old) position
        (link_view link.now) (map (λ vs. vs.items) kept.old.items) (here state.old) (here state.new) (bad_view b) }
{
    let Some(own) = kept.pop() else {
        return Ok(());
    };
    let mut variables = own;
    match link {
        Link::Given(_, _) => {
            leave_both(state);
            Ok(())
        }
        Link::Composed(_, argument) => {
            leave_both(state);
            let variable = variables[2];
            walk_operand(alloc, state, scope, argument, position, 1, 1, variable)
        }
        Link::After(op, parts) => {
            leave_both(state);
            go_on(alloc, state, op, parts.len(), position, &mut variables)
        }
        Link::Before(op, part) => {
            leave_both(state);
            go_on(alloc, state, op, 0, position, &mut variables)?;
            let variable = variables[1];
            walk_operand(alloc, state, scope, part, position, 0, 1, variable)
        }
        Link::Decided(_, _, _) => {
            leave_one(state);
            Ok(())
        }
    }
}

/// Infers the definitions of `let` at child 0, and takes their names into scope. Returns what these stood for before.
#[cycle(inference)]
fn walk_groups(
    alloc: Global,
    state: &mut State,
    scope: &mut Scope,
    groups: &[Group],
) -> Result<Vec<Entered>, InferError>
    requires can { CanWalk (code_of scope.old) (here state.old) }
    requires formed { FormedGroups (groups_of (map group_view groups.now)) }
    requires simple { IsSimple (groups_of (map group_view groups.now)) }
    ensures left { IfOk result (λ es. without es.items (code_of scope.new) ≡ code_of scope.old) }
    ensures follows { OnOk result (Follows (here state.old) (here state.new)) }
    ensures defined { OnOk result (Defined (code_of scope.old) (code_of scope.new) below
        (list_definitions (definitions (groups_of (map group_view groups.now)))) (at_child (here state.old) 0)
        (at_child (here state.new) 0)) }
    ensures stopped { (b : Bad) → result ≡ Err (error.Bad b) → DefinitionsStop (code_of scope.old) below
        (list_definitions (definitions (groups_of (map group_view groups.now)))) (at_child (here state.old) 0)
        (here state.new) (bad_view b) }
{
    state.enter(0)?;
    let all = group_refs(alloc, groups)?;
    let order = order_of(alloc, &all)?;
    let mut entered = declare(alloc, state, scope, &order.definitions)?;
    for number in 0..order.groups.len() {
        let walked = walk_group(alloc, state, scope, &all, &order, number)?;
        finish_group(alloc, state, scope, walked, &mut entered)?;
    }
    leave_one(state);
    Ok(entered)
}

/// Infers the definitions of the type group of the number `number` of the groups `groups`, whose order is `order`, at
/// the child of that number. Where they have no annotation their names are in scope as those of one type; the result is
/// for `close_group`, which makes them general. The errors: the items of the group stop at a bad one; memory or numbers
/// ran out.
#[cycle(inference)]
pub fn walk_group(
    alloc: Global,
    state: &mut State,
    scope: &mut Scope,
    groups: &[&Group],
    order: &Order<'_>,
    number: usize,
) -> Result<Option<Opened>, InferError>
    requires can { CanWalk (code_of scope.old) (here state.old) }
    requires formed { FormedGroups (groups_of (map (λ g. group_view g.now) groups.now)) }
    requires simple { IsSimple (groups_of (map (λ g. group_view g.now) groups.now)) }
    requires order { IsOrder (map (λ g. group_view g.now) groups.now) order.now }
    requires number { number < length order.now.groups.items }
    ensures walked { IfOk result (λ o. (g : List PlainDefinition)
        → slice_get (type_groups (ordered (map (λ g. group_view g.now) groups.now))) number ≡ Some g
        → GroupWalked (code_of scope.old) (code_of scope.new) g number o (here state.old) (here state.new)) }
    ensures stopped { (b : Bad) → result ≡ Err (error.Bad b) → (g : List PlainDefinition)
        → slice_get (type_groups (ordered (map (λ g. group_view g.now) groups.now))) number ≡ Some g
        → GroupStops (code_of scope.old) g number (here state.old) (here state.new) (bad_view b) }
{
    let members = members(alloc, order, number)?;
    match first_of(&members) {
        First::Annotated(group, function, place, annotation) => {
            walk_annotated(
                alloc,
                state,
                scope,
                groups[group],
                function,
                annotation,
                place,
                number,
            )?;
            Ok(None)
        }
        First::Pattern(group, place) => {
            let opened = walk_destructured(alloc, state, scope, groups[group], place, number)?;
            Ok(Some(opened))
        }
        First::Inferred => {
            let opened = walk_members(alloc, state, scope, groups, &members, number)?;
            Ok(Some(opened))
        }
    }
}

/// Infers definitions without annotations, the members of the type group of the number `number`, each at its child of
/// the child of that number. Returns the group, which is open.
#[cycle(inference)]
fn walk_members(
    alloc: Global,
    state: &mut State,
    scope: &mut Scope,
    groups: &[&Group],
    members: &[Definition<'_>],
    number: usize,
) -> Result<Opened, InferError>
    requires can { CanWalk (code_of scope.old) (here state.old) }
    requires formed { FormedGroups (groups_of (map (λ g. group_view g.now) groups.now)) }
    requires members { AreTitled (map (λ g. group_view g.now) groups.now) members.now }
    ensures left { IfOk result (λ o. without o.entered.items (code_of scope.new) ≡ code_of scope.old) }
    ensures walked { IfOk result (λ o. (g : List PlainDefinition)
        → AreDefinitions (map (λ g. group_view g.now) groups.now) members.now g → GroupDone (code_of scope.old) g number
        (named_views o.names.items) (here state.old) (here state.new)) }
    ensures stopped { (b : Bad) → result ≡ Err (error.Bad b) → (g : List PlainDefinition)
        → AreDefinitions (map (λ g. group_view g.now) groups.now) members.now g → InferredStops (code_of scope.old) g
        number (here state.old) (here state.new) (bad_view b) }
{
    let titles = titles(alloc, members)?;
    let opened = open_group(alloc, state, scope, &titles, number)?;
    for (index, member) in members.iter().enumerate() {
        let child = number_of(index)?;
        let variable = opened.names[index].variable;
        state.enter(child)?;
        walk_definition(
            alloc,
            state,
            scope,
            groups[member.group],
            member.function,
            variable,
        )?;
        check_size(alloc, &state.store, member.place, variable)?;
        leave_one(state);
    }
    Ok(opened)
}

/// Infers the definition of the number `function` in a group, at the place of the state and inside the definition.
#[cycle(inference)]
fn walk_definition(
    alloc: Global,
    state: &mut State,
    scope: &mut Scope,
    group: &Group,
    function: usize,
    wanted: u32,
) -> Result<(), InferError>
    requires can { CanWalk (code_of scope.old) (here state.old) }
    requires formed { FormedGroup (group_view group.now) }
    requires defined { HasDefinition (group_view group.now) function }
    requires wanted { Live (here state.old).depth (here state.old).store wanted }
    ensures scope { OnOk result (code_of scope.new ≡ code_of scope.old) }
    ensures walked { OnOk result ((d : PlainDefinition) → in_group (Some (group_view group.now)) function ≡ Some d
        → Went Wanted (code_of scope.old) (one wanted) below (λ s q w. d.list s q w) (here state.old)
        (here state.new)) }
    ensures stopped { (b : Bad) → result ≡ Err (error.Bad b) → (d : PlainDefinition)
        → in_group (Some (group_view group.now)) function ≡ Some d → Stuck Wanted (code_of scope.old) (one wanted) below
        (λ s q w. d.list s q w) (here state.old) (here state.new) (bad_view b) }
{
    match group {
        Group::Together(functions) => {
            let each = &functions[function];
            walk_function(
                alloc,
                state,
                scope,
                &each.body,
                &each.parameters,
                each.title.place,
                wanted,
            )
        }
        Group::Constant(title, body) => {
            walk_function(alloc, state, scope, body, &[], title.place, wanted)
        }
        Group::Destructure(_, _) => unreachable!(),
    }
}

/// Infers the definition of the number `function` in a group, which is written at `place` and has the annotation
/// `annotation`. It is the type group of the number `number`, and stands at the child of that number.
#[cycle(inference)]
fn walk_annotated(
    alloc: Global,
    state: &mut State,
    scope: &mut Scope,
    group: &Group,
    function: usize,
    annotation: &Annotation,
    place: Pos,
    number: usize,
) -> Result<(), InferError>
    requires can { CanWalk (code_of scope.old) (here state.old) }
    requires formed { FormedGroup (group_view group.now) }
    requires defined { HasDefinition (group_view group.now) function }
    requires place { (d : PlainDefinition) → in_group (Some (group_view group.now)) function ≡ Some d
        → place ≡ d.place }
    requires once { AnnotationFieldsOnce (annotation_view annotation.now) }
    ensures scope { OnOk result (code_of scope.new ≡ code_of scope.old) }
    ensures walked { OnOk result ((d : PlainDefinition) → in_group (Some (group_view group.now)) function ≡ Some d
        → AnnotatedDefined (code_of scope.old) d (annotation_view annotation.now) number
        (here state.old) (here state.new)) }
    ensures stopped { (b : Bad) → result ≡ Err (error.Bad b) → (d : PlainDefinition)
        → in_group (Some (group_view group.now)) function ≡ Some d → AnnotatedStops
        (code_of scope.old) d (annotation_view annotation.now) number (here state.old) (here state.new)
        (bad_view b) }
{
    body_law();
    let begun = enter_annotated(alloc, state, scope, place, annotation, number)?;
    state.enter(0)?;
    walk_definition(alloc, state, scope, group, function, begun.variable)?;
    leave_one(state);
    close_annotated(alloc, state, scope, place, begun.inside, begun.variable)
}

/// Infers a pattern with its value, which begins at `place`. It is the type group of the number `number`, and stands at
/// child 0 of the child of that number. Returns the group, which is open.
#[cycle(inference)]
fn walk_destructured(
    alloc: Global,
    state: &mut State,
    scope: &mut Scope,
    group: &Group,
    place: Pos,
    number: usize,
) -> Result<Opened, InferError>
    requires can { CanWalk (code_of scope.old) (here state.old) }
    requires formed { FormedGroup (group_view group.now) }
    requires pattern { StartsAt place (group_view group.now) }
    ensures left { IfOk result (λ o. without o.entered.items (code_of scope.new) ≡ code_of scope.old) }
    ensures walked { IfOk result (λ o. GroupDone (code_of scope.old) (group_definitions (group_view group.now)) number
        (named_views o.names.items) (here state.old) (here state.new)) }
    ensures stopped { (b : Bad) → result ≡ Err (error.Bad b) → InferredStops (code_of scope.old)
        (group_definitions (group_view group.now)) number (here state.old) (here state.new) (bad_view b) }
{
    match group {
        Group::Destructure(pattern, body) => {
            let begun = begin_pattern(alloc, state, scope, pattern, place, number)?;
            state.enter(1)?;
            walk(alloc, state, scope, body, place, begun.variable)?;
            end_pattern(alloc, state, place, begun.variable)?;
            Ok(Opened {
                names: begun.names,
                entered: begun.entered,
            })
        }
        Group::Together(_) => unreachable!(),
        Group::Constant(_, _) => unreachable!(),
    }
}

/// Infers the expression `expr`, which begins at `start` or where it says, where the type of the variable `wanted` is
/// wanted. The errors: its items stop at a bad one; memory or numbers ran out.
pub fn infer_expr(
    alloc: Global,
    state: &mut State,
    scope: &mut Scope,
    expr: &Expr,
    start: Pos,
    wanted: u32,
) -> Result<(), InferError>
    requires can { CanWalk (code_of scope.old) (here state.old) }
    requires formed { Formed (expr_view expr.now) }
    requires wanted { Live (here state.old).depth (here state.old).store wanted }
    ensures scope { OnOk result (code_of scope.new ≡ code_of scope.old) }
    ensures follows { OnOk result (Follows (here state.old) (here state.new)) }
    ensures walked { OnOk result (Walked (code_of scope.old) wanted (listed (expr_view expr.now) start) (here state.old)
        (here state.new)) }
    ensures stopped { (b : Bad) → result ≡ Err (error.Bad b) → Stopped (code_of scope.old) wanted
        (listed (expr_view expr.now) start) (here state.old) (here state.new) (bad_view b) }
{
    walk(alloc, state, scope, expr, start, wanted)
}
