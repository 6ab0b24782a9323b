//! The JavaScript of an expression, as a tree: in return position as a block, and where an expression is wanted.
//!
//! `made` is everywhere the number of the next made name. Each error means that memory ran out.

ghost use Rattle.std.specs.Prelude.{◌≡◌, ◌≤◌, suc, ◌+◌, ◌∷◌, ◌++◌, ℕ, List, length, drop, map, IfOk, OnOk};
ghost use Rattle.elm_canon.specs.Tree as plain;
ghost use Rattle.elm_canon.specs.Tree.{exprs_of, branches_of, groups_of};
ghost use Rattle.elm_canon.specs.View.{expr_view, patterns_view, op_view, link_view, branch_view, group_view};
ghost use Rattle.elm_canon.specs.View.{function_view, linked, done};
ghost use Rattle.js_tree.specs.Tree as output;
ghost use Rattle.js_tree.specs.Tree.{Js, Stmts, Made};
ghost use Rattle.js_tree.specs.Postorder.{Tree, Expression, BlockOf, StatementsOf, NoStatement, Before, NoItem};
ghost use Rattle.js_tree.specs.Postorder.{trees_of, top, statements, statements_then};
ghost use Rattle.js_emit.specs.Names.{now};
ghost use Rattle.js_emit.specs.Patterns as patterns;
ghost use Rattle.js_emit.specs.Patterns.{made_for, arrows};
ghost use Rattle.js_emit.specs.Loops.{Outside, variables};
ghost use Rattle.js_emit.specs.Made.{made_in, made_all, made_round, made_choice, made_branches, made_groups};
ghost use Rattle.js_emit.specs.Made.{made_group};
ghost use Rattle.js_emit.specs.Emit as spec;
ghost use Rattle.js_emit.specs.Emit.{emit, values, calls, bodies, chosen, numbered, groups, group};
ghost use Rattle.emit_exprs.specs.Turns.{loop_view};
ghost use Rattle.js_emit.specs.Parts.{with_parts};
ghost use Rattle.emit_exprs.specs.Frames.{Grown, pairs};
ghost use Rattle.emit_exprs.specs.Chains.{value, placed, before, before_all, made_before, made_before_all, function_at};
ghost use Rattle.emit_exprs.specs.Chains.{made_by, turn_before, turn_after, turns_by};

use crate::branches::{begin_choice, end_tests, push_test};
use crate::emit_frames_loops::{begin_loop, end_loop};
use crate::emit_frames_turns::{end_turn, keep_value};
use crate::functions::{has_constant, push_accessor, push_properties};
use crate::loops::{Loop, goes_round, loop_of};
use crate::made::next_made;
use crate::turns::is_loop;
use decision_tree::bound::push_consts;
use decision_tree::parameters::{begin_arrows, end_arrows};
use elm_canon::tree::{Branch, Expr, Function, Group, Link, Op, Pattern};
use js_emit::names::js_name;
use js_emit::parts::{add_part, begin_op, end_op, js_connective};
use js_emit::push::{push_literal, push_name};
use js_tree::tree::{Name, Node};
use js_tree::trees::Trees;
use std::alloc::{AllocError, Global};

/// Begins statements with a constant. The result is the number of its made name.
fn begin_constant(trees: &mut Trees, made: &mut u64) -> Result<u64, AllocError>
    ensures begun { OnOk result (trees_of trees.new ≡ StatementsOf NoStatement ∷ trees_of trees.old) }
    ensures number { IfOk result (λ n. n ≡ made.old) }
    ensures counted { OnOk result (made.new ≡ suc made.old) }
{
    trees.push(Node::NoStatement)?;
    next_made(made)
}

/// Whether what is done last with an expression is the next turn of the loop `place`.
fn goes_round_by(place: &Loop, link: &Link) -> bool
    ensures { (e : plain.Expr) → result ≡ turns_by (loop_view place.now) (link_view link.now) e }
{
    match link {
        Link::Given(callee, arguments) => goes_round(place, callee, arguments.len() + 1),
        Link::Composed(callee, _) => goes_round(place, callee, 2),
        Link::After(_, _) => false,
        Link::Before(_, _) => false,
        Link::Decided(_, _, _) => false,
    }
}

/// Adds an expression where an expression is wanted.
#[cycle(emission)]
pub fn push_value(
    alloc: Global,
    trees: &mut Trees,
    expr: &Expr,
    made: &mut u64,
) -> Result<(), AllocError>
    ensures emitted { OnOk result (trees_of trees.new
        ≡ Expression (value made.old (expr_view expr.now)) ∷ trees_of trees.old) }
    ensures counted { OnOk result (made.new ≡ made.old + made_in Outside (expr_view expr.now)) }
{
    match expr {
        Expr::Literal(literal) => push_literal(trees, literal),
        Expr::Name(name) => push_name(alloc, trees, name),
        Expr::Accessor(field) => {
            let number = next_made(made)?;
            push_accessor(alloc, trees, field, number)
        }
        Expr::Lambda(parameters, body) => push_arrows(alloc, trees, body, parameters, made),
        Expr::Apply(callee, arguments) => {
            push_value(alloc, trees, callee, made)?;
            push_calls(alloc, trees, arguments, made)
        }
        Expr::Strict(op, parts) => {
            let count = parts.len();
            push_parts(alloc, trees, op, count, parts, made)?;
            end_op(trees, op, count)
        }
        Expr::Access(inner, fields) => {
            push_value(alloc, trees, inner, made)?;
            push_properties(alloc, trees, fields)
        }
        Expr::If(condition, yes, no) => {
            push_value(alloc, trees, condition, made)?;
            push_value(alloc, trees, yes, made)?;
            push_value(alloc, trees, no, made)?;
            trees.push(Node::Conditional)
        }
        Expr::Chain(first, links) => {
            push_before_all(alloc, trees, links, made)?;
            push_value(alloc, trees, first, made)?;
            push_after_all(alloc, trees, links, made)
        }
        Expr::Let(definitions, body) => {
            if has_constant(definitions) {
                push_groups(alloc, trees, definitions, made)?;
                push_block(alloc, trees, &Loop::Outside, body, made)?;
                trees.push(Node::Ended)?;
                trees.push(Node::Block)
            } else {
                push_value(alloc, trees, body, made)
            }
        }
        Expr::Case(subject, branches) => {
            let number = begin_constant(trees, made)?;
            push_value(alloc, trees, subject, made)?;
            push_choice_of(alloc, trees, &Loop::Outside, number, branches, made)?;
            trees.push(Node::Block)
        }
        Expr::Located(_, inner) => push_value(alloc, trees, inner, made),
    }
}

/// Adds the block of an expression in return position, which stands at `place`.
#[cycle(emission)]
pub fn push_block(
    alloc: Global,
    trees: &mut Trees,
    place: &Loop,
    expr: &Expr,
    made: &mut u64,
) -> Result<(), AllocError>
    ensures emitted { OnOk result (trees_of trees.new
        ≡ BlockOf (emit made.old (loop_view place.now) (expr_view expr.now)) ∷ trees_of trees.old) }
    ensures counted { OnOk result (made.new ≡ made.old + made_in (loop_view place.now) (expr_view expr.now)) }
{
    match expr {
        Expr::Literal(literal) => {
            push_literal(trees, literal)?;
            trees.push(Node::Return)
        }
        Expr::Name(name) => {
            push_name(alloc, trees, name)?;
            trees.push(Node::Return)
        }
        Expr::Accessor(field) => {
            let number = next_made(made)?;
            push_accessor(alloc, trees, field, number)?;
            trees.push(Node::Return)
        }
        Expr::Lambda(parameters, body) => {
            if parameters.len() == 0 {
                push_block(alloc, trees, &Loop::Outside, body, made)
            } else {
                push_arrows(alloc, trees, body, parameters, made)?;
                trees.push(Node::Return)
            }
        }
        Expr::Apply(callee, arguments) => {
            if goes_round(place, callee, arguments.len()) {
                let mut numbers = Vec::new(alloc);
                trees.push(Node::NoStatement)?;
                push_constants(alloc, trees, arguments, &mut numbers, made)?;
                end_turn(trees, place, &numbers)
            } else {
                push_value(alloc, trees, callee, made)?;
                push_calls(alloc, trees, arguments, made)?;
                trees.push(Node::Return)
            }
        }
        Expr::Strict(op, parts) => {
            let count = parts.len();
            push_parts(alloc, trees, op, count, parts, made)?;
            end_op(trees, op, count)?;
            trees.push(Node::Return)
        }
        Expr::Access(inner, fields) => {
            if fields.len() == 0 {
                push_block(alloc, trees, place, inner, made)
            } else {
                push_value(alloc, trees, inner, made)?;
                push_properties(alloc, trees, fields)?;
                trees.push(Node::Return)
            }
        }
        Expr::If(condition, yes, no) => {
            push_value(alloc, trees, condition, made)?;
            push_block(alloc, trees, place, yes, made)?;
            push_block(alloc, trees, place, no, made)?;
            trees.push(Node::If)
        }
        Expr::Chain(first, links) => match links.split_last() {
            None => push_block(alloc, trees, place, first, made),
            Some((last, others)) => {
                if goes_round_by(place, last) {
                    let mut numbers = Vec::new(alloc);
                    let number = begin_turn(alloc, trees, last, &mut numbers, made)?;
                    push_before_all(alloc, trees, others, made)?;
                    push_value(alloc, trees, first, made)?;
                    push_after_all(alloc, trees, others, made)?;
                    finish_turn(alloc, trees, place, last, number, &mut numbers, made)
                } else {
                    push_before_all(alloc, trees, links, made)?;
                    push_value(alloc, trees, first, made)?;
                    push_after_all(alloc, trees, links, made)?;
                    trees.push(Node::Return)
                }
            }
        },
        Expr::Let(definitions, body) => {
            push_groups(alloc, trees, definitions, made)?;
            push_block(alloc, trees, place, body, made)?;
            trees.push(Node::Ended)
        }
        Expr::Case(subject, branches) => {
            let number = begin_constant(trees, made)?;
            push_value(alloc, trees, subject, made)?;
            push_choice_of(alloc, trees, place, number, branches, made)
        }
        Expr::Located(_, inner) => push_block(alloc, trees, place, inner, made),
    }
}

/// Adds a function of these parameters; of none its body.
#[cycle(emission)]
fn push_arrows(
    alloc: Global,
    trees: &mut Trees,
    body: &Expr,
    parameters: &Vec<Pattern>,
    made: &mut u64,
) -> Result<(), AllocError>
    ensures emitted { OnOk result (trees_of trees.new ≡ Expression (now (arrows made.old
        (patterns_view parameters.now.items)
        (emit (made.old + made_for (patterns_view parameters.now.items)) Outside (expr_view body.now))))
        ∷ trees_of trees.old) }
    ensures counted { OnOk result (made.new
        ≡ made.old + (made_for (patterns_view parameters.now.items) + made_in Outside (expr_view body.now))) }
{
    if parameters.len() == 0 {
        return push_value(alloc, trees, body, made);
    }
    let first = *made;
    begin_arrows(alloc, trees, parameters, made)?;
    push_block(alloc, trees, &Loop::Outside, body, made)?;
    end_arrows(alloc, trees, parameters, first)
}

/// Adds a function that is defined, which is a loop or not.
#[cycle(emission)]
pub fn push_function(
    alloc: Global,
    trees: &mut Trees,
    function: &Function,
    made: &mut u64,
) -> Result<(), AllocError>
    ensures emitted { OnOk result (trees_of trees.new
        ≡ Expression (function_at made.old (function_view function.now)) ∷ trees_of trees.old) }
    ensures counted { OnOk result (made.new ≡ made.old + made_by (function_view function.now)) }
{
    let name = &function.title.name;
    let parameters = &function.parameters;
    if is_loop(name, parameters, &function.body) {
        let first = *made;
        let place = loop_of(name, first, parameters)?;
        begin_loop(alloc, trees, parameters, made)?;
        push_block(alloc, trees, &place, &function.body, made)?;
        end_loop(trees, first, parameters.len())
    } else {
        push_arrows(alloc, trees, &function.body, parameters, made)
    }
}

/// Makes the last tree, a function, its calls with the arguments in turn.
#[cycle(emission)]
fn push_calls(
    alloc: Global,
    trees: &mut Trees,
    arguments: &Vec<Expr>,
    made: &mut u64,
) -> Result<(), AllocError>
    ensures emitted { OnOk result ((f : Js) (ts : List Tree) → trees_of trees.old ≡ Expression f ∷ ts
        → trees_of trees.new ≡ Expression (calls made.old f (exprs_of (map expr_view arguments.now.items))) ∷ ts) }
    ensures counted { OnOk result (made.new ≡ made.old + made_all (exprs_of (map expr_view arguments.now.items))) }
{
    for argument in arguments {
        push_value(alloc, trees, argument, made)?;
        trees.push(Node::Call)?;
    }
    Ok(())
}

/// Begins an operation of `count` parts, and adds the first of them.
#[cycle(emission)]
fn push_parts(
    alloc: Global,
    trees: &mut Trees,
    op: &Op,
    count: usize,
    parts: &Vec<Expr>,
    made: &mut u64,
) -> Result<(), AllocError>
    ensures emitted { OnOk result (trees_of trees.new ≡ with_parts (op_view op.now) count
        (placed NoItem (values made.old (exprs_of (map expr_view parts.now.items)))) (trees_of trees.old)) }
    ensures counted { OnOk result (made.new ≡ made.old + made_all (exprs_of (map expr_view parts.now.items))) }
{
    begin_op(alloc, trees, op, count)?;
    for (index, part) in parts.iter().enumerate() {
        push_value(alloc, trees, part, made)?;
        add_part(alloc, trees, op, count, index)?;
    }
    Ok(())
}

/// Adds what stands before an expression with which these things are done: that of the last one comes first.
#[cycle(emission)]
fn push_before_all(
    alloc: Global,
    trees: &mut Trees,
    links: &[Link],
    made: &mut u64,
) -> Result<(), AllocError>
    ensures emitted { OnOk result (trees_of trees.new
        ≡ before_all made.old (map link_view links.now) (trees_of trees.old)) }
    ensures counted { OnOk result (made.new ≡ made.old + made_before_all (map link_view links.now)) }
{
    let mut left = links.len();
    while left > 0 {
        left -= 1;
        push_before(alloc, trees, &links[left], made)?;
    }
    Ok(())
}

/// Adds what stands after an expression with which these things are done. The last tree is the expression.
#[cycle(emission)]
fn push_after_all(
    alloc: Global,
    trees: &mut Trees,
    links: &[Link],
    made: &mut u64,
) -> Result<(), AllocError>
    ensures emitted { OnOk result ((d : ℕ) (e : plain.Expr) (ts : List Tree)
        → trees_of trees.old ≡ Expression (value (d + made_before_all (map link_view links.now)) e)
        ∷ before_all d (map link_view links.now) ts
        → made.old ≡ d + made_before_all (map link_view links.now) + made_in Outside e
        → trees_of trees.new ≡ Expression (value d (linked e (map link_view links.now))) ∷ ts) }
    ensures counted { OnOk result ((d : ℕ) (e : plain.Expr)
        → made.old ≡ d + made_before_all (map link_view links.now) + made_in Outside e
        → made.new ≡ d + made_in Outside (linked e (map link_view links.now))) }
{
    for link in links {
        push_after(alloc, trees, link, made)?;
    }
    Ok(())
}

/// Adds what stands before an expression with which this is done.
#[cycle(emission)]
fn push_before(
    alloc: Global,
    trees: &mut Trees,
    link: &Link,
    made: &mut u64,
) -> Result<(), AllocError>
    ensures emitted { OnOk result (trees_of trees.new ≡ before made.old (link_view link.now) (trees_of trees.old)) }
    ensures counted { OnOk result (made.new ≡ made.old + made_before (link_view link.now)) }
{
    match link {
        Link::Given(callee, arguments) => {
            push_value(alloc, trees, callee, made)?;
            push_calls(alloc, trees, arguments, made)
        }
        Link::Composed(callee, _) => push_value(alloc, trees, callee, made),
        Link::After(op, parts) => { push_parts(alloc, trees, op, parts.len() + 1, parts, made) }
        Link::Before(op, _) => begin_op(alloc, trees, op, 2),
        Link::Decided(_, _, left) => push_value(alloc, trees, left, made),
    }
}

/// Adds what stands after an expression with which this is done. The last tree is the expression.
#[cycle(emission)]
fn push_after(
    alloc: Global,
    trees: &mut Trees,
    link: &Link,
    made: &mut u64,
) -> Result<(), AllocError>
    ensures emitted { OnOk result ((d : ℕ) (e : plain.Expr) (ts : List Tree)
        → trees_of trees.old ≡ Expression (value (d + made_before (link_view link.now)) e)
        ∷ before d (link_view link.now) ts
        → made.old ≡ d + made_before (link_view link.now) + made_in Outside e
        → trees_of trees.new ≡ Expression (value d (done (link_view link.now) e)) ∷ ts) }
    ensures counted { OnOk result ((d : ℕ) (e : plain.Expr)
        → made.old ≡ d + made_before (link_view link.now) + made_in Outside e
        → made.new ≡ d + made_in Outside (done (link_view link.now) e)) }
{
    match link {
        Link::Given(_, _) => trees.push(Node::Call),
        Link::Composed(_, argument) => {
            trees.push(Node::Call)?;
            push_value(alloc, trees, argument, made)?;
            trees.push(Node::Call)
        }
        Link::After(op, parts) => {
            let index = parts.len();
            add_part(alloc, trees, op, index + 1, index)?;
            end_op(trees, op, index + 1)
        }
        Link::Before(op, part) => {
            add_part(alloc, trees, op, 2, 0)?;
            push_value(alloc, trees, part, made)?;
            add_part(alloc, trees, op, 2, 1)?;
            end_op(trees, op, 2)
        }
        Link::Decided(_, connective, _) => trees.push(Node::Binary(js_connective(*connective))),
    }
}

/// Begins the next turn of a loop, which is done with an expression: adds the constants of what stands before it. The
/// result is the number of the constant of the expression.
#[cycle(emission)]
fn begin_turn(
    alloc: Global,
    trees: &mut Trees,
    link: &Link,
    numbers: &mut Vec<u64>,
    made: &mut u64,
) -> Result<u64, AllocError>
    ensures kind { OnOk result (trees_of trees.new
        ≡ StatementsOf (statements (top (trees_of trees.new))) ∷ trees_of trees.old) }
    ensures emitted { IfOk result (λ n. (rs : List output.Name) (y : plain.Expr)
        → length numbers.old.items + length (turn_before (link_view link.now)) ≤ length rs
        → statements_then (statements (top (trees_of trees.new)))
        (spec.go_round n (exprs_of (y ∷ turn_after (link_view link.now))) (drop (length numbers.new.items) rs)
        (pairs rs numbers.new.items))
        ≡ spec.go_round made.old (exprs_of (turn_before (link_view link.now) ++ y ∷ turn_after (link_view link.now)))
        (drop (length numbers.old.items) rs) (pairs rs numbers.old.items)) }
    ensures counted { IfOk result (λ n. made.new ≡ suc n) }
    ensures number { IfOk result (λ n. n ≡ made.old + made_round (exprs_of (turn_before (link_view link.now)))) }
    ensures numbers { OnOk result (length numbers.new.items
        ≡ length numbers.old.items + length (turn_before (link_view link.now))) }
{
    trees.push(Node::NoStatement)?;
    match link {
        Link::Given(_, arguments) => {
            push_constants(alloc, trees, arguments, numbers, made)?;
            next_made(made)
        }
        Link::Composed(_, _) => next_made(made),
        Link::After(_, _) => next_made(made),
        Link::Before(_, _) => next_made(made),
        Link::Decided(_, _, _) => next_made(made),
    }
}

/// Ends the next turn of the loop `place`, which is done with an expression. The last tree is the expression, whose
/// constant has the number `number`.
#[cycle(emission)]
fn finish_turn(
    alloc: Global,
    trees: &mut Trees,
    place: &Loop,
    link: &Link,
    number: u64,
    numbers: &mut Vec<u64>,
    made: &mut u64,
) -> Result<(), AllocError>
    ensures emitted { OnOk result ((y : plain.Expr) (before : Before) (ts : List Tree)
        → length numbers.old.items + suc (length (turn_after (link_view link.now)))
        ≡ length (variables (loop_view place.now))
        → trees_of trees.old ≡ Expression (value (suc number) y) ∷ StatementsOf before ∷ ts
        → made.old ≡ suc number + made_in Outside y
        → trees_of trees.new ≡ BlockOf (statements_then before
        (spec.go_round number (exprs_of (y ∷ turn_after (link_view link.now)))
        (drop (length numbers.old.items) (variables (loop_view place.now)))
        (pairs (variables (loop_view place.now)) numbers.old.items))) ∷ ts) }
    ensures counted { OnOk result (made.new ≡ made.old + made_round (exprs_of (turn_after (link_view link.now)))) }
{
    keep_value(trees, number, numbers)?;
    match link {
        Link::Composed(_, argument) => {
            let next = next_made(made)?;
            push_value(alloc, trees, argument, made)?;
            keep_value(trees, next, numbers)?;
            end_turn(trees, place, numbers)
        }
        Link::Given(_, _) => end_turn(trees, place, numbers),
        Link::After(_, _) => end_turn(trees, place, numbers),
        Link::Before(_, _) => end_turn(trees, place, numbers),
        Link::Decided(_, _, _) => end_turn(trees, place, numbers),
    }
}

/// Adds a constant for each argument of a call that goes round. Their numbers are added to `numbers`.
#[cycle(emission)]
fn push_constants(
    alloc: Global,
    trees: &mut Trees,
    arguments: &Vec<Expr>,
    numbers: &mut Vec<u64>,
    made: &mut u64,
) -> Result<(), AllocError>
    ensures kind { OnOk result ((before : Before) (ts : List Tree) → trees_of trees.old ≡ StatementsOf before ∷ ts
        → trees_of trees.new ≡ StatementsOf (statements (top (trees_of trees.new))) ∷ ts) }
    ensures emitted { OnOk result ((rs : List output.Name) (rest : List plain.Expr) (before : Before) (ts : List Tree)
        → length numbers.old.items + length arguments.now.items ≤ length rs
        → trees_of trees.old ≡ StatementsOf before ∷ ts
        → statements_then (statements (top (trees_of trees.new)))
        (spec.go_round made.new (exprs_of rest) (drop (length numbers.new.items) rs) (pairs rs numbers.new.items))
        ≡ statements_then before
        (spec.go_round made.old (exprs_of (map expr_view arguments.now.items ++ rest))
        (drop (length numbers.old.items) rs) (pairs rs numbers.old.items))) }
    ensures counted { OnOk result (made.new ≡ made.old + made_round (exprs_of (map expr_view arguments.now.items))) }
    ensures numbers { OnOk result (length numbers.new.items
        ≡ length numbers.old.items + length arguments.now.items) }
{
    for argument in arguments {
        let number = next_made(made)?;
        push_value(alloc, trees, argument, made)?;
        keep_value(trees, number, numbers)?;
    }
    Ok(())
}

/// Begins statements with the constants of definitions.
#[cycle(emission)]
fn push_groups(
    alloc: Global,
    trees: &mut Trees,
    definitions: &Vec<Group>,
    made: &mut u64,
) -> Result<(), AllocError>
    ensures kind { OnOk result (trees_of trees.new
        ≡ StatementsOf (statements (top (trees_of trees.new))) ∷ trees_of trees.old) }
    ensures emitted { OnOk result ((s : Stmts) → statements_then (statements (top (trees_of trees.new))) s
        ≡ groups made.old (groups_of (map group_view definitions.now.items)) s) }
    ensures counted { OnOk result (made.new
        ≡ made.old + made_groups (groups_of (map group_view definitions.now.items))) }
{
    trees.push(Node::NoStatement)?;
    for definition in definitions {
        push_group(alloc, trees, definition, made)?;
    }
    Ok(())
}

/// Adds the constants of a group to the statements that stand last.
#[cycle(emission)]
fn push_group(
    alloc: Global,
    trees: &mut Trees,
    definition: &Group,
    made: &mut u64,
) -> Result<(), AllocError>
    ensures grown { OnOk result (Grown (trees_of trees.old) (trees_of trees.new)
        (group made.old (group_view definition.now))) }
    ensures counted { OnOk result (made.new ≡ made.old + made_group (group_view definition.now)) }
{
    match definition {
        Group::Together(functions) => {
            for function in functions {
                push_function(alloc, trees, function, made)?;
                trees.push(Node::Const(js_name(alloc, &function.title.name)?))?;
            }
            Ok(())
        }
        Group::Constant(title, value) => {
            push_value(alloc, trees, value, made)?;
            trees.push(Node::Const(js_name(alloc, &title.name)?))
        }
        Group::Destructure(pattern, value) => {
            let number = next_made(made)?;
            push_value(alloc, trees, value, made)?;
            trees.push(Node::Const(Name::Made(number)))?;
            push_consts(alloc, trees, pattern, number)
        }
    }
}

/// Ends statements with a choice between branches, in return position, which stands at `place`. The last tree is the
/// value that the patterns match, whose made name has the number `subject`.
#[cycle(emission)]
fn push_choice_of(
    alloc: Global,
    trees: &mut Trees,
    place: &Loop,
    subject: u64,
    branches: &Vec<Branch>,
    made: &mut u64,
) -> Result<(), AllocError>
    ensures emitted { OnOk result ((x : Js) (before : Before) (ts : List Tree)
        → trees_of trees.old ≡ Expression x ∷ StatementsOf before ∷ ts
        → trees_of trees.new ≡ BlockOf (statements_then before (output.Const (Made subject) x
        (chosen made.old (Made subject) (branches_of (map branch_view branches.now.items))
        (bodies (made.old + made_choice (branches_of (map branch_view branches.now.items))) (loop_view place.now)
        (Made subject) (branches_of (map branch_view branches.now.items)))))) ∷ ts) }
    ensures counted { OnOk result (made.new ≡ made.old
        + (made_choice (branches_of (map branch_view branches.now.items))
        + made_branches (loop_view place.now) (branches_of (map branch_view branches.now.items)))) }
{
    trees.push(Node::Const(Name::Made(subject)))?;
    let choice = begin_choice(alloc, trees, subject, branches, made)?;
    push_branches(alloc, trees, place, subject, choice, branches, made)?;
    trees.push(Node::Ended)
}

/// Adds the block of the branch whose number the made name `choice` is. The value that the patterns match has the made
/// name `subject`.
#[cycle(emission)]
fn push_branches(
    alloc: Global,
    trees: &mut Trees,
    place: &Loop,
    subject: u64,
    choice: u64,
    branches: &Vec<Branch>,
    made: &mut u64,
) -> Result<(), AllocError>
    ensures emitted { OnOk result (trees_of trees.new ≡ BlockOf (numbered (Made choice) 0
        (bodies made.old (loop_view place.now) (Made subject) (branches_of (map branch_view branches.now.items))))
        ∷ trees_of trees.old) }
    ensures counted { OnOk result (made.new ≡ made.old + made_branches (loop_view place.now)
        (branches_of (map branch_view branches.now.items))) }
{
    let Some((last, others)) = branches.split_last() else {
        trees.push(Node::Int(0))?;
        return trees.push(Node::Return);
    };
    for (index, branch) in others.iter().enumerate() {
        push_test(trees, choice, index)?;
        push_branch(alloc, trees, place, subject, branch, made)?;
    }
    push_branch(alloc, trees, place, subject, last, made)?;
    end_tests(trees, others.len())
}

/// Adds the block of a branch.
#[cycle(emission)]
fn push_branch(
    alloc: Global,
    trees: &mut Trees,
    place: &Loop,
    subject: u64,
    branch: &Branch,
    made: &mut u64,
) -> Result<(), AllocError>
    ensures emitted { OnOk result (trees_of trees.new ≡ BlockOf (patterns.consts (branch_view branch.now).0
        (output.JVar (Made subject)) (emit made.old (loop_view place.now) (branch_view branch.now).1))
        ∷ trees_of trees.old) }
    ensures counted { OnOk result (made.new ≡ made.old + made_in (loop_view place.now) (branch_view branch.now).1) }
{
    trees.push(Node::NoStatement)?;
    push_consts(alloc, trees, &branch.pattern, subject)?;
    push_block(alloc, trees, place, &branch.body, made)?;
    trees.push(Node::Ended)
}
