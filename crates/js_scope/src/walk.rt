//! The walk over trees.

ghost use Rattle.std.specs.Prelude.{◌≡◌, ◌*◌, ◌+◌, ◌≤◌, ℕ, [], ◌∷◌, length, ◌&&◌, IfOk, OnOk};
ghost use Rattle.js_tree.specs.Postorder.{expression, items, members, statements, block, lines, top, trees_of};
ghost use Rattle.js_tree.specs.Postorder.{trees_at};
ghost use Rattle.js_scope.specs.Uses.{Nothing, Block, declared, uses, items_uses, members_uses, statements_uses};
ghost use Rattle.js_scope.specs.Uses.{names_before, block_uses, lines_before_uses, line_names_before};
ghost use Rattle.js_scope.specs.Walk.{Walk, Declare, ends_well};
ghost use Rattle.js_scope.specs.Parts.{inner};
ghost use Rattle.js_scope.specs.Bound.{names_bound};
ghost use Rattle.js_scope.specs.Steps.{step_of, steps_of, reach, AreWithin, GoesOn};

use crate::parts::{
    Ending, Form, Statement, ending_of, form_of, is_field, is_item, is_program, line_name,
    statement_of,
};
use crate::scopes::Scopes;
use crate::tasks::{Task, Tasks};
use js_tree::trees::Trees;
use std::alloc::AllocError;

/// Visits an expression. The answer is whether nothing was found that is not allowed.
fn visit_expression<'a>(
    trees: &'a Trees,
    place: usize,
    scopes: &mut Scopes<'a>,
    tasks: &mut Tasks,
) -> Result<bool, AllocError>
    requires { place ≤ length trees.now }
    ensures { IfOk result (λ fine. GoesOn trees.now (Walk (uses (expression (top (trees_at trees.now place)))))
        (2 * place) tasks.old scopes.old fine tasks.new scopes.new) }
{
    let Some(node) = trees.node(place) else {
        return Ok(true);
    };
    let last = place - 1;
    match form_of(node) {
        Form::Nothing => Ok(true),
        Form::Reads(name) => Ok(scopes.read(name)),
        Form::Arrow(name) => {
            tasks.push(Task::Leave {
                bound: scopes.len(),
                start: scopes.start(),
            })?;
            scopes.begin();
            scopes.declare(name)?;
            tasks.push(Task::Block(last))?;
            tasks.push(Task::BlockNames(last))?;
            Ok(true)
        }
        Form::Function => {
            tasks.push(Task::Leave {
                bound: scopes.len(),
                start: scopes.start(),
            })?;
            scopes.begin();
            tasks.push(Task::Block(last))?;
            tasks.push(Task::BlockNames(last))?;
            Ok(true)
        }
        Form::Whole => {
            tasks.push(Task::Expression(last))?;
            Ok(true)
        }
        Form::Pair => {
            tasks.push(Task::Expression(trees.below(last)))?;
            tasks.push(Task::Expression(last))?;
            Ok(true)
        }
        Form::Triple => {
            let second = trees.below(last);
            tasks.push(Task::Expression(trees.below(second)))?;
            tasks.push(Task::Expression(second))?;
            tasks.push(Task::Expression(last))?;
            Ok(true)
        }
        Form::Fields => {
            tasks.push(Task::Members(last))?;
            Ok(true)
        }
        Form::Items => {
            tasks.push(Task::Items(last))?;
            Ok(true)
        }
    }
}

/// Visits the items of a list.
fn visit_items<'a>(
    trees: &'a Trees,
    place: usize,
    scopes: &mut Scopes<'a>,
    tasks: &mut Tasks,
) -> Result<bool, AllocError>
    requires { place ≤ length trees.now }
    ensures { IfOk result (λ fine. GoesOn trees.now (Walk (items_uses (items (top (trees_at trees.now place)))))
        (2 * place) tasks.old scopes.old fine tasks.new scopes.new) }
{
    let Some(node) = trees.node(place) else {
        return Ok(true);
    };
    if !is_item(node) {
        return Ok(true);
    }
    let last = place - 1;
    tasks.push(Task::Items(trees.below(last)))?;
    tasks.push(Task::Expression(last))?;
    Ok(true)
}

/// Visits the fields of an object.
fn visit_members<'a>(
    trees: &'a Trees,
    place: usize,
    scopes: &mut Scopes<'a>,
    tasks: &mut Tasks,
) -> Result<bool, AllocError>
    requires { place ≤ length trees.now }
    ensures { IfOk result (λ fine. GoesOn trees.now (Walk (members_uses (members (top (trees_at trees.now place)))))
        (2 * place) tasks.old scopes.old fine tasks.new scopes.new) }
{
    let Some(node) = trees.node(place) else {
        return Ok(true);
    };
    if !is_field(node) {
        return Ok(true);
    }
    let last = place - 1;
    tasks.push(Task::Members(trees.below(last)))?;
    tasks.push(Task::Expression(last))?;
    Ok(true)
}

/// Visits statements.
fn visit_statements<'a>(
    trees: &'a Trees,
    place: usize,
    scopes: &mut Scopes<'a>,
    tasks: &mut Tasks,
) -> Result<bool, AllocError>
    requires { place ≤ length trees.now }
    ensures { IfOk result (λ fine. GoesOn trees.now (Walk (statements_uses
        (statements (top (trees_at trees.now place))))) (2 * place) tasks.old scopes.old fine tasks.new scopes.new) }
{
    let Some(node) = trees.node(place) else {
        return Ok(true);
    };
    let last = place - 1;
    match statement_of(node) {
        Statement::Nothing => Ok(true),
        Statement::Declares(_) => {
            tasks.push(Task::Statements(trees.below(last)))?;
            tasks.push(Task::Expression(last))?;
            Ok(true)
        }
        Statement::Assigns(name) => {
            tasks.push(Task::Statements(trees.below(last)))?;
            tasks.push(Task::Expression(last))?;
            Ok(scopes.assign(name))
        }
    }
}

/// Visits a block whose names are bound.
fn visit_block<'a>(
    trees: &'a Trees,
    place: usize,
    scopes: &mut Scopes<'a>,
    tasks: &mut Tasks,
) -> Result<bool, AllocError>
    requires { place ≤ length trees.now }
    ensures { IfOk result (λ fine. GoesOn trees.now (Walk (block_uses
        (block (top (trees_at trees.now place))) Nothing)) (2 * place) tasks.old scopes.old fine tasks.new scopes.new) }
{
    let Some(node) = trees.node(place) else {
        return Ok(true);
    };
    let last = place - 1;
    match ending_of(node) {
        Ending::Nothing => Ok(true),
        Ending::Return => {
            tasks.push(Task::Expression(last))?;
            Ok(true)
        }
        Ending::If => {
            let second = trees.below(last);
            tasks.push(Task::Expression(trees.below(second)))?;
            tasks.push(Task::Inner(second))?;
            tasks.push(Task::Inner(last))?;
            Ok(true)
        }
        Ending::While => {
            tasks.push(Task::Inner(last))?;
            Ok(true)
        }
        Ending::Ended => {
            tasks.push(Task::Statements(trees.below(last)))?;
            tasks.push(Task::Block(last))?;
            Ok(true)
        }
    }
}

/// Visits a block that is nested in another.
fn visit_inner<'a>(
    trees: &'a Trees,
    place: usize,
    scopes: &mut Scopes<'a>,
    tasks: &mut Tasks,
) -> Result<bool, AllocError>
    requires { place ≤ length trees.now }
    ensures { IfOk result (λ fine. GoesOn trees.now (Walk (inner (top (trees_at trees.now place))))
        (2 * place + 1) tasks.old scopes.old fine tasks.new scopes.new) }
{
    tasks.push(Task::Leave {
        bound: scopes.len(),
        start: scopes.start(),
    })?;
    tasks.push(Task::Block(place))?;
    tasks.push(Task::BlockNames(place))?;
    Ok(true)
}

/// Visits lines.
fn visit_lines<'a>(
    trees: &'a Trees,
    place: usize,
    scopes: &mut Scopes<'a>,
    tasks: &mut Tasks,
) -> Result<bool, AllocError>
    requires { place ≤ length trees.now }
    ensures { IfOk result (λ fine. GoesOn trees.now (Walk (lines_before_uses
        (lines (top (trees_at trees.now place))))) (2 * place) tasks.old scopes.old fine tasks.new scopes.new) }
{
    let Some(node) = trees.node(place) else {
        return Ok(true);
    };
    let last = place - 1;
    match line_name(node) {
        Some(_) => {
            tasks.push(Task::Lines(trees.below(last)))?;
            tasks.push(Task::Expression(last))?;
            Ok(true)
        }
        None => Ok(true),
    }
}

/// Binds the names that a block declares.
fn bind_block<'a>(
    trees: &'a Trees,
    place: usize,
    scopes: &mut Scopes<'a>,
    tasks: &mut Tasks,
) -> Result<bool, AllocError>
    requires { place ≤ length trees.now }
    ensures { IfOk result (λ fine. GoesOn trees.now (Declare (declared (block (top (trees_at trees.now place))) []))
        (2 * place) tasks.old scopes.old fine tasks.new scopes.new) }
{
    let Some(node) = trees.node(place) else {
        return Ok(true);
    };
    let last = place - 1;
    match ending_of(node) {
        Ending::Nothing => Ok(true),
        Ending::Return => Ok(true),
        Ending::If => Ok(true),
        Ending::While => Ok(true),
        Ending::Ended => {
            tasks.push(Task::StatementNames(trees.below(last)))?;
            tasks.push(Task::BlockNames(last))?;
            Ok(true)
        }
    }
}

/// Binds the names that statements declare.
fn bind_statements<'a>(
    trees: &'a Trees,
    place: usize,
    scopes: &mut Scopes<'a>,
    tasks: &mut Tasks,
) -> Result<bool, AllocError>
    requires { place ≤ length trees.now }
    ensures { IfOk result (λ fine. GoesOn trees.now (Declare (names_before
        (statements (top (trees_at trees.now place))) [])) (2 * place) tasks.old scopes.old fine tasks.new scopes.new) }
{
    let Some(node) = trees.node(place) else {
        return Ok(true);
    };
    let last = place - 1;
    match statement_of(node) {
        Statement::Nothing => Ok(true),
        Statement::Declares(name) => {
            scopes.declare(name)?;
            tasks.push(Task::StatementNames(trees.below(last)))?;
            Ok(true)
        }
        Statement::Assigns(_) => {
            tasks.push(Task::StatementNames(trees.below(last)))?;
            Ok(true)
        }
    }
}

/// Binds the names of lines.
fn bind_lines<'a>(
    trees: &'a Trees,
    place: usize,
    scopes: &mut Scopes<'a>,
    tasks: &mut Tasks,
) -> Result<bool, AllocError>
    requires { place ≤ length trees.now }
    ensures { IfOk result (λ fine. GoesOn trees.now (Declare (line_names_before
        (lines (top (trees_at trees.now place))) [])) (2 * place) tasks.old scopes.old fine tasks.new scopes.new) }
{
    let Some(node) = trees.node(place) else {
        return Ok(true);
    };
    let last = place - 1;
    match line_name(node) {
        Some(name) => {
            scopes.declare(name)?;
            tasks.push(Task::LineNames(trees.below(last)))?;
            Ok(true)
        }
        None => Ok(true),
    }
}

/// Does a task. The answer is whether nothing was found that is not allowed.
fn do_task<'a>(
    trees: &'a Trees,
    task: Task,
    scopes: &mut Scopes<'a>,
    tasks: &mut Tasks,
) -> Result<bool, AllocError>
    requires { reach task ≤ 2 * length trees.now + 1 }
    ensures { IfOk result (λ fine. GoesOn trees.now (step_of trees.now task)
        (reach task) tasks.old scopes.old fine tasks.new scopes.new) }
{
    match task {
        Task::Expression(place) => visit_expression(trees, place, scopes, tasks),
        Task::Items(place) => visit_items(trees, place, scopes, tasks),
        Task::Members(place) => visit_members(trees, place, scopes, tasks),
        Task::Statements(place) => visit_statements(trees, place, scopes, tasks),
        Task::Block(place) => visit_block(trees, place, scopes, tasks),
        Task::Inner(place) => visit_inner(trees, place, scopes, tasks),
        Task::Lines(place) => visit_lines(trees, place, scopes, tasks),
        Task::BlockNames(place) => bind_block(trees, place, scopes, tasks),
        Task::StatementNames(place) => bind_statements(trees, place, scopes, tasks),
        Task::LineNames(place) => bind_lines(trees, place, scopes, tasks),
        Task::Leave { bound, start } => scopes.leave(bound, start),
    }
}

/// Does all tasks, as far as nothing is found that is not allowed.
pub(crate) fn run<'a>(
    trees: &'a Trees,
    scopes: &mut Scopes<'a>,
    tasks: &mut Tasks,
) -> Result<bool, AllocError>
    requires { AreWithin (length trees.now) tasks.old }
    ensures { IfOk result (λ fine. fine ≡ ends_well (steps_of trees.now tasks.old) scopes.old.start scopes.old.bound) }
{
    while let Some(task) = tasks.pop() {
        if !do_task(trees, task, scopes, tasks)? {
            return Ok(false);
        }
    }
    Ok(true)
}

/// The tasks for the program that the last tree is. The answer is whether it is one.
pub(crate) fn begin(trees: &Trees, tasks: &mut Tasks) -> Result<bool, AllocError>
    requires { tasks.old ≡ [] }
    ensures ends { IfOk result (λ fine. names_bound (top (trees_of trees.now))
        ≡ (fine && ends_well (steps_of trees.now tasks.new) 0 [])) }
    ensures within { OnOk result (AreWithin (length trees.now) tasks.new) }
{
    let Some(node) = trees.node(trees.len()) else {
        return Ok(false);
    };
    if !is_program(node) {
        return Ok(false);
    }
    let ins = trees.len() - 1;
    let flags = trees.below(ins);
    let main = trees.below(flags);
    let lines = trees.below(main);
    tasks.push(Task::Leave { bound: 0, start: 0 })?;
    tasks.push(Task::Lines(lines))?;
    tasks.push(Task::Expression(main))?;
    tasks.push(Task::Expression(flags))?;
    tasks.push(Task::Members(ins))?;
    tasks.push(Task::LineNames(lines))?;
    Ok(true)
}
