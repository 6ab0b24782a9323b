//! Functions that are loops.

ghost use Rattle.std.specs.Prelude.{◌≡◌, ◌+◌, ◌<◌, ◌∷◌, List, length, OnOk};
ghost use Rattle.elm_canon.specs.View.{patterns_view};
ghost use Rattle.js_tree.specs.Tree.{Stmts, While};
ghost use Rattle.js_tree.specs.Postorder.{Tree, Expression, BlockOf, StatementsOf, Before, trees_of, top, below};
ghost use Rattle.js_tree.specs.Postorder.{statements, statements_then};
ghost use Rattle.js_emit.specs.Names.{made_names, now};
ghost use Rattle.js_emit.specs.Patterns.{made_for};
ghost use Rattle.js_emit.specs.Operators.{arrows_of};
ghost use Rattle.js_emit.specs.Loops.{lets, turn};
ghost use Rattle.js_emit.specs.Open.{opens};
ghost use Rattle.emit_exprs.specs.Frames.{Grown};

use crate::made::{next_made, take_made};
use decision_tree::parameters::{parameter, push_parameter_consts};
use elm_canon::tree::Pattern;
use js_emit::arrows::{begin_made, end_made};
use js_emit::push::push_made;
use js_tree::tree::{Name, Node};
use js_tree::trees::Trees;
use std::alloc::{AllocError, Global};

/// Adds a variable for each of `count` parameters. The numbers of the variables begin with `variable`, and those of the
/// parameters with `parameter`. The error means that memory ran out.
fn push_lets(
    trees: &mut Trees,
    variable: u64,
    parameter: u64,
    count: usize,
) -> Result<(), AllocError>
    ensures { OnOk result (Grown (trees_of trees.old) (trees_of trees.new)
        (lets (made_names variable count) (made_names parameter count))) }
{
    let mut variable = variable;
    let mut parameter = parameter;
    let mut left = count;
    while left > 0 {
        let from = next_made(&mut parameter)?;
        let to = next_made(&mut variable)?;
        push_made(trees, from)?;
        trees.push(Node::Let(Name::Made(to)))?;
        left -= 1;
    }
    Ok(())
}

/// Adds the constants of a turn for the parameters. The numbers of the variables begin with `variable`, and the next
/// made name has the number `made`. The error means that memory ran out.
fn push_turn(
    alloc: Global,
    trees: &mut Trees,
    parameters: &Vec<Pattern>,
    variable: u64,
    made: &mut u64,
) -> Result<(), AllocError>
    ensures grown { OnOk result (Grown (trees_of trees.old) (trees_of trees.new)
        (turn made.old (patterns_view parameters.now.items) (made_names variable (length parameters.now.items)))) }
    ensures counted { OnOk result (made.new ≡ made.old + made_for (patterns_view parameters.now.items)) }
{
    let mut variable = variable;
    for pattern in parameters {
        push_made(trees, variable)?;
        let number = *made;
        let name = parameter(alloc, pattern, made)?;
        trees.push(Node::Const(name))?;
        push_parameter_consts(alloc, trees, pattern, number)?;
        variable = variable.checked_add(1).ok_or(AllocError)?;
    }
    Ok(())
}

/// Begins a loop with these parameters, up to the body of a turn. The next made name has the number `made`. The error
/// means that memory ran out.
pub fn begin_loop(
    alloc: Global,
    trees: &mut Trees,
    parameters: &Vec<Pattern>,
    made: &mut u64,
) -> Result<(), AllocError>
    ensures begun { OnOk result (trees_of trees.new ≡ StatementsOf (statements (top (trees_of trees.new)))
        ∷ StatementsOf (statements (top (below (trees_of trees.new))))
        ∷ opens (length parameters.now.items) (trees_of trees.old)) }
    ensures lets { OnOk result ((s : Stmts) → statements_then (statements (top (below (trees_of trees.new)))) s
        ≡ lets (made_names (made.old + length parameters.now.items) (length parameters.now.items))
        (made_names made.old (length parameters.now.items)) s) }
    ensures turn { OnOk result ((s : Stmts) → statements_then (statements (top (trees_of trees.new))) s
        ≡ turn (made.old + length parameters.now.items + length parameters.now.items)
        (patterns_view parameters.now.items)
        (made_names (made.old + length parameters.now.items) (length parameters.now.items)) s) }
    ensures counted { OnOk result (made.new
        ≡ made.old + length parameters.now.items + length parameters.now.items
        + made_for (patterns_view parameters.now.items)) }
{
    let count = parameters.len();
    let first = take_made(made, count)?;
    let variable = take_made(made, count)?;
    begin_made(trees, count)?;
    trees.push(Node::NoStatement)?;
    push_lets(trees, variable, first, count)?;
    trees.push(Node::NoStatement)?;
    push_turn(alloc, trees, parameters, variable, made)
}

/// Ends a loop with so many parameters, whose numbers begin with `first`. The statements that stand last are the body
/// of a turn. The error means that memory ran out.
pub fn end_loop(trees: &mut Trees, first: u64, count: usize) -> Result<(), AllocError>
    requires { 0 < count }
    ensures { OnOk result ((before outer : Before) (s : Stmts) (ts : List Tree)
        → trees_of trees.old ≡ BlockOf s ∷ StatementsOf before ∷ StatementsOf outer ∷ opens count ts
        → trees_of trees.new ≡ Expression (now (arrows_of (made_names first count)
        (statements_then outer (While (statements_then before s))))) ∷ ts) }
{
    trees.push(Node::Ended)?;
    trees.push(Node::While)?;
    trees.push(Node::Ended)?;
    end_made(trees, first, count)
}
