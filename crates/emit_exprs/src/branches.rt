//! The branch of a number.

ghost use Rattle.std.specs.Prelude.{◌≡◌, ◌+◌, ℕ, [], ◌∷◌, ◌++◌, List, length, map, IfOk, OnOk};
ghost use Rattle.elm_canon.specs.Tree.{branches_of};
ghost use Rattle.elm_canon.specs.View.{branch_view};
ghost use Rattle.js_tree.specs.Tree as output;
ghost use Rattle.js_tree.specs.Tree.{Stmts, Made};
ghost use Rattle.js_tree.specs.Postorder.{Tree, Expression, BlockOf, StatementsOf, Before, trees_of, top, statements};
ghost use Rattle.js_tree.specs.Postorder.{statements_then};
ghost use Rattle.js_emit.specs.Made.{made_choice};
ghost use Rattle.js_emit.specs.Emit.{numbered, chosen};
ghost use Rattle.emit_exprs.specs.Frames.{Grown, test, tested};

use crate::made::next_made;
use decision_tree::choice::push_choice;
use elm_canon::tree::Branch;
use js_emit::push::push_made;
use js_tree::tree::{Name, Node, Operator};
use js_tree::trees::Trees;
use std::alloc::{AllocError, Global};

/// Adds the test whether the made name of the number `choice` is `branch`. The error means that memory ran out.
pub fn push_test(trees: &mut Trees, choice: u64, branch: usize) -> Result<(), AllocError>
    ensures { OnOk result (trees_of trees.new ≡ Expression (test (Made choice) branch) ∷ trees_of trees.old) }
{
    push_made(trees, choice)?;
    match i64::try_from(branch) {
        Ok(number) => trees.push(Node::Int(number))?,
        Err(_) => return Err(AllocError),
    }
    trees.push(Node::Binary(Operator::StrictEquals))
}

/// Ends so many tests, each with its statements. The statements that stand last are those without a test. The error
/// means that memory ran out.
pub fn end_tests(trees: &mut Trees, count: usize) -> Result<(), AllocError>
    ensures { OnOk result ((j : output.Name) (k : ℕ) (ss : List Stmts) (s : Stmts) (ts : List Tree) → length ss ≡ count
        → trees_of trees.old ≡ BlockOf s ∷ tested j k ss ts
        → trees_of trees.new ≡ BlockOf (numbered j k (ss ++ s ∷ [])) ∷ ts) }
{
    let mut left = count;
    while left > 0 {
        left -= 1;
        trees.push(Node::If)?;
    }
    Ok(())
}

/// Adds the constant of the number of the branch, of the subject with the made name `subject`, if there is not just one
/// branch. The result is the number of its name. The error means that memory ran out.
pub fn begin_choice(
    alloc: Global,
    trees: &mut Trees,
    subject: u64,
    branches: &Vec<Branch>,
    made: &mut u64,
) -> Result<u64, AllocError>
    ensures chosen { IfOk result (λ j. (ss : List Stmts) → length ss ≡ length branches.now.items
        → (before : Before) (ts : List Tree) → trees_of trees.old ≡ StatementsOf before ∷ ts
        → statements_then (statements (top (trees_of trees.new))) (numbered (Made j) 0 ss)
        ≡ statements_then before
        (chosen made.old (Made subject) (branches_of (map branch_view branches.now.items)) ss)) }
    ensures kind { OnOk result ((before : Before) (ts : List Tree) → trees_of trees.old ≡ StatementsOf before ∷ ts
        → trees_of trees.new ≡ StatementsOf (statements (top (trees_of trees.new))) ∷ ts) }
    ensures counted { OnOk result (made.new
        ≡ made.old + made_choice (branches_of (map branch_view branches.now.items))) }
{
    if branches.len() == 1 {
        return Ok(subject);
    }
    let number = next_made(made)?;
    push_choice(alloc, trees, subject, branches)?;
    trees.push(Node::Const(Name::Made(number)))?;
    Ok(number)
}
