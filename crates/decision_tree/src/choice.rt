//! The number of the branch that a value takes, as an expression.

ghost use Rattle.std.specs.Prelude.{◌≡◌, ◌<◌, ℕ, List, length, pos, [], ◌∷◌, ◌++◌, get_or, map, IfOk, OnOk};
ghost use Rattle.elm_canon.specs.Tree.{Anything, branches_of};
ghost use Rattle.elm_canon.specs.View.{branch_view, pattern_view};
ghost use Rattle.js_tree.specs.Tree.{JInt, Made};
ghost use Rattle.js_tree.specs.Postorder.{Tree, Expression, trees_of};
ghost use Rattle.js_emit.specs.Choice.{choice, test_js};
ghost use Rattle.decision_tree.specs.Views.{test_view, path_view, row_of, rows_of, rows_view};
ghost use Rattle.decision_tree.specs.Run.{matrix_js, whole_js, chain_js, narrowed_js, done, all_done, left_tasks};

use crate::bound::push_path;
use crate::part::{Inner, Part};
use crate::path::root;
use crate::row::{Row, Wanted, add_row};
use crate::split::{Chain, Look, Matrix, chain_of, is_last, looked_at, narrowed};
use crate::test::{Test, push_test};
use crate::vectors::add;
use elm_canon::tree::{Branch, Pattern};
use js_tree::tree::Node;
use js_tree::trees::Trees;
use std::alloc::{AllocError, Global};

/// What is still to be done.
#[derive(Drop)]
pub enum Task<'b, 'a> {
    /// The tree of these rows is to be added.
    Choose(Matrix<'b, 'a>),
    /// The tests of a column, from the next on.
    Try(Chain<'b, 'a>),
    /// The last three trees are the parts of a choice.
    Join,
}

/// The patterns of branches.
fn patterns_of<'a>(alloc: Global, branches: &'a [Branch]) -> Result<Vec<&'a Pattern>, AllocError>
    ensures { IfOk result (λ ps. map (λ p. pattern_view p.now) ps.items
        ≡ map (λ b. pattern_view b.pattern) branches.now) }
{
    let mut patterns = Vec::new(alloc);
    for branch in branches {
        add(&mut patterns, &branch.pattern)?;
    }
    Ok(patterns)
}

/// Adds the row of the pattern with that number.
fn add_first<'b, 'a>(
    alloc: Global,
    out: &mut Vec<Row<'b, 'a>>,
    patterns: &'b Vec<&'a Pattern>,
    number: usize,
) -> Result<(), AllocError>
    ensures { OnOk result (rows_view out.new.items ≡ rows_view out.old.items ++ row_of number
        (get_or (map (λ p. pattern_view p.now) patterns.now.items) number Anything ∷ []) ∷ []) }
{
    let part = Part::Whole(patterns, number);
    add_row(alloc, out, number, &[part], Inner::Nothing, &[])
}

/// Adds a row for each pattern.
fn add_rows<'b, 'a>(
    alloc: Global,
    out: &mut Vec<Row<'b, 'a>>,
    patterns: &'b Vec<&'a Pattern>,
) -> Result<(), AllocError>
    ensures { OnOk result (rows_view out.new.items ≡ rows_view out.old.items
        ++ rows_of 0 (map (λ p. pattern_view p.now) patterns.now.items)) }
{
    for number in 0..patterns.len() {
        add_first(alloc, out, patterns, number)?;
    }
    Ok(())
}

/// Adds the number of a branch.
fn push_number(trees: &mut Trees, number: usize) -> Result<(), AllocError>
    ensures { OnOk result (trees_of trees.new ≡ Expression (JInt (pos number)) ∷ trees_of trees.old) }
{
    match i64::try_from(number) {
        Ok(number) => trees.push(Node::Int(number)),
        Err(_) => Err(AllocError),
    }
}

/// Adds the tree of rows, or leaves the tests of a column to be done.
fn choose<'b, 'a>(
    alloc: Global,
    trees: &mut Trees,
    work: &mut Vec<Task<'b, 'a>>,
    matrix: Matrix<'b, 'a>,
) -> Result<(), AllocError>
    ensures { OnOk result ((subject : ℕ) → all_done subject work.new.items (trees_of trees.new)
        ≡ all_done subject work.old.items (Expression (matrix_js subject matrix.entry) ∷ trees_of trees.old)) }
{
    match looked_at(&matrix) {
        Look::Number(number) => push_number(trees, number),
        Look::Split(found) => match chain_of(alloc, matrix, found) {
            Ok(chain) => add(work, Task::Try(chain)),
            Err(e) => Err(e),
        },
    }
}

/// Adds the test of the part at the path of a chain.
fn push_next<'b, 'a>(
    alloc: Global,
    trees: &mut Trees,
    subject: u64,
    chain: &Chain<'b, 'a>,
    test: Test<'a>,
) -> Result<(), AllocError>
    ensures { OnOk result (trees_of trees.new
        ≡ Expression (test_js (test_view test.entry) (path_view subject chain.now.path)) ∷ trees_of trees.old) }
{
    push_path(alloc, trees, subject, &chain.path.numbers)?;
    push_test(alloc, trees, test)
}

/// Leaves what comes after a test to be done: the tree where it holds, and the other tests.
fn leave<'b, 'a>(
    work: &mut Vec<Task<'b, 'a>>,
    chain: Chain<'b, 'a>,
    chosen: Matrix<'b, 'a>,
) -> Result<(), AllocError>
    requires { chain.next < length chain.tests.items }
    ensures { OnOk result (work.new.items ≡ work.old.items ++ left_tasks chain.entry chosen.entry) }
{
    add(work, Task::Join)?;
    let mut chain = chain;
    chain.next += 1;
    add(work, Task::Try(chain))?;
    add(work, Task::Choose(chosen))
}

/// Leaves the tree to be done of the rows where the test holds, or where no test of the column does.
fn add_narrowed<'b, 'a>(
    alloc: Global,
    work: &mut Vec<Task<'b, 'a>>,
    chain: &Chain<'b, 'a>,
    wanted: Wanted<'a>,
) -> Result<(), AllocError>
    ensures { OnOk result ((subject : ℕ) (ts : List Tree) → all_done subject work.new.items ts
        ≡ all_done subject work.old.items (Expression (narrowed_js subject chain.now wanted.entry) ∷ ts)) }
{
    match narrowed(alloc, chain, wanted) {
        Ok(matrix) => add(work, Task::Choose(matrix)),
        Err(e) => Err(e),
    }
}

/// Adds the next test of a column, and leaves what comes after it to be done.
fn try_next<'b, 'a>(
    alloc: Global,
    trees: &mut Trees,
    subject: u64,
    work: &mut Vec<Task<'b, 'a>>,
    chain: Chain<'b, 'a>,
) -> Result<(), AllocError>
    ensures { OnOk result (all_done subject work.new.items (trees_of trees.new)
        ≡ all_done subject work.old.items (Expression (chain_js subject chain.entry) ∷ trees_of trees.old)) }
{
    if chain.tests.len() <= chain.next {
        return add_narrowed(alloc, work, &chain, Wanted::Fails);
    }
    let test = chain.tests[chain.next];
    if is_last(&chain) {
        return add_narrowed(alloc, work, &chain, Wanted::Holds(test));
    }
    push_next(alloc, trees, subject, &chain, test)?;
    match narrowed(alloc, &chain, Wanted::Holds(test)) {
        Ok(chosen) => leave(work, chain, chosen),
        Err(e) => Err(e),
    }
}

/// Does a task, or leaves it in parts.
fn perform<'b, 'a>(
    alloc: Global,
    trees: &mut Trees,
    subject: u64,
    work: &mut Vec<Task<'b, 'a>>,
    task: Task<'b, 'a>,
) -> Result<(), AllocError>
    ensures { OnOk result (all_done subject work.new.items (trees_of trees.new)
        ≡ all_done subject work.old.items (done subject task.entry (trees_of trees.old))) }
{
    match task {
        Task::Choose(matrix) => choose(alloc, trees, work, matrix),
        Task::Try(chain) => try_next(alloc, trees, subject, work, chain),
        Task::Join => trees.push(Node::Conditional),
    }
}

/// Does all tasks. No memory could hold the trees of so many as there are numbers.
#[tactic(auto, using(crate::proofs::Doing::done_push))]
fn perform_all<'b, 'a>(
    alloc: Global,
    trees: &mut Trees,
    subject: u64,
    mut work: Vec<Task<'b, 'a>>,
) -> Result<(), AllocError>
    ensures { OnOk result (trees_of trees.new ≡ all_done subject work.entry.items (trees_of trees.old)) }
{
    for _ in 0..u64::MAX {
        let Some(task) = work.pop() else {
            return Ok(());
        };
        perform(alloc, trees, subject, &mut work, task)?;
    }
    Err(AllocError)
}

/// The rows of the whole.
fn whole<'b, 'a>(
    alloc: Global,
    patterns: &'b Vec<&'a Pattern>,
) -> Result<Matrix<'b, 'a>, AllocError>
    ensures { IfOk result (λ m. (subject : ℕ) → matrix_js subject m
        ≡ whole_js subject (map (λ p. pattern_view p.now) patterns.now.items)) }
{
    let mut paths = Vec::new(alloc);
    add(&mut paths, root(alloc)?)?;
    let mut rows = Vec::new(alloc);
    add_rows(alloc, &mut rows, patterns)?;
    Ok(Matrix { paths, rows })
}

/// Adds the number of the first of the patterns that the value with the made name `subject` matches.
fn push_first<'b, 'a>(
    alloc: Global,
    trees: &mut Trees,
    subject: u64,
    patterns: &'b Vec<&'a Pattern>,
) -> Result<(), AllocError>
    ensures { OnOk result (trees_of trees.new
        ≡ Expression (whole_js subject (map (λ p. pattern_view p.now) patterns.now.items)) ∷ trees_of trees.old) }
{
    let matrix = whole(alloc, patterns)?;
    let mut work = Vec::new(alloc);
    choose(alloc, trees, &mut work, matrix)?;
    perform_all(alloc, trees, subject, work)
}

/// Adds the number of the branch that a value takes, from 0 on. The value has the made name `subject`, and takes the
/// first branch whose pattern it matches. The error means that memory ran out.
pub fn push_choice(
    alloc: Global,
    trees: &mut Trees,
    subject: u64,
    branches: &[Branch],
) -> Result<(), AllocError>
    ensures { OnOk result (trees_of trees.new
        ≡ Expression (choice (Made subject) (branches_of (map branch_view branches.now))) ∷ trees_of trees.old) }
{
    let patterns = patterns_of(alloc, branches)?;
    push_first(alloc, trees, subject, &patterns)
}
