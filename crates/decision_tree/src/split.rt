//! Rows with the paths of their columns, and the column that is tested.

ghost use Rattle.std.specs.Prelude.{◌≡◌, ◌<◌, ◌+◌, ℕ, [], length, true, false, IfOk, IfSome, option_map};
ghost use Rattle.js_emit.specs.Matrix as matrix;
ghost use Rattle.js_emit.specs.Choice as spec;
ghost use Rattle.decision_tree.specs.Views.{parts_view, test_view, tests_view, rows_view, paths_view, arity_left};
ghost use Rattle.decision_tree.specs.Run.{found_view, matrix_js, split_js, look_js, narrowed_js, chain_js};
ghost use Rattle.decision_tree.specs.Run.{CanSplit};

use crate::part::{Ask, Part, ask_part};
use crate::path::{Path, copied, split_paths};
use crate::row::{Row, Wanted, ask_row, narrow};
use crate::test::{Test, arity, has_test, is_alike, is_whole};
use crate::vectors::add;
use std::alloc::{AllocError, Global};

/// Rows that are still possible, in order.
#[derive(Drop)]
pub struct Matrix<'b, 'a> {
    /// The path of each column.
    pub paths: Vec<Path>,
    pub rows: Vec<Row<'b, 'a>>,
}

/// Rows of which a column is tested.
#[derive(Drop)]
pub struct Chain<'b, 'a> {
    pub paths: Vec<Path>,
    pub rows: Vec<Row<'b, 'a>>,
    pub column: usize,
    pub path: Path,
    /// Whether no other value is possible than those of the tests.
    pub is_whole: bool,
    pub tests: Vec<Test<'a>>,
    /// The place of the next test.
    pub next: usize,
}

/// A column with the test that its first row asks for.
#[derive(Clone, Copy)]
pub struct Found<'a> {
    pub number: usize,
    pub test: Test<'a>,
}

/// What rows ask for next.
#[derive(Clone, Copy)]
pub enum Look<'a> {
    /// A branch.
    Number(usize),
    Split(Found<'a>),
}

/// The tests of a column that are alike the first, each once.
fn tests_in<'b, 'a>(
    alloc: Global,
    first: Test<'a>,
    column: usize,
    rows: &[Row<'b, 'a>],
) -> Result<Vec<Test<'a>>, AllocError>
    ensures { IfOk result (λ out. tests_view out.items
        ≡ matrix.tests_in (test_view first.entry) column [] (rows_view rows.now)) }
{
    let mut tests = Vec::new(alloc);
    for row in rows {
        if let Ask::First(test, _) = ask_row(row, column) {
            if is_alike(first, test) && !has_test(test, &tests) {
                add(&mut tests, test)?;
            }
        }
    }
    Ok(tests)
}

/// The leftmost column for which the row asks for something.
fn first_column<'b, 'a>(paths: &[Path], parts: &[Part<'b, 'a>]) -> Option<Found<'a>>
    ensures found { (subject : ℕ) → option_map (found_view subject paths.now) result
        ≡ spec.first_column (paths_view subject paths.now) (parts_view parts.now) }
    ensures inside { IfSome result (λ f. f.number < length paths.now) }
{
    for number in 0..paths.len() {
        if parts.len() <= number {
            return None;
        }
        match ask_part(parts[number]) {
            Ask::First(test, _) => return Some(Found { number, test }),
            Ask::Nothing => {}
        }
    }
    None
}

/// What the rows ask for next.
pub fn looked_at<'b, 'a>(matrix: &Matrix<'b, 'a>) -> Look<'a>
    ensures look { (subject : ℕ) → matrix_js subject matrix.now ≡ look_js subject matrix.now result }
    ensures inside { CanSplit matrix.now result }
{
    if matrix.rows.len() == 0 {
        return Look::Number(0);
    }
    match first_column(&matrix.paths, &matrix.rows[0].parts) {
        None => Look::Number(matrix.rows[0].branch),
        Some(found) => Look::Split(found),
    }
}

/// The tests of the column.
pub fn chain_of<'b, 'a>(
    alloc: Global,
    matrix: Matrix<'b, 'a>,
    found: Found<'a>,
) -> Result<Chain<'b, 'a>, AllocError>
    requires { found.number < length matrix.paths.items }
    ensures { IfOk result (λ c. (subject : ℕ) → chain_js subject c
        ≡ split_js subject matrix.entry (found_view subject matrix.entry.paths.items found.entry)) }
{
    let tests = tests_in(alloc, found.test, found.number, &matrix.rows)?;
    let is_whole = is_whole(found.test, &tests);
    let path = copied(&matrix.paths[found.number])?;
    Ok(Chain {
        paths: matrix.paths,
        rows: matrix.rows,
        column: found.number,
        path,
        is_whole,
        tests,
        next: 0,
    })
}

/// How many parts are left.
fn parts_left(wanted: Wanted<'_>) -> usize
    ensures { result ≡ arity_left wanted.entry }
{
    match wanted {
        Wanted::Holds(test) => arity(test),
        Wanted::Fails => 0,
    }
}

/// The rows where the test holds, or where no test of the column does.
pub fn narrowed<'b, 'a>(
    alloc: Global,
    chain: &Chain<'b, 'a>,
    wanted: Wanted<'a>,
) -> Result<Matrix<'b, 'a>, AllocError>
    ensures { IfOk result (λ m. (subject : ℕ) → matrix_js subject m ≡ narrowed_js subject chain.now wanted.entry) }
{
    let mut paths = Vec::new(alloc);
    split_paths(
        alloc,
        &mut paths,
        &chain.paths,
        chain.column,
        parts_left(wanted),
    )?;
    let mut rows = Vec::new(alloc);
    narrow(alloc, &mut rows, wanted, chain.column, &chain.rows)?;
    Ok(Matrix { paths, rows })
}

/// Whether the next test is the last, and is not made, since no other value is possible.
pub fn is_last(chain: &Chain<'_, '_>) -> bool
    requires { chain.now.next < length chain.now.tests.items }
    ensures last { result ≡ true
        → (chain.now.is_whole ≡ true) × (chain.now.next + 1 ≡ length chain.now.tests.items) }
    ensures other { result ≡ false
        → chain.now.is_whole ≡ true → chain.now.next + 1 ≡ length chain.now.tests.items → ⊥ }
{
    if chain.is_whole {
        chain.next + 1 == chain.tests.len()
    } else {
        false
    }
}
