//! Rows of patterns, and what is left of them.

ghost use Rattle.std.specs.Prelude.{◌≡◌, ◌<◌, ◌∷◌, ◌++◌, [], OnOk, length, map, option_map, replicate};
ghost use Rattle.elm_canon.specs.Tree.{Anything};
ghost use Rattle.elm_canon.specs.View.{pattern_view};
ghost use Rattle.js_emit.specs.Matrix.{keep, narrowed, narrow, ask_at};
ghost use Rattle.decision_tree.specs.Views.{part_view, parts_view, inner_view, ask_view, row_of, row_view, rows_view};
ghost use Rattle.decision_tree.specs.Views.{left_view};
ghost use Rattle.decision_tree.specs.Placed.{placed};

use crate::part::{Ask, Inner, Part, ask_part};
use crate::test::{Test, arity, same_test};
use crate::vectors::add;
use elm_canon::tree::Pattern;
use std::alloc::{AllocError, Global};

/// The patterns of the columns, and the branch.
#[derive(Drop)]
pub struct Row<'b, 'a> {
    pub parts: Vec<Part<'b, 'a>>,
    pub branch: usize,
}

/// Which rows are wanted.
#[derive(Clone, Copy)]
pub enum Wanted<'a> {
    /// Where the test holds.
    Holds(Test<'a>),
    /// Where no test of the column holds.
    Fails,
}

/// What a row asks for in a column.
#[tactic(auto, using(crate::proofs::Narrowing::ask_here, crate::proofs::Narrowing::ask_none))]
pub fn ask_row<'b, 'a>(row: &Row<'b, 'a>, column: usize) -> Ask<'b, 'a>
    ensures { ask_view result ≡ ask_at column (row_view row.now).patterns }
{
    if column < row.parts.len() {
        ask_part(row.parts[column])
    } else {
        Ask::Nothing
    }
}

/// Adds the patterns as parts.
fn add_each<'b, 'a>(
    out: &mut Vec<Part<'b, 'a>>,
    patterns: &'a Vec<Pattern>,
) -> Result<(), AllocError>
    ensures { OnOk result (parts_view out.new.items ≡ parts_view out.old.items
        ++ map pattern_view patterns.now.items) }
{
    for number in 0..patterns.len() {
        add(out, Part::Inside(patterns, number))?;
    }
    Ok(())
}

/// Adds so many parts that ask for nothing.
fn add_open(out: &mut Vec<Part<'_, '_>>, count: usize) -> Result<(), AllocError>
    ensures { OnOk result (parts_view out.new.items ≡ parts_view out.old.items ++ replicate count Anything) }
{
    for _ in 0..count {
        add(out, Part::Anything)?;
    }
    Ok(())
}

/// Adds the parts that a test leaves.
fn add_inner<'b, 'a>(out: &mut Vec<Part<'b, 'a>>, inner: Inner<'b, 'a>) -> Result<(), AllocError>
    ensures { OnOk result (parts_view out.new.items ≡ parts_view out.old.items ++ inner_view inner.entry) }
{
    match inner {
        Inner::Nothing => Ok(()),
        Inner::Each(patterns) => add_each(out, patterns),
        Inner::Two(first, second) => {
            add(out, first)?;
            add(out, second)
        }
        Inner::Open(count) => add_open(out, count),
    }
}

/// Adds parts, those that a test leaves, and other parts.
fn add_joined<'b, 'a>(
    out: &mut Vec<Part<'b, 'a>>,
    before: &[Part<'b, 'a>],
    inner: Inner<'b, 'a>,
    after: &[Part<'b, 'a>],
) -> Result<(), AllocError>
    ensures { OnOk result (parts_view out.new.items ≡ parts_view out.old.items
        ++ (parts_view before.now ++ (inner_view inner.entry ++ parts_view after.now))) }
{
    out.extend_from_slice(before)?;
    add_inner(out, inner)?;
    out.extend_from_slice(after)?;
    Ok(())
}

/// Adds a row of parts, those that a test leaves, and other parts.
pub fn add_row<'b, 'a>(
    alloc: Global,
    out: &mut Vec<Row<'b, 'a>>,
    branch: usize,
    before: &[Part<'b, 'a>],
    inner: Inner<'b, 'a>,
    after: &[Part<'b, 'a>],
) -> Result<(), AllocError>
    ensures { OnOk result (rows_view out.new.items ≡ rows_view out.old.items
        ++ row_of branch (parts_view before.now ++ (inner_view inner.entry ++ parts_view after.now)) ∷ []) }
{
    let mut parts = Vec::new(alloc);
    add_joined(&mut parts, before, inner, after)?;
    add(out, Row { parts, branch })
}

/// What an ask leaves where that is wanted, if it does.
fn left<'b, 'a>(wanted: Wanted<'a>, ask: Ask<'b, 'a>) -> Option<Inner<'b, 'a>>
    ensures { option_map inner_view result ≡ left_view wanted.entry (ask_view ask.entry) }
{
    match wanted {
        Wanted::Holds(test) => match ask {
            Ask::Nothing => Some(Inner::Open(arity(test))),
            Ask::First(own, inner) => {
                if same_test(test, own) {
                    Some(inner)
                } else {
                    None
                }
            }
        },
        Wanted::Fails => match ask {
            Ask::Nothing => Some(Inner::Nothing),
            Ask::First(_, _) => None,
        },
    }
}

/// Adds the row with what is left of the column in its place, if anything is.
fn add_kept<'b, 'a>(
    alloc: Global,
    out: &mut Vec<Row<'b, 'a>>,
    row: &Row<'b, 'a>,
    column: usize,
    kept: Option<Inner<'b, 'a>>,
) -> Result<(), AllocError>
    requires { column < length row.now.parts.items }
    ensures { OnOk result (rows_view out.new.items ≡ rows_view out.old.items
        ++ keep (option_map (placed column (parts_view row.now.parts.items)) (option_map inner_view kept.entry))
        row.now.branch []) }
{
    match kept {
        None => Ok(()),
        Some(inner) => add_row(
            alloc,
            out,
            row.branch,
            &row.parts[..column],
            inner,
            &row.parts[column + 1..],
        ),
    }
}

/// Adds what is left of the row, if anything is.
fn add_left<'b, 'a>(
    alloc: Global,
    out: &mut Vec<Row<'b, 'a>>,
    wanted: Wanted<'a>,
    column: usize,
    row: &Row<'b, 'a>,
) -> Result<(), AllocError>
    ensures { OnOk result (rows_view out.new.items ≡ rows_view out.old.items
        ++ keep (narrowed (left_view wanted.entry) column (row_view row.now).patterns) row.now.branch []) }
{
    if row.parts.len() <= column {
        return add_row(alloc, out, row.branch, &row.parts, Inner::Nothing, &[]);
    }
    let kept = left(wanted, ask_part(row.parts[column]));
    add_kept(alloc, out, row, column, kept)
}

/// Adds what is left of the rows.
pub fn narrow<'b, 'a>(
    alloc: Global,
    out: &mut Vec<Row<'b, 'a>>,
    wanted: Wanted<'a>,
    column: usize,
    rows: &[Row<'b, 'a>],
) -> Result<(), AllocError>
    ensures { OnOk result (rows_view out.new.items
        ≡ rows_view out.old.items ++ narrow (left_view wanted.entry) column (rows_view rows.now)) }
{
    for row in rows {
        add_left(alloc, out, wanted, column, row)?;
    }
    Ok(())
}
