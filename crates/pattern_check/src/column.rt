//! The first column of rows.

ghost use Rattle.std.specs.Prelude.{◌≡◌, IfOk, List, ◌∷◌, [], map, option_map, false};
ghost use Rattle.pattern_check.specs.Shapes as shapes;
ghost use Rattle.pattern_check.specs.Missing as missing;
ghost use Rattle.pattern_check.specs.Flat as flat;
ghost use Rattle.pattern_check.specs.Search as search;
ghost use Rattle.pattern_check.specs.Starts.{start_view, starts_view, list_starts, parts_view, row_view, rows_view};

use crate::row::{Row, first, rest_of, row_where};
use crate::start::{Start, same_start};
use elm_canon::unions::{Alternative, Union, UnionShape};
use std::alloc::{AllocError, Global};

/// Whether the parts are open, all of them.
fn are_open(parts: &[Option<Start<'_>>]) -> bool
    ensures { result ≡ flat.is_open_list (parts_view parts.now) }
{
    let mut rest = parts;
    while let [part, others @ ..] = rest {
        if part.is_some() {
            return false;
        }
        rest = others;
    }
    true
}

/// Whether the row asks for nothing.
fn is_open(row: Row<'_, '_>) -> bool
    ensures { result ≡ flat.is_open_list (row_view row.entry) }
{
    are_open(row.rest)
}

/// Whether some row asks for nothing.
pub fn some_open(rows: &[Row<'_, '_>]) -> bool
    ensures { result ≡ flat.some_open_list (rows_view rows.now) }
{
    let mut rest = rows;
    while let [row, others @ ..] = rest {
        if is_open(*row) {
            return true;
        }
        rest = others;
    }
    false
}

/// What the first row that asks for something in the column begins with.
pub fn first_start<'a>(rows: &[Row<'_, 'a>]) -> Option<Start<'a>>
    ensures { option_map start_view result ≡ flat.first_head (flat.list_heads (rows_view rows.now)) }
{
    let mut rest = rows;
    while let [row, others @ ..] = rest {
        if let Some(Some(start)) = first(*row) {
            return Some(start);
        }
        rest = others;
    }
    None
}

/// The rows without the column.
pub fn rests<'t, 'a>(alloc: Global, rows: &[Row<'t, 'a>]) -> Result<Vec<Row<'t, 'a>>, AllocError>
    ensures { IfOk result (λ out. rows_view out.items ≡ map flat.tail_of (rows_view rows.now)) }
{
    let mut out = Vec::new(alloc);
    let mut rest = rows;
    while let [row, others @ ..] = rest {
        out.push(rest_of(*row))?;
        rest = others;
    }
    Ok(out)
}

/// What the rows ask for where the column begins so.
pub fn rows_where<'t, 'a>(
    alloc: Global,
    start: Start<'a>,
    rows: &[Row<'t, 'a>],
) -> Result<Vec<Row<'t, 'a>>, AllocError>
    ensures { IfOk result (λ out. rows_view out.items
        ≡ flat.lists_where (start_view start.entry) (rows_view rows.now)) }
{
    let mut out = Vec::new(alloc);
    let mut rest = rows;
    while let [row, others @ ..] = rest {
        match row_where(start, *row)? {
            Some(kept) => out.push(kept)?,
            None => {}
        }
        rest = others;
    }
    Ok(out)
}

/// Whether one of the starts is the same.
fn has_start(start: Start<'_>, kept: &[Start<'_>]) -> bool
    ensures { result ≡ missing.has_head (start_view start.entry) (starts_view kept.now) }
{
    let mut rest = kept;
    while let [own, others @ ..] = rest {
        if same_start(*own, start) {
            return true;
        }
        rest = others;
    }
    false
}

/// What the rows begin with, each once.
fn each_start<'a>(alloc: Global, rows: &[Row<'_, 'a>]) -> Result<Vec<Start<'a>>, AllocError>
    ensures { IfOk result (λ out. starts_view out.items
        ≡ missing.with_each [] (flat.list_heads (rows_view rows.now))) }
{
    let mut out = Vec::new(alloc);
    let mut rest = rows;
    while let [row, others @ ..] = rest {
        if let Some(Some(start)) = first(*row) {
            if !has_start(start, &out) {
                out.push(start)?;
            }
        }
        rest = others;
    }
    Ok(out)
}

/// The constructors of a union.
fn constructors<'a>(
    alloc: Global,
    union: &'a Union,
    alternatives: &'a [Alternative],
) -> Result<Vec<Start<'a>>, AllocError>
    ensures { IfOk result (λ out. starts_view out.items ≡ map (shapes.Constructor union.now) alternatives.now) }
{
    let mut out = Vec::new(alloc);
    let mut rest = alternatives;
    while let [alternative, others @ ..] = rest {
        out.push(Start::Constructor(union, alternative))?;
        rest = others;
    }
    Ok(out)
}

/// What is tried in a column where the first row that asks for something begins with `first`.
pub fn candidates<'a>(
    alloc: Global,
    first: Start<'a>,
    rows: &[Row<'_, 'a>],
) -> Result<Vec<Start<'a>>, AllocError>
    ensures { IfOk result (λ out. (hs : List shapes.Head)
        → flat.list_heads (rows_view rows.now) ≡ start_view first.entry ∷ hs
        → starts_view out.items ≡ missing.candidates (start_view first.entry) hs) }
{
    match first {
        Start::Literal(_) | Start::Other => {
            let mut out = each_start(alloc, rows)?;
            out.push(Start::Other)?;
            Ok(out)
        }
        Start::Tuple(count) => one(alloc, Start::Tuple(count)),
        Start::Empty | Start::Item => both(alloc),
        Start::Constructor(union, _) => match union.shape() {
            UnionShape::Tuple(count) => one(alloc, Start::Tuple(*count)),
            UnionShape::List => both(alloc),
            UnionShape::Declared(_, _, alternatives) => constructors(alloc, union, alternatives),
        },
    }
}

/// Whether some row begins so.
fn is_asked(start: Start<'_>, rows: &[Row<'_, '_>]) -> bool
    ensures { result ≡ missing.has_head (start_view start.entry) (flat.list_heads (rows_view rows.now)) }
{
    let mut rest = rows;
    while let [row, others @ ..] = rest {
        if let Some(Some(own)) = first(*row) {
            if same_start(own, start) {
                return true;
            }
        }
        rest = others;
    }
    false
}

/// The candidates that are tried: each that some row begins with, and the first of the others.
pub fn tried<'a>(
    alloc: Global,
    candidates: &[Start<'a>],
    rows: &[Row<'_, 'a>],
) -> Result<Vec<Start<'a>>, AllocError>
    ensures { IfOk result (λ out. starts_view out.items
        ≡ search.tried false (flat.list_heads (rows_view rows.now)) (starts_view candidates.now)) }
{
    let mut out = Vec::new(alloc);
    let mut seen = false;
    let mut rest = candidates;
    while let [start, others @ ..] = rest {
        if is_asked(*start, rows) {
            out.push(*start)?;
        } else if !seen {
            out.push(*start)?;
            seen = true;
        }
        rest = others;
    }
    Ok(out)
}

/// The one start.
fn one<'a>(alloc: Global, start: Start<'a>) -> Result<Vec<Start<'a>>, AllocError>
    ensures { IfOk result (λ out. starts_view out.items ≡ start_view start.entry ∷ []) }
{
    let mut out = Vec::new(alloc);
    out.push(start)?;
    Ok(out)
}

/// The constructors of lists.
fn both<'a>(alloc: Global) -> Result<Vec<Start<'a>>, AllocError>
    ensures { IfOk result (λ out. starts_view out.items ≡ list_starts) }
{
    let mut out = one(alloc, Start::Empty)?;
    out.push(Start::Item)?;
    Ok(out)
}
