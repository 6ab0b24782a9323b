//! Missing and redundant patterns.

ghost use Rattle.std.specs.Prelude.{◌≡◌, ◌+◌, ◌∷◌, ◌++◌, suc, length, List, IfOk, OnOk, [], map, option_map, is_some};
ghost use Rattle.elm_canon.specs.View.{pattern_view};
ghost use Rattle.pattern_check.specs.Missing as missing;
ghost use Rattle.pattern_check.specs.Starts.{parts_view, row_view, rows_view};
ghost use Rattle.pattern_check.specs.Counted.{count_of, total_of, patterns_parts, left_out_list, missing_list, redundant_list};
ghost use Rattle.pattern_check.specs.Text.{pattern_text};
ghost use Rattle.pattern_check.specs.Flat.{Part};

use crate::build::built;
use crate::listed::parts_of;
use crate::row::Row;
use crate::search::{Task, search};
use crate::start::Start;
use crate::text::write;
use elm_base::units::Units;
use elm_canon::tree::Pattern;
use std::alloc::{AllocError, Global};

/// The parts of each pattern.
fn lists_of<'a>(
    alloc: Global,
    patterns: &[&'a Pattern],
) -> Result<Vec<Vec<Option<Start<'a>>>>, AllocError>
    ensures { IfOk result (λ out. map (λ v. parts_view v.items) out.items
        ≡ patterns_parts (map (λ p. p.now) patterns.now)) }
{
    let mut out = Vec::new(alloc);
    let mut rest = patterns;
    while let [pattern, others @ ..] = rest {
        out.push(parts_of(alloc, pattern)?)?;
        rest = others;
    }
    Ok(out)
}

/// A row for each list.
fn rows_of<'t, 'a>(
    alloc: Global,
    lists: &'t [Vec<Option<Start<'a>>>],
) -> Result<Vec<Row<'t, 'a>>, AllocError>
    ensures { IfOk result (λ out. rows_view out.items ≡ map (λ v. parts_view v.items) lists.now) }
{
    let mut out = Vec::new(alloc);
    let mut rest = lists;
    while let [list, others @ ..] = rest {
        out.push(Row {
            open: 0,
            rest: list,
        })?;
        rest = others;
    }
    Ok(out)
}

/// The sum. The error means that there is too much to count.
fn sum(first: usize, second: usize) -> Result<usize, AllocError>
    ensures { IfOk result (λ n. n ≡ first + second) }
{
    first.checked_add(second).ok_or(AllocError)
}

/// How many of the parts are not open. The error means that there are too many to count.
fn count(parts: &[Option<Start<'_>>]) -> Result<usize, AllocError>
    ensures { IfOk result (λ n. n ≡ count_of (parts_view parts.now)) }
{
    let mut total = 0usize;
    let mut rest = parts;
    while let [part, others @ ..] = rest {
        if part.is_some() {
            total = match total.checked_add(1) {
                None => return Err(AllocError),
                Some(more) => more,
            };
        }
        rest = others;
    }
    Ok(total)
}

/// How many parts of the row are not open.
fn row_count(row: Row<'_, '_>) -> Result<usize, AllocError>
    ensures { IfOk result (λ n. n ≡ count_of (row_view row.entry)) }
{
    count(row.rest)
}

/// How many parts of the rows are not open.
fn total(rows: &[Row<'_, '_>]) -> Result<usize, AllocError>
    ensures { IfOk result (λ n. n ≡ total_of (rows_view rows.now)) }
{
    let mut total = 0usize;
    let mut rest = rows;
    while let [row, others @ ..] = rest {
        total = match total.checked_add(row_count(*row)?) {
            None => return Err(AllocError),
            Some(more) => more,
        };
        rest = others;
    }
    Ok(total)
}

/// The rows once more.
fn copied<'t, 'a>(alloc: Global, rows: &[Row<'t, 'a>]) -> Result<Vec<Row<'t, 'a>>, AllocError>
    ensures { IfOk result (λ out. out.items ≡ rows.now) }
{
    let mut out = Vec::with_capacity(alloc, rows.len())?;
    out.extend_from_slice(rows)?;
    Ok(out)
}

/// The parts of a special case of the row that the others leave out. So many of their parts are not open.
fn left_out<'t, 'a>(
    alloc: Global,
    wanted: Row<'t, 'a>,
    rows: &[Row<'t, 'a>],
    asked: usize,
) -> Result<Option<Vec<Option<Start<'a>>>>, AllocError>
    requires { asked ≡ total_of (rows_view rows.now) }
    ensures { IfOk result (λ r. option_map (λ parts. parts_view parts.items) r
        ≡ left_out_list (row_view wanted.entry) (rows_view rows.now)) }
{
    let Some(all) = row_count(wanted)?.checked_add(asked) else {
        return Err(AllocError);
    };
    let Some(bound) = all.checked_add(1) else {
        return Err(AllocError);
    };
    search(
        alloc,
        Task {
            bound,
            wanted,
            rows: copied(alloc, rows)?,
        },
    )
}

/// Adds the place of a row that comes after these, if it is redundant. So many of their parts are not open.
fn push_if_redundant<'t, 'a>(
    alloc: Global,
    places: &mut Vec<usize>,
    row: Row<'t, 'a>,
    earlier: &[Row<'t, 'a>],
    asked: usize,
) -> Result<(), AllocError>
    requires { asked ≡ total_of (rows_view earlier.now) }
    ensures { OnOk result ((rows : List (List Part)) → places.new.items
        ++ redundant_list (suc (length earlier.now)) (rows_view earlier.now ++ row_view row.entry ∷ []) rows
        ≡ places.old.items ++ redundant_list (length earlier.now) (rows_view earlier.now) (row_view row.entry ∷ rows)) }
{
    if left_out(alloc, row, earlier, asked)?.is_none() {
        places.push(earlier.len())?;
    }
    Ok(())
}

/// The places of the rows that are redundant, from 0 on.
fn redundant_rows<'t, 'a>(alloc: Global, rows: &[Row<'t, 'a>]) -> Result<Vec<usize>, AllocError>
    ensures { IfOk result (λ places. places.items ≡ redundant_list 0 [] (rows_view rows.now)) }
{
    let mut places = Vec::new(alloc);
    let mut earlier = Vec::new(alloc);
    let mut asked = 0usize;
    let mut rest = rows;
    while let [row, others @ ..] = rest {
        push_if_redundant(alloc, &mut places, *row, &earlier, asked)?;
        asked = sum(asked, row_count(*row)?)?;
        earlier.push(*row)?;
        rest = others;
    }
    Ok(places)
}

/// The places of the patterns that are redundant, from 0 on: those of which each special case overlaps an earlier one.
/// The error means that memory ran out.
pub fn redundant(alloc: Global, patterns: &[&Pattern]) -> Result<Vec<usize>, AllocError>
    ensures { IfOk result (λ places. places.items
        ≡ missing.redundant (map pattern_view (map (λ p. p.now) patterns.now))) }
{
    let lists = lists_of(alloc, patterns)?;
    let rows = rows_of(alloc, &lists)?;
    redundant_rows(alloc, &rows)
}

/// The parts of the row that is missing where anything is wanted.
fn missing_parts<'a>(
    alloc: Global,
    patterns: &[&'a Pattern],
) -> Result<Option<Vec<Option<Start<'a>>>>, AllocError>
    ensures { IfOk result (λ found. option_map (λ parts. parts_view parts.items) found
        ≡ missing_list (map (λ p. p.now) patterns.now)) }
{
    let lists = lists_of(alloc, patterns)?;
    let rows = rows_of(alloc, &lists)?;
    let none = Vec::new(alloc);
    let anything = Row {
        open: 1,
        rest: &none,
    };
    left_out(alloc, anything, &rows, total(&rows)?)
}

/// Whether the patterns leave something out: some shape of their type overlaps none of them. The error means that
/// memory ran out.
pub fn leave_out(alloc: Global, patterns: &[&Pattern]) -> Result<bool, AllocError>
    ensures { IfOk result (λ b. b
        ≡ is_some (missing.missing (map pattern_view (map (λ p. p.now) patterns.now)))) }
{
    Ok(missing_parts(alloc, patterns)?.is_some())
}

/// The pattern that is reported missing: the first shape of their type that overlaps none of the patterns, as it is
/// written. None where they leave nothing out. The error means that memory ran out.
pub fn missing(alloc: Global, patterns: &[&Pattern]) -> Result<Option<Pattern>, AllocError>
    ensures { IfOk result (λ found. option_map pattern_view found
        ≡ missing.missing (map pattern_view (map (λ p. p.now) patterns.now))) }
{
    let Some(parts) = missing_parts(alloc, patterns)? else {
        return Ok(None);
    };
    let mut made = built(alloc, parts)?;
    Ok(made.pop())
}

/// The text of the pattern that is reported missing, as Elm writes patterns. None where the patterns leave nothing out.
/// The error means that memory ran out.
pub fn missing_text(alloc: Global, patterns: &[&Pattern]) -> Result<Option<Units>, AllocError>
    ensures { IfOk result (λ found. found
        ≡ option_map pattern_text (missing.missing (map pattern_view (map (λ p. p.now) patterns.now)))) }
{
    let Some(parts) = missing_parts(alloc, patterns)? else {
        return Ok(None);
    };
    let text = write(alloc, &parts)?;
    Ok(Some(Units::from_vec(text)))
}
