//! Rows: what is left of a pattern, from left to right.

ghost use Rattle.std.specs.Prelude.{◌≡◌, IfOk, map, option_map, Bool, false};
ghost use Rattle.pattern_check.specs.Missing as missing;
ghost use Rattle.pattern_check.specs.Flat as flat;
ghost use Rattle.pattern_check.specs.Starts.{start_view, part_view, row_view, rows_view};

use crate::start::{Start, arity, same_start};
use std::alloc::{AllocError, Global};

/// A row of parts, each before its own parts.
#[derive(Clone, Copy)]
pub struct Row<'t, 'a> {
    /// How many open parts come first.
    pub open: usize,
    /// The others. None is open.
    pub rest: &'t [Option<Start<'a>>],
}

/// The first part of a row. None at its end.
pub fn first<'a>(row: Row<'_, 'a>) -> Option<Option<Start<'a>>>
    ensures { option_map part_view result ≡ flat.first_part (row_view row.entry) }
{
    if row.open > 0 {
        return Some(None);
    }
    match row.rest {
        [] => None,
        [part, ..] => Some(*part),
    }
}

/// The row without its first part.
pub fn rest_of<'t, 'a>(row: Row<'t, 'a>) -> Row<'t, 'a>
    ensures { row_view result ≡ flat.tail_of (row_view row.entry) }
{
    if row.open > 0 {
        return Row {
            open: row.open - 1,
            rest: row.rest,
        };
    }
    match row.rest {
        [] => row,
        [_, rest @ ..] => Row { open: 0, rest },
    }
}

/// The row after so many open parts. The error means that no memory could hold it.
pub fn after_open<'t, 'a>(row: Row<'t, 'a>, count: usize) -> Result<Row<'t, 'a>, AllocError>
    ensures { IfOk result (λ r. row_view r ≡ flat.append_open count (row_view row.entry)) }
{
    match row.open.checked_add(count) {
        None => Err(AllocError),
        Some(open) => Ok(Row {
            open,
            rest: row.rest,
        }),
    }
}

/// What the row asks for where its first part begins so. None where it begins otherwise.
pub fn row_where<'t, 'a>(
    start: Start<'a>,
    row: Row<'t, 'a>,
) -> Result<Option<Row<'t, 'a>>, AllocError>
    ensures { IfOk result (λ r. option_map row_view r ≡ flat.list_where (start_view start.entry) (row_view row.entry)) }
{
    let rest = rest_of(row);
    match first(row) {
        None => Ok(None),
        Some(None) => Ok(Some(after_open(rest, arity(start))?)),
        Some(Some(own)) => {
            if same_start(own, start) {
                Ok(Some(rest))
            } else {
                Ok(None)
            }
        }
    }
}
