//! The search for a missing row.

ghost use Rattle.std.specs.Prelude.{◌≡◌, ◌≤◌, ◌+◌, IfOk, OnOk, Some, None, map, option_map, suc, [], ◌++◌, ◌∷◌};
ghost use Rattle.pattern_check.specs.Flat.{found_in, found_at, open_parts};
ghost use Rattle.pattern_check.specs.Starts.{start_view, starts_view, part_view, parts_view, row_view, rows_view};
ghost use Rattle.pattern_check.specs.Search.{from_last, task_found, next_found, frame_try, frames_found, look_found, IsDone};
ghost use Rattle.pattern_check.specs.Search.{work_at, work_in, task_work, next_work, frame_step, frames_work, look_work};

use crate::column::{candidates, first_start, rests, rows_where, some_open, tried};
use crate::row::{Row, after_open, first, rest_of};
use crate::start::{Start, arity};
use std::alloc::{AllocError, Global};

/// What is wanted: a special case of a row that overlaps none of the others.
#[derive(Drop)]
pub struct Task<'t, 'a> {
    /// How many literals and constructors may still be looked at.
    pub bound: usize,
    pub wanted: Row<'t, 'a>,
    pub rows: Vec<Row<'t, 'a>>,
}

/// A column in which candidates are tried.
#[derive(Drop)]
pub struct Frame<'t, 'a> {
    /// How many open columns come before it.
    pub opens: usize,
    pub bound: usize,
    /// Whether the wanted row itself asks for the candidate.
    pub asked: bool,
    pub wanted: Row<'t, 'a>,
    pub rows: Vec<Row<'t, 'a>>,
    /// The candidate that is being tried.
    pub start: Start<'a>,
    /// Those that are left. The last is the next.
    pub candidates: Vec<Start<'a>>,
}

/// What is known of a task at once.
#[derive(Drop)]
pub enum Look<'t, 'a> {
    /// So many open parts are missing.
    Found(usize),
    Nothing,
    Split(Frame<'t, 'a>),
}

/// The starts from the last to the first.
fn reversed<'a>(alloc: Global, mut starts: Vec<Start<'a>>) -> Result<Vec<Start<'a>>, AllocError>
    ensures { IfOk result (λ out. from_last (starts_view out.items) [] ≡ starts_view starts.entry.items) }
{
    let mut out = Vec::new(alloc);
    while let Some(start) = starts.pop() {
        out.push(start)?;
    }
    Ok(out)
}

/// The columns that no row asks for are passed over.
fn pass<'t, 'a>(
    alloc: Global,
    bound: usize,
    mut wanted: Row<'t, 'a>,
    mut rows: Vec<Row<'t, 'a>>,
) -> Result<Look<'t, 'a>, AllocError>
    ensures found { IfOk result (λ l. look_found l
        ≡ found_at (found_in bound) (row_view wanted.entry) (rows_view rows.entry.items)) }
    ensures light { IfOk result (λ l. look_work l
        ≤ work_at (work_in bound) (row_view wanted.entry) (rows_view rows.entry.items)) }
{
    let mut opens = 0usize;
    while let Some(part) = first(wanted) {
        if let Some(start) = part {
            let mut candidates = Vec::new(alloc);
            candidates.push(start)?;
            return Ok(Look::Split(Frame {
                opens,
                bound,
                asked: true,
                wanted: rest_of(wanted),
                rows,
                start,
                candidates,
            }));
        }
        if let Some(start) = first_start(&rows) {
            let all = candidates(alloc, start, &rows)?;
            let tried = tried(alloc, &all, &rows)?;
            return Ok(Look::Split(Frame {
                opens,
                bound,
                asked: false,
                wanted: rest_of(wanted),
                candidates: reversed(alloc, tried)?,
                rows,
                start,
            }));
        }
        opens = match opens.checked_add(1) {
            None => return Err(AllocError),
            Some(more) => more,
        };
        rows = rests(alloc, &rows)?;
        wanted = rest_of(wanted);
    }
    if rows.len() == 0 {
        Ok(Look::Found(opens))
    } else {
        Ok(Look::Nothing)
    }
}

/// What is known of the task at once.
fn looked_at<'t, 'a>(alloc: Global, task: Task<'t, 'a>) -> Result<Look<'t, 'a>, AllocError>
    ensures found { IfOk result (λ l. look_found l ≡ task_found task.entry) }
    ensures light { IfOk result (λ l. look_work l ≤ task_work task.entry) }
{
    if task.bound == 0 {
        return Ok(Look::Nothing);
    }
    if some_open(&task.rows) {
        return Ok(Look::Nothing);
    }
    pass(alloc, task.bound - 1, task.wanted, task.rows)
}

/// The task of the next candidate of a frame, which begins so.
fn task_of<'t, 'a>(
    alloc: Global,
    frame: &Frame<'t, 'a>,
    start: Start<'a>,
) -> Result<Task<'t, 'a>, AllocError>
    ensures found { IfOk result (λ t. option_map (λ ps. Some (start_view start.entry) ∷ ps) (task_found t)
        ≡ frame_try frame.now (start_view start.entry)) }
    ensures light { IfOk result (λ t. task_work t ≡ frame_step frame.now (start_view start.entry)) }
{
    let rows = rows_where(alloc, start, &frame.rows)?;
    let wanted = if frame.asked {
        frame.wanted
    } else {
        after_open(frame.wanted, arity(start))?
    };
    Ok(Task {
        bound: frame.bound,
        wanted,
        rows,
    })
}

/// The next task, where the one before has found nothing.
fn advance<'t, 'a>(
    alloc: Global,
    frames: &mut Vec<Frame<'t, 'a>>,
) -> Result<Option<Task<'t, 'a>>, AllocError>
    ensures found { IfOk result (λ next. frames_found frames.new.items (next_found next)
        ≡ frames_found frames.old.items None) }
    ensures light { IfOk result (λ next. frames_work frames.new.items + next_work next
        ≤ frames_work frames.old.items) }
    ensures done { IfOk result (λ next. IsDone next frames.new.items) }
{
    while let Some(mut frame) = frames.pop() {
        if let Some(start) = frame.candidates.pop() {
            let task = task_of(alloc, &frame, start)?;
            frame.start = start;
            frames.push(frame)?;
            return Ok(Some(task));
        }
    }
    Ok(None)
}

/// The parts of the frames, and then so many open ones.
fn path<'a>(
    alloc: Global,
    frames: &[Frame<'_, 'a>],
    opens: usize,
) -> Result<Vec<Option<Start<'a>>>, AllocError>
    ensures { IfOk result (λ parts. Some (parts_view parts.items)
        ≡ frames_found frames.now (Some (open_parts opens))) }
{
    let mut parts = Vec::new(alloc);
    let mut rest = frames;
    while let [frame, others @ ..] = rest {
        add_open(&mut parts, frame.opens)?;
        parts.push(Some(frame.start))?;
        rest = others;
    }
    add_open(&mut parts, opens)?;
    Ok(parts)
}

/// The parts, and then so many open ones.
fn add_open<'a>(parts: &mut Vec<Option<Start<'a>>>, count: usize) -> Result<(), AllocError>
    ensures { OnOk result (parts_view parts.new.items ≡ parts_view parts.old.items ++ open_parts count) }
{
    for _ in 0..count {
        parts.push(None)?;
    }
    Ok(())
}

/// The missing row of the task.
pub fn search<'t, 'a>(
    alloc: Global,
    task: Task<'t, 'a>,
) -> Result<Option<Vec<Option<Start<'a>>>>, AllocError>
    ensures { IfOk result (λ r. option_map (λ parts. parts_view parts.items) r ≡ task_found task.entry) }
{
    let mut frames = Vec::new(alloc);
    let mut next = Some(task);
    while let Some(task) = next {
        match looked_at(alloc, task)? {
            Look::Found(opens) => return Ok(Some(path(alloc, &frames, opens)?)),
            Look::Nothing => {}
            Look::Split(frame) => frames.push(frame)?,
        }
        next = advance(alloc, &mut frames)?;
    }
    Ok(None)
}
