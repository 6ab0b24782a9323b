//! Where a return position stands.

ghost use Rattle.std.specs.Prelude.{◌≡◌, ℕ, ◌+◌, length, IfOk};
ghost use Rattle.elm_canon.specs.Tree.{Exprs};
ghost use Rattle.elm_canon.specs.View.{expr_view, patterns_view};
ghost use Rattle.elm_canon.specs.Proper.{count_exprs};
ghost use Rattle.js_emit.specs.Names.{made_names};
ghost use Rattle.js_emit.specs.Loops.{Inside, goes_round, variables};
ghost use Rattle.js_emit.specs.Made.{loop_of};
ghost use Rattle.emit_exprs.specs.Turns.{loop_view};

use crate::turns::is_name;
use elm_canon::reference::Ref;
use elm_canon::tree::{Expr, Pattern};
use std::alloc::AllocError;

/// Where a return position stands.
#[derive(Drop)]
pub enum Loop {
    /// In no loop.
    Outside,
    /// In the loop of that function, with so many variables, whose numbers begin with that one.
    Inside(Ref, u64, usize),
}

/// The number after so many more.
fn after(made: u64, count: usize) -> Result<u64, AllocError>
    ensures { IfOk result (λ n. n ≡ made + count) }
{
    made.checked_add(count as u64).ok_or(AllocError)
}

/// In the loop of `function`, with so many variables, whose numbers begin with `first`.
fn inside(function: &Ref, first: u64, count: usize) -> Result<Loop, AllocError>
    ensures { IfOk result (λ l. loop_view l ≡ Inside function.now (made_names first count)) }
{
    Ok(Loop::Inside(function.clone()?, first, count))
}

/// The loop of the function `function` with these parameters. The next made name has the number `made`. The error means
/// that memory ran out.
pub fn loop_of(function: &Ref, made: u64, parameters: &Vec<Pattern>) -> Result<Loop, AllocError>
    ensures { IfOk result (λ l. loop_view l ≡ loop_of made function.now (patterns_view parameters.now.items)) }
{
    let first = after(made, parameters.len())?;
    inside(function, first, parameters.len())
}

/// The number of the first variable of a loop. In no loop it means nothing.
pub fn first_variable(place: &Loop) -> u64
    ensures { (n : ℕ) → n ≡ length (variables (loop_view place.now))
        → variables (loop_view place.now) ≡ made_names result n }
{
    match place {
        Loop::Outside => 0,
        Loop::Inside(_, first, _) => *first,
    }
}

/// Whether a call of `callee` with so many arguments is the next turn of the loop `place`.
pub fn goes_round(place: &Loop, callee: &Expr, arguments: usize) -> bool
    ensures { (es : Exprs) → count_exprs es ≡ arguments
        → result ≡ goes_round (loop_view place.now) (expr_view callee.now) es }
{
    match place {
        Loop::Outside => false,
        Loop::Inside(function, _, count) => is_name(function, callee) && arguments == *count,
    }
}
