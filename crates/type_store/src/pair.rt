//! How what is known of two variables goes together.

ghost use Rattle.std.specs.Prelude.{◌≡◌, false};
ghost use Rattle.type_store.specs.Steps.{Paired, is_bound};
ghost use Rattle.type_store.specs.View.{cell_view};

use crate::alike::{same_head, same_rigid};
use crate::slot::Cell;

/// How what is known of two variables goes together.
pub enum Pair {
    /// The second is to be bound to the first.
    Bind,
    /// The first takes what is known of the second, which is to be bound to it.
    Take,
    /// The parts are to be the same.
    Parts,
    /// Both are records.
    Rows,
    /// No type is of both forms.
    Apart,
}

/// How what is known of two variables that are not bound goes together.
pub(crate) fn pair_of(first: &Cell, second: &Cell) -> Pair
    requires first { is_bound (cell_view first.now) ≡ false }
    requires second { is_bound (cell_view second.now) ≡ false }
    ensures { Paired result (cell_view first.now) (cell_view second.now) }
{
    match second {
        Cell::Open => Pair::Bind,
        Cell::Bound(_to) => Pair::Apart,
        Cell::Built(head, parts) => match first {
            Cell::Open => Pair::Take,
            Cell::Built(other, others) => {
                if same_head(other, head) && others.len() == parts.len() {
                    Pair::Parts
                } else {
                    Pair::Apart
                }
            }
            Cell::Bound(_) | Cell::Row(_, _) | Cell::Constant(_) => Pair::Apart,
        },
        Cell::Row(_fields, _end) => match first {
            Cell::Open => Pair::Take,
            Cell::Row(_, _) => Pair::Rows,
            Cell::Bound(_) | Cell::Built(_, _) | Cell::Constant(_) => Pair::Apart,
        },
        Cell::Constant(rigid) => match first {
            Cell::Open => Pair::Take,
            Cell::Constant(other) => {
                if same_rigid(other, rigid) {
                    Pair::Bind
                } else {
                    Pair::Apart
                }
            }
            Cell::Bound(_) | Cell::Built(_, _) | Cell::Row(_, _) => Pair::Apart,
        },
    }
}
