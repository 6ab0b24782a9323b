//! Two variables are asked to have the same type.

ghost use Rattle.std.specs.Prelude.{◌≡◌, ◌<◌, ◌++◌, ◌∷◌, [], length, take, IfOk, IsTrue, false};
ghost use Rattle.type_store.specs.Solutions.{Clash};
ghost use Rattle.type_store.specs.Solutions as solutions;
ghost use Rattle.type_store.specs.Steps.{IsGraph, Stepped, is_bound, undone};
ghost use Rattle.type_store.specs.Store.{slot_at};
ghost use Rattle.type_store.specs.View.{store_view, trail_view, work_view};

use crate::ask::Ask;
use crate::chain::find;
use crate::change::Change;
use crate::join::{join_bind, join_parts, join_take};
use crate::pair::{Pair, pair_of};
use crate::row::join_rows;
use crate::slot::Slot;
use std::alloc::{AllocError, Global};

/// Makes two variables that are not bound, and of which the first has the lower number, the same. False where no
/// solution does. The error means that memory ran out.
#[tactic(auto, using(crate::proofs::Growing::undone_same, crate::proofs::Growing::undone_written))]
fn join_roots(
    alloc: Global,
    slots: &mut Vec<Slot>,
    trail: &mut Vec<Change>,
    work: &mut Vec<Ask>,
    first: u32,
    second: u32,
) -> Result<bool, AllocError>
    requires graph { IsGraph (store_view slots.old.items) }
    requires below { first < second }
    requires inside { second < length slots.old.items }
    requires first_ends { is_bound (slot_at (store_view slots.old.items) first).cell ≡ false }
    requires second_ends { is_bound (slot_at (store_view slots.old.items) second).cell ≡ false }
    ensures undone { take (length slots.old.items) (undone (store_view slots.new.items) (trail_view trail.new.items))
        ≡ undone (store_view slots.old.items) (trail_view trail.old.items) }
    ensures yes { IfOk result (λ done. IsTrue done → Stepped (store_view slots.old.items) (work_view work.old.items)
        (solutions.Same first second ∷ []) (store_view slots.new.items) (work_view work.new.items)) }
    ensures no { IfOk result (λ done. done ≡ false → Clash (store_view slots.old.items)
        (solutions.Same first second ∷ [])) }
{
    match pair_of(&slots[first as usize].cell, &slots[second as usize].cell) {
        Pair::Bind => {
            join_bind(alloc, slots, trail, work, first, second)?;
            Ok(true)
        }
        Pair::Take => {
            join_take(alloc, slots, trail, work, first, second)?;
            Ok(true)
        }
        Pair::Parts => {
            join_parts(alloc, slots, trail, work, first, second)?;
            Ok(true)
        }
        Pair::Rows => join_rows(alloc, slots, trail, work, first, second),
        Pair::Apart => Ok(false),
    }
}

/// Makes two variables the same. What this asks of other variables goes to the work. False where no solution lets it.
/// The error means that memory ran out.
#[tactic(auto, using(crate::proofs::Growing::undone_same, crate::proofs::Growing::undone_written))]
pub(crate) fn step_same(
    alloc: Global,
    slots: &mut Vec<Slot>,
    trail: &mut Vec<Change>,
    work: &mut Vec<Ask>,
    variable: u32,
    other: u32,
) -> Result<bool, AllocError>
    requires graph { IsGraph (store_view slots.old.items) }
    requires first { variable < length slots.old.items }
    requires second { other < length slots.old.items }
    ensures undone { take (length slots.old.items) (undone (store_view slots.new.items) (trail_view trail.new.items))
        ≡ undone (store_view slots.old.items) (trail_view trail.old.items) }
    ensures yes { IfOk result (λ done. IsTrue done → Stepped (store_view slots.old.items) (work_view work.old.items)
        (solutions.Same variable other ∷ []) (store_view slots.new.items) (work_view work.new.items)) }
    ensures no { IfOk result (λ done. done ≡ false → Clash (store_view slots.old.items)
        (solutions.Same variable other ∷ [])) }
{
    let first = find(slots, variable);
    let second = find(slots, other);
    if first == second {
        return Ok(true);
    }
    if first < second {
        join_roots(alloc, slots, trail, work, first, second)
    } else {
        join_roots(alloc, slots, trail, work, second, first)
    }
}
