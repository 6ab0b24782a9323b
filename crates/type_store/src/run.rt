//! Doing what is asked, step by step.

ghost use Rattle.std.specs.Prelude.{◌≡◌, ◌<◌, ◌++◌, ◌∷◌, [], length, take, IfOk, IsTrue, false};
ghost use Rattle.std.specs.List.{All};
ghost use Rattle.type_store.specs.Solutions.{Clash};
ghost use Rattle.type_store.specs.Solutions as solutions;
ghost use Rattle.type_store.specs.Steps.{AskInside, IsGraph, Stepped, undone};
ghost use Rattle.type_store.specs.Ends.{Ran};
ghost use Rattle.type_store.specs.View.{ask_view, store_view, trail_view, work_view};

use crate::ask::Ask;
use crate::change::Change;
use crate::kinds::{step_class, step_lacks};
use crate::orders::Orders;
use crate::same::step_same;
use crate::slot::Slot;
use elm_base::names::Name;
use elm_type::class::Class;
use std::alloc::{AllocError, Global};

/// `step_class`, where the slots stand in a vector.
fn class_step(
    slots: &mut Vec<Slot>,
    trail: &mut Vec<Change>,
    work: &mut Vec<Ask>,
    variable: u32,
    class: Class,
) -> Result<bool, AllocError>
    requires graph { IsGraph (store_view slots.old.items) }
    requires inside { variable < length slots.old.items }
    ensures undone { take (length slots.old.items) (undone (store_view slots.new.items) (trail_view trail.new.items))
        ≡ undone (store_view slots.old.items) (trail_view trail.old.items) }
    ensures yes { IfOk result (λ done. IsTrue done → Stepped (store_view slots.old.items) (work_view work.old.items)
        (solutions.InClass variable class ∷ []) (store_view slots.new.items) (work_view work.new.items)) }
    ensures no { IfOk result (λ done. done ≡ false → Clash (store_view slots.old.items)
        (solutions.InClass variable class ∷ [])) }
{
    step_class(slots, trail, work, variable, class)
}

/// `step_lacks`, where the slots stand in a vector.
fn lack_step(
    slots: &mut Vec<Slot>,
    trail: &mut Vec<Change>,
    work: &mut Vec<Ask>,
    orders: &mut Orders,
    variable: u32,
    name: Name,
) -> Result<bool, AllocError>
    requires graph { IsGraph (store_view slots.old.items) }
    requires inside { variable < length slots.old.items }
    ensures undone { take (length slots.old.items) (undone (store_view slots.new.items) (trail_view trail.new.items))
        ≡ undone (store_view slots.old.items) (trail_view trail.old.items) }
    ensures yes { IfOk result (λ done. IsTrue done → Stepped (store_view slots.old.items) (work_view work.old.items)
        (solutions.Lacks variable name ∷ []) (store_view slots.new.items) (work_view work.new.items)) }
    ensures no { IfOk result (λ done. done ≡ false → Clash (store_view slots.old.items)
        (solutions.Lacks variable name ∷ [])) }
{
    step_lacks(slots, trail, work, orders, variable, name)
}

/// Does what is asked. What this asks of other variables goes to the work. False where no solution lets it. The error
/// means that memory ran out.
fn step(
    alloc: Global,
    slots: &mut Vec<Slot>,
    trail: &mut Vec<Change>,
    work: &mut Vec<Ask>,
    orders: &mut Orders,
    ask: Ask,
) -> Result<bool, AllocError>
    requires graph { IsGraph (store_view slots.old.items) }
    requires inside { AskInside (length slots.old.items) (ask_view ask) }
    ensures undone { take (length slots.old.items) (undone (store_view slots.new.items) (trail_view trail.new.items))
        ≡ undone (store_view slots.old.items) (trail_view trail.old.items) }
    ensures yes { IfOk result (λ done. IsTrue done → Stepped (store_view slots.old.items) (work_view work.old.items)
        (ask_view ask ∷ []) (store_view slots.new.items) (work_view work.new.items)) }
    ensures no { IfOk result (λ done. done ≡ false → Clash (store_view slots.old.items) (ask_view ask ∷ [])) }
{
    match ask {
        Ask::Same(variable, other) => step_same(alloc, slots, trail, work, variable, other),
        Ask::InClass(variable, class) => class_step(slots, trail, work, variable, class),
        Ask::Lacks(variable, name) => lack_step(slots, trail, work, orders, variable, name),
    }
}

/// Does all that is asked. False where no solution lets it. The error means that memory ran out.
pub(crate) fn run(
    alloc: Global,
    slots: &mut Vec<Slot>,
    trail: &mut Vec<Change>,
    work: &mut Vec<Ask>,
) -> Result<bool, AllocError>
    requires graph { IsGraph (store_view slots.old.items) }
    requires inside { All (AskInside (length slots.old.items)) (work_view work.old.items) }
    ensures undone { take (length slots.old.items) (undone (store_view slots.new.items) (trail_view trail.new.items))
        ≡ undone (store_view slots.old.items) (trail_view trail.old.items) }
    ensures yes { IfOk result (λ done. IsTrue done → Ran (store_view slots.old.items) (work_view work.old.items)
        (store_view slots.new.items)) }
    ensures no { IfOk result (λ done. done ≡ false → Clash (store_view slots.old.items)
        (work_view work.old.items)) }
{
    let mut orders = Orders::new(alloc);
    for _ in 0..u64::MAX {
        let Some(ask) = work.pop() else {
            return Ok(true);
        };
        if !step(alloc, slots, trail, work, &mut orders, ask)? {
            return Ok(false);
        }
    }
    Err(AllocError)
}
