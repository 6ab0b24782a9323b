//! What is asked is added to a store.

ghost use Rattle.std.specs.Prelude.{◌≡◌, ◌<◌, ◌∷◌, [], Ok, Err, OnOk, OnErr, length, take, true, false, IsTrue, ◌↔◌};
ghost use Rattle.std.specs.List.{All};
ghost use Rattle.type_store.specs.Solutions.{Added, Clash};
ghost use Rattle.type_store.specs.Shape.{IsStore};
ghost use Rattle.type_store.specs.Steps.{AskInside, undone};
ghost use Rattle.type_store.specs.Cycles.{IsAtRest};
ghost use Rattle.type_store.specs.Levels.{depths_undone};
ghost use Rattle.type_store.specs.Adding.{IsIdle, IsReady, Settled};
ghost use Rattle.type_store.specs.Reaching.{GoesOn};
ghost use Rattle.type_store.specs.View.{ask_view, store_view, trail_view, work_view};

use crate::ask::Ask;
use crate::change::Change;
use crate::changed::note_changed;
use crate::error::AddError;
use crate::level::DepthChange;
use crate::run::run;
use crate::slot::Slot;
use crate::through::{finish_slots, undo_slot_depths, undo_slots};
use crate::tools::Tools;
use std::alloc::{AllocError, Global};

/// Does what is asked, and makes the store whole. False where no solution lets it. The error means that memory ran out.
/// What is changed is noted.
fn settle(alloc: Global, slots: &mut Vec<Slot>, tools: &mut Tools) -> Result<bool, AllocError>
    requires ready { IsReady (store_view slots.old.items) (work_view tools.old.work.items) }
    requires idle { IsIdle tools.old }
    ensures yes { result ≡ Ok true → Settled (store_view slots.old.items) (work_view tools.old.work.items)
        (store_view slots.new.items) }
    ensures no { result ≡ Ok false → Clash (store_view slots.old.items) (work_view tools.old.work.items) }
    ensures undone { take (length slots.old.items) (undone (depths_undone (store_view slots.new.items)
        tools.new.depths.items) (trail_view tools.new.trail.items)) ≡ store_view slots.old.items }
    ensures depths { All (λ c. c.slot < length slots.new.items) tools.new.depths.items }
    ensures todo { tools.new.todo.items ≡ [] }
    ensures search { IsAtRest tools.new.search }
    ensures made { tools.new.made.items ≡ tools.old.made.items }
{
    let count = slots.len();
    if !run(alloc, slots, &mut tools.trail, &mut tools.work)? {
        return Ok(false);
    }
    let total = slots.len();
    note_changed(&mut tools.changed, &tools.trail, count, total)?;
    finish_slots(
        slots,
        &tools.changed,
        &mut tools.todo,
        &mut tools.depths,
        &mut tools.search,
    )
}

/// Whether what was asked is done.
fn is_done(answer: &Result<bool, AllocError>) -> bool
    ensures { IsTrue result ↔ answer.now ≡ Ok true }
{
    match answer {
        Ok(done) => *done,
        Err(_) => false,
    }
}

/// Undoes what was changed, and takes away what was made after so many slots.
fn undo_all(
    slots: &mut Vec<Slot>,
    trail: &mut Vec<Change>,
    depths: &mut Vec<DepthChange>,
    count: usize,
)
    requires { All (λ c. c.slot < length slots.old.items) depths.old.items }
    ensures slots { store_view slots.new.items ≡ take count (undone (depths_undone (store_view slots.old.items)
        depths.old.items) (trail_view trail.old.items)) }
    ensures trail { trail.new.items ≡ [] }
    ensures depths { depths.new.items ≡ [] }
{
    undo_slot_depths(slots, depths);
    undo_slots(slots, trail);
    slots.truncate(count);
}

/// Does what is asked, and makes the store whole. False where no solution lets it: then the store is as before, as it
/// is where memory ran out, which is the error.
pub(crate) fn add(
    alloc: Global,
    slots: &mut Vec<Slot>,
    tools: &mut Tools,
) -> Result<bool, AllocError>
    requires ready { IsReady (store_view slots.old.items) (work_view tools.old.work.items) }
    requires idle { IsIdle tools.old }
    ensures yes { result ≡ Ok true → Settled (store_view slots.old.items) (work_view tools.old.work.items)
        (store_view slots.new.items) }
    ensures no { result ≡ Ok false → Clash (store_view slots.old.items) (work_view tools.old.work.items) }
    ensures kept { (result ≡ Ok true → ⊥) → store_view slots.new.items ≡ store_view slots.old.items }
    ensures idle { IsIdle tools.new }
    ensures work { tools.new.work.items ≡ [] }
    ensures made { tools.new.made.items ≡ tools.old.made.items }
{
    let count = slots.len();
    let answer = settle(alloc, slots, tools);
    if !is_done(&answer) {
        undo_all(slots, &mut tools.trail, &mut tools.depths, count);
    }
    tools.work.clear();
    tools.trail.clear();
    tools.changed.clear();
    tools.depths.clear();
    answer
}

/// Adds what is asked. The errors: no types let it; memory ran out. Then the store is as before.
pub(crate) fn add_ask(
    alloc: Global,
    slots: &mut Vec<Slot>,
    tools: &mut Tools,
    ask: Ask,
) -> Result<(), AddError>
    requires whole { IsStore (store_view slots.old.items) }
    requires inside { AskInside (length slots.old.items) (ask_view ask) }
    requires idle { IsIdle tools.old }
    requires work { tools.old.work.items ≡ [] }
    ensures added { OnOk result (Added (store_view slots.old.items) (ask_view ask) (store_view slots.new.items)) }
    ensures clash { result ≡ Err AddError.Clash → Clash (store_view slots.old.items) (ask_view ask ∷ []) }
    ensures goes { OnOk result (GoesOn (store_view slots.old.items) (store_view slots.new.items)) }
    ensures whole { IsStore (store_view slots.new.items) }
    ensures kept { OnErr result (store_view slots.new.items ≡ store_view slots.old.items) }
    ensures idle { IsIdle tools.new }
    ensures work { tools.new.work.items ≡ [] }
    ensures made { tools.new.made.items ≡ tools.old.made.items }
{
    match tools.work.push(ask) {
        Ok(()) => {}
        Err(error) => return Err(AddError::NoMemory(error.into())),
    }
    match add(alloc, slots, tools) {
        Ok(true) => Ok(()),
        Ok(false) => Err(AddError::Clash),
        Err(error) => Err(AddError::NoMemory(error)),
    }
}
