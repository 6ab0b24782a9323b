//! To go inside a definition, and back.

ghost use Rattle.std.specs.Prelude.{◌≡◌, ◌+◌, ◌<◌, ℕ, OnOk};
ghost use Rattle.type_items.specs.Items.{child};
ghost use Rattle.infer_steps.specs.Codes as plain;
ghost use Rattle.infer_steps.specs.View.{here};
ghost use Rattle.infer_groups.specs.Defined.{inside};

use infer_steps::state::State;
use std::alloc::AllocError;

/// Goes to the child `number` of the place, and inside one definition more. The error is that memory or numbers ran
/// out.
pub(crate) fn go_inside(state: &mut State, number: usize) -> Result<(), AllocError>
    ensures { OnOk result (here state.new ≡ inside (here state.old) number) }
{
    let Ok(number) = u32::try_from(number) else {
        return Err(AllocError);
    };
    let Some(depth) = state.depth.checked_add(1) else {
        return Err(AllocError);
    };
    state.enter(number)?;
    state.depth = depth;
    Ok(())
}

/// Goes back from a child of a place to the place.
pub(crate) fn leave(state: &mut State)
    ensures { (s : plain.State) (i : ℕ) → here state.old ≡ record s { place = child s.place i } → here state.new ≡ s }
{
    state.place.pop();
}

/// Goes back from a child of a place to the place, and out of one definition.
pub(crate) fn come_back(state: &mut State)
    requires { 0 < (here state.old).depth }
    ensures back { (s : plain.State) (i : ℕ) → here state.old ≡ inside s i → here state.new ≡ s }
    ensures store { (here state.new).store ≡ (here state.old).store }
{
    state.place.pop();
    state.depth -= 1;
}
