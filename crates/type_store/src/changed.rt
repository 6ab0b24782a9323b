//! Which cells were changed.

ghost use Rattle.std.specs.Prelude.{◌≡◌, ℕ, ◌<◌, ◌≤◌, ◌∷◌, [], IfOk, OnOk};
ghost use Rattle.std.specs.List.{All, Contains};
ghost use Rattle.type_store.specs.Steps.{written};
ghost use Rattle.type_store.specs.View.{change_view, trail_view};

use crate::change::Change;
use std::alloc::AllocError;

/// Notes the variables below `to` whose slots were written, and those from `from` on. The error means that memory ran
/// out.
pub(crate) fn note_changed(
    changed: &mut Vec<u32>,
    trail: &[Change],
    from: usize,
    to: usize,
) -> Result<(), AllocError>
    requires { All (λ v. v < to) changed.old.items }
    ensures within { OnOk result (All (λ v. v < to) changed.new.items) }
    ensures written { OnOk result ((v : ℕ) → v < to → Contains (written (trail_view trail.now)) v
        → Contains changed.new.items v) }
    ensures made { OnOk result ((v : ℕ) → from ≤ v → v < to → Contains changed.new.items v) }
{
    note_written(changed, trail, to)?;
    note_made(changed, from, to)
}

/// Notes the variables below `to` whose slots were written. The error means that memory ran out.
fn note_written(changed: &mut Vec<u32>, trail: &[Change], to: usize) -> Result<(), AllocError>
    requires { All (λ v. v < to) changed.old.items }
    ensures within { OnOk result (All (λ v. v < to) changed.new.items) }
    ensures written { OnOk result ((v : ℕ) → v < to → Contains (written (trail_view trail.now)) v
        → Contains changed.new.items v) }
{
    for change in trail {
        note_one(changed, change, to)?;
    }
    Ok(())
}

/// Notes the variable whose slot was written, if it is below `to`. The error means that memory ran out.
fn note_one(changed: &mut Vec<u32>, change: &Change, to: usize) -> Result<(), AllocError>
    requires { All (λ v. v < to) changed.old.items }
    ensures within { OnOk result (All (λ v. v < to) changed.new.items) }
    ensures kept { OnOk result ((v : ℕ) → Contains changed.old.items v → Contains changed.new.items v) }
    ensures written { OnOk result ((v : ℕ) → v < to → Contains (written (change_view change.now ∷ [])) v
        → Contains changed.new.items v) }
{
    match change {
        Change::Was(at, _) => {
            if (*at as usize) < to {
                changed.push(*at)?;
            }
            Ok(())
        }
        Change::OfClass(_, _) | Change::OneMore(_) => Ok(()),
    }
}

/// Notes the variables from `from` on, and below `to`. The error means that memory ran out.
fn note_made(changed: &mut Vec<u32>, from: usize, to: usize) -> Result<(), AllocError>
    requires { All (λ v. v < to) changed.old.items }
    ensures within { OnOk result (All (λ v. v < to) changed.new.items) }
    ensures kept { OnOk result ((v : ℕ) → Contains changed.old.items v → Contains changed.new.items v) }
    ensures made { OnOk result ((v : ℕ) → from ≤ v → v < to → Contains changed.new.items v) }
{
    for place in from..to {
        let number = number_of(place)?;
        changed.push(number)?;
    }
    Ok(())
}

/// The number of the variable at a place. The error means that numbers ran out.
pub(crate) fn number_of(place: usize) -> Result<u32, AllocError>
    ensures { IfOk result (λ number. number ≡ place) }
{
    match u32::try_from(place) {
        Ok(number) => Ok(number),
        Err(_) => Err(AllocError),
    }
}
