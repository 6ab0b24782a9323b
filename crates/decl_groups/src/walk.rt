//! A walk along uses.

ghost use Rattle.std.specs.Prelude.{◌≡◌, ◌<◌, ◌∷◌, [], length, map, IfOk, OnOk};
ghost use Rattle.std.specs.List.{All};
ghost use Rattle.decl_groups.specs.Groups.{plain};
ghost use Rattle.decl_groups.specs.InOrder.{reaches, places_of};
ghost use Rattle.decl_groups.specs.Walk.{Notes};

use std::alloc::{AllocError, Global};

/// Marks a place, which then waits, unless it was marked before.
#[tactic(auto, using(crate::proofs::Walking::note_new, crate::proofs::Walking::note_old))]
fn note(place: u32, marks: &mut Vec<bool>, waiting: &mut Vec<u32>) -> Result<(), AllocError>
    requires { place < length marks.old.items }
    ensures count { length marks.new.items ≡ length marks.old.items }
    ensures notes { OnOk result (Notes (place ∷ []) marks.old.items waiting.old.items marks.new.items
        waiting.new.items) }
{
    if !marks[place as usize] {
        marks[place as usize] = true;
        waiting.push(place)?;
    }
    Ok(())
}

/// Marks places, each of which then waits, unless it was marked before.
fn note_all(places: &[u32], marks: &mut Vec<bool>, waiting: &mut Vec<u32>) -> Result<(), AllocError>
    requires { All (λ i. i < length marks.old.items) places.now }
    ensures count { length marks.new.items ≡ length marks.old.items }
    ensures notes { OnOk result (Notes places.now marks.old.items waiting.old.items marks.new.items waiting.new.items) }
{
    for place in places {
        note(*place, marks, waiting)?;
    }
    Ok(())
}

/// Which places `start` reaches: itself, and the places that those which it reaches use. `uses` has the places that
/// each place uses. It takes time in proportion to the number of places and uses. The error means that memory ran out.
pub fn reachable(alloc: Global, uses: &[Vec<u32>], start: u32) -> Result<Vec<bool>, AllocError>
    requires places { All (λ row. All (λ j. j < length uses.now) row.items) uses.now }
    requires start { start < length uses.now }
    ensures { IfOk result (λ marks. marks.items ≡ map (reaches (plain uses.now) start) (places_of (plain uses.now))) }
{
    let mut marks = vec![in alloc; false; uses.len()]?;
    let mut waiting = Vec::new(alloc);
    note(start, &mut marks, &mut waiting)?;
    while let Some(place) = waiting.pop() {
        note_all(&uses[place as usize], &mut marks, &mut waiting)?;
    }
    Ok(marks)
}
