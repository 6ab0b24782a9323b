//! Modules one after another.

ghost use Rattle.std.specs.Prelude.{◌≡◌, ◌<◌, ◌^◌, ◌∷◌, ◌++◌, [], ℕ, List, length, IfOk, OnOk};
ghost use Rattle.decl_groups.specs.Groups.{plain};
ghost use Rattle.import_graph.specs.Fold.{IsOrdered, values_at, Folds};

use crate::work::Work;
use std::alloc::{AllocError, Global};

/// Lays the value of a module on a desk, if it has one.
fn lay_one<W: Work>(
    work: &W,
    values: &[W::Made],
    import: u32,
    desk: &mut W::Desk,
) -> Result<(), AllocError>
    ensures { OnOk result ((i : ℕ) (vs : List W.Made) → W.holds work.now desk.old i vs
        → W.holds work.now desk.new i (vs ++ values_at values.now (import ∷ []))) }
{
    match values.get(import as usize) {
        Some(value) => work.import(desk, value),
        None => Ok(()),
    }
}

/// Lays the values of these modules on a desk.
fn lay<W: Work>(
    work: &W,
    values: &[W::Made],
    imports: &[u32],
    desk: &mut W::Desk,
) -> Result<(), AllocError>
    ensures { OnOk result ((i : ℕ) → W.holds work.now desk.old i []
        → W.holds work.now desk.new i (values_at values.now imports.now)) }
{
    for import in imports {
        lay_one(work, values, *import, desk)?;
    }
    Ok(())
}

/// The value of the module `number`, which imports these modules of those that have values.
fn made<W: Work>(
    alloc: Global,
    work: &W,
    number: u32,
    values: &[W::Made],
    imports: &[u32],
) -> Result<W::Made, AllocError>
    requires { number < length (W.graph work.now) }
    ensures { IfOk result (λ m. W.makes work.now number (values_at values.now imports.now) m) }
{
    let mut desk = work.begin(alloc, number)?;
    lay(work, values, imports, &mut desk)?;
    work.finish(alloc, desk)
}

/// The values of all modules, one after another, each made of those of its imports. `graph` has the numbers of the
/// modules that each imports, which are lower than its own. The error means that memory ran out.
pub fn fold<W: Work>(
    alloc: Global,
    work: &W,
    graph: &[Vec<u32>],
) -> Result<Vec<W::Made>, AllocError>
    requires count { length graph.now < 2 ^ 32 }
    requires graph { W.graph work.now ≡ plain graph.now }
    requires ordered { IsOrdered (plain graph.now) }
    ensures { IfOk result (λ values. Folds (W.makes work.now) (plain graph.now) values.items) }
{
    let mut values = Vec::with_capacity(alloc, graph.len())?;
    for number in 0..graph.len() {
        let value = made(alloc, work, number as u32, &values, &graph[number])?;
        values.push(value)?;
    }
    Ok(values)
}
