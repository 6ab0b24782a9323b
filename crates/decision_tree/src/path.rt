//! The paths of the parts of a value.

ghost use Rattle.std.specs.Prelude.{◌≡◌, ℕ, [], ◌∷◌, ◌++◌, IfOk, OnOk};
ghost use Rattle.js_tree.specs.Tree.{JVar, JProperty, Made};
ghost use Rattle.js_emit.specs.Names.{part_name};
ghost use Rattle.js_emit.specs.Choice.{part_paths, split_path};
ghost use Rattle.decision_tree.specs.Views.{path_view, paths_view};

use std::alloc::{AllocError, Global};
use std::sync::Arc;

/// The numbers of the parts that lead to a part, which many columns share.
#[derive(Drop)]
pub struct Path {
    pub numbers: Arc<Vec<usize>, Global>,
}

/// The value itself.
pub fn root(alloc: Global) -> Result<Path, AllocError>
    ensures { IfOk result (λ p. (subject : ℕ) → path_view subject p ≡ JVar (Made subject)) }
{
    Ok(Path {
        numbers: Arc::new(alloc, Vec::new(alloc))?,
    })
}

/// The same path once more.
pub fn copied(path: &Path) -> Result<Path, AllocError>
    ensures { IfOk result (λ p. p.numbers.value ≡ path.now.numbers.value) }
{
    Ok(Path {
        numbers: Arc::try_clone(&path.numbers)?,
    })
}

/// A part of what stands there.
#[tactic(auto, using(crate::proofs::Binding::path_push))]
fn part(alloc: Global, path: &Path, number: usize) -> Result<Path, AllocError>
    ensures { IfOk result (λ p. (subject : ℕ)
        → path_view subject p ≡ JProperty (path_view subject path.now) (part_name number)) }
{
    let mut numbers = Vec::from_slice(alloc, &path.numbers)?;
    numbers.push(number)?;
    Ok(Path {
        numbers: Arc::new(alloc, numbers)?,
    })
}

/// Adds paths once more.
fn add_paths(out: &mut Vec<Path>, paths: &[Path]) -> Result<(), AllocError>
    ensures { OnOk result ((subject : ℕ) → paths_view subject out.new.items
        ≡ paths_view subject out.old.items ++ paths_view subject paths.now) }
{
    for path in paths {
        out.push(copied(path)?)?;
    }
    Ok(())
}

/// Adds so many parts of what stands there.
fn add_parts(
    alloc: Global,
    out: &mut Vec<Path>,
    path: &Path,
    arity: usize,
) -> Result<(), AllocError>
    ensures { OnOk result ((subject : ℕ) → paths_view subject out.new.items
        ≡ paths_view subject out.old.items ++ part_paths arity 0 (path_view subject path.now)) }
{
    for number in 0..arity {
        out.push(part(alloc, path, number)?)?;
    }
    Ok(())
}

/// Adds the paths with those of so many parts in the place of the column's.
pub fn split_paths(
    alloc: Global,
    out: &mut Vec<Path>,
    paths: &[Path],
    column: usize,
    arity: usize,
) -> Result<(), AllocError>
    ensures { OnOk result ((subject : ℕ) → paths_view subject out.new.items
        ≡ paths_view subject out.old.items ++ split_path arity column (paths_view subject paths.now)) }
{
    if paths.len() <= column {
        return add_paths(out, paths);
    }
    add_paths(out, &paths[..column])?;
    add_parts(alloc, out, &paths[column], arity)?;
    add_paths(out, &paths[column + 1..])
}
