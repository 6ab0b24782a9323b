//! Values and what was done to them. A function that holds a large value leaves to these what happens after an error, so
//! that the proof does not tell of that value once for each of its ways out.

ghost use Rattle.std.specs.Prelude.{◌≡◌, ◌∷◌, ◌++◌, [], Ok, IfOk, IsOkAnd, OnOk};
ghost use Rattle.std.specs.Result.{result_and};
ghost use Rattle.std.specs.declared.sync.Arc.{Arc};

use std::alloc::{AllocError, Global};
use std::sync::Arc;

/// The value, unless what was done fails.
pub(crate) fn when_done<T: Drop>(done: Result<(), AllocError>, value: T) -> Result<T, AllocError>
    ensures { result ≡ result_and done (Ok value) }
{
    match done {
        Ok(()) => Ok(value),
        Err(e) => Err(e),
    }
}

/// Adds an item.
fn push<T: Drop>(items: &mut Vec<T>, item: T) -> Result<(), AllocError>
    ensures { OnOk result (items.new.items ≡ items.old.items ++ item ∷ []) }
{
    items.push(item)?;
    Ok(())
}

/// Adds an item, if it is made.
pub(crate) fn push_made<T: Drop>(
    items: &mut Vec<T>,
    made: Result<T, AllocError>,
) -> Result<(), AllocError>
    ensures { OnOk result (IsOkAnd made (λ item. items.new.items ≡ items.old.items ++ item ∷ [])) }
{
    match made {
        Ok(item) => push(items, item),
        Err(e) => Err(e),
    }
}

/// A value that others may share.
fn shared<T: Drop>(alloc: Global, value: T) -> Result<Arc<T, Global>, AllocError>
    ensures { IfOk result (λ item. item.value ≡ value) }
{
    Ok(Arc::new(alloc, value)?)
}

/// Adds a value that others may share.
pub(crate) fn push_shared<T: Drop>(
    alloc: Global,
    value: T,
    items: &mut Vec<Arc<T, Global>>,
) -> Result<(), AllocError>
    ensures { OnOk result ((item : Arc T Global) × (item.value ≡ value)
        × (items.new.items ≡ items.old.items ++ item ∷ [])) }
{
    let item = shared(alloc, value)?;
    push(items, item)
}
