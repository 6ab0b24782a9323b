//! Values of any type and what was done to them. A function that holds large values leaves to these what happens after
//! an error, so that the proof does not tell of those values once for each of its ways out.

ghost use Rattle.std.specs.Prelude.{◌≡◌, ◌++◌, ◌∷◌, [], Ok, IfOk, OnOk};

use std::alloc::{AllocError, Global};
use std::sync::Arc;

/// Adds an item.
pub(crate) fn put<T: Drop>(items: &mut Vec<T>, item: T) -> Result<(), AllocError>
    ensures { OnOk result (items.new.items ≡ items.old.items ++ item ∷ []) }
{
    items.push(item)?;
    Ok(())
}

/// A value that is shared.
pub(crate) fn shared<T: Drop>(alloc: Global, value: T) -> Result<Arc<T, Global>, AllocError>
    ensures { IfOk result (λ a. a.value ≡ value) }
{
    Ok(Arc::new(alloc, value)?)
}

/// A value in a box.
pub(crate) fn in_box<T: Drop>(alloc: Global, value: T) -> Result<Box<T>, AllocError>
    ensures { IfOk result (λ b. b.value ≡ value) }
{
    Ok(Box::new(alloc, value)?)
}

/// A value in a box, if it is made.
pub(crate) fn boxed<T: Drop>(
    alloc: Global,
    made: Result<T, AllocError>,
) -> Result<Box<T>, AllocError>
    ensures { IfOk result (λ b. made ≡ Ok b.value) }
{
    match made {
        Ok(value) => in_box(alloc, value),
        Err(e) => Err(e),
    }
}
