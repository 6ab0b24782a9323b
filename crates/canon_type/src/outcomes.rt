//! Values and what was done to them. A function that holds large values leaves to these what happens after an error, so
//! that the proof does not tell of those values once for each of its ways out.

ghost use Rattle.std.specs.Prelude.{◌≡◌, ◌++◌, ◌∷◌, [], Ok, IfOk, OnOk, IsOkAnd};
ghost use Rattle.std.specs.Result.{result_and};

use std::alloc::{AllocError, Global};

/// The value, unless what was done fails.
pub(crate) fn when_done<T: Drop>(done: Result<(), AllocError>, value: T) -> Result<T, AllocError>
    ensures { result ≡ result_and done (Ok value) }
{
    match done {
        Ok(()) => Ok(value),
        Err(e) => Err(e),
    }
}

/// Lets a value go.
pub(crate) fn let_go<T: Drop>(_value: T) {}

/// Puts a value in the place of another one, which is let go.
fn put<T: Drop>(place: &mut T, value: T)
    ensures { place.new ≡ value }
{
    *place = value;
}

/// Puts a value in the place of another one, which is let go, if it is made.
pub(crate) fn put_made<T: Drop>(
    place: &mut T,
    made: Result<T, AllocError>,
) -> Result<(), AllocError>
    ensures { OnOk result (made ≡ Ok place.new) }
{
    match made {
        Ok(value) => {
            put(place, value);
            Ok(())
        }
        Err(e) => Err(e),
    }
}

/// Adds an item.
pub(crate) fn add<T: Drop>(items: &mut Vec<T>, item: T) -> Result<(), AllocError>
    ensures { OnOk result (items.new.items ≡ items.old.items ++ item ∷ []) }
{
    items.push(item)?;
    Ok(())
}

/// Adds an item, if it is made.
pub(crate) fn add_made<T: Drop>(
    items: &mut Vec<T>,
    made: Result<T, AllocError>,
) -> Result<(), AllocError>
    ensures { OnOk result (IsOkAnd made (λ item. items.new.items ≡ items.old.items ++ item ∷ [])) }
{
    match made {
        Ok(item) => add(items, item),
        Err(e) => Err(e),
    }
}

/// A value in a box, if it is made.
pub(crate) fn boxed<T: Drop>(
    alloc: Global,
    made: Result<T, AllocError>,
) -> Result<Box<T>, AllocError>
    ensures { IfOk result (λ b. made ≡ Ok b.value) }
{
    match made {
        Ok(value) => Ok(Box::new(alloc, value)?),
        Err(e) => Err(e),
    }
}

/// The value of a box, if it is made.
pub(crate) fn unboxed<T: Drop>(made: Result<Box<T>, AllocError>) -> Result<T, AllocError>
    ensures { IfOk result (λ x. IsOkAnd made (λ b. x ≡ b.value)) }
{
    match made {
        Ok(value) => Ok(Box::into_inner(value)),
        Err(e) => Err(e),
    }
}
