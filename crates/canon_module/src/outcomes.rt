//! Values of any type and what was done to them. A function that holds large values leaves to these what happens after
//! an error, so that the proof does not tell of those values once for each of its ways out.

ghost use Rattle.std.specs.Prelude.{◌≡◌, ◌++◌, ◌∷◌, [], true, Ok, Some, is_ok, IfOk, OnOk, IsOkAnd};
ghost use Rattle.std.specs.Result.{result_and};

use std::alloc::{AllocError, Global};

/// Adds an item.
pub(crate) fn put<T: Drop>(items: &mut Vec<T>, item: T) -> Result<(), AllocError>
    ensures { OnOk result (items.new.items ≡ items.old.items ++ item ∷ []) }
{
    items.push(item)?;
    Ok(())
}

/// Puts a value in the place of another one, which is let go.
pub(crate) fn set<T: Drop>(place: &mut T, value: T)
    ensures { place.new ≡ value }
{
    *place = value;
}

/// Puts a value in a place, if it is made.
pub(crate) fn keep<T: Drop>(
    place: &mut Option<T>,
    made: Result<T, AllocError>,
) -> Result<(), AllocError>
    ensures { OnOk result (IsOkAnd made (λ x. place.new ≡ Some x)) }
{
    match made {
        Ok(value) => {
            set(place, Some(value));
            Ok(())
        }
        Err(e) => Err(e),
    }
}

/// The value, unless what was done fails.
pub(crate) fn when_done<T: Drop>(done: Result<(), AllocError>, value: T) -> Result<T, AllocError>
    ensures { result ≡ result_and done (Ok value) }
{
    match done {
        Ok(()) => Ok(value),
        Err(e) => Err(e),
    }
}

/// Whether a value is made, which is let go.
pub(crate) fn done<T: Drop>(made: Result<T, AllocError>) -> Result<(), AllocError>
    ensures { OnOk result (is_ok made ≡ true) }
{
    match made {
        Ok(_value) => Ok(()),
        Err(e) => Err(e),
    }
}

/// A value in a box.
pub(crate) fn in_box<T: Drop>(alloc: Global, value: T) -> Result<Box<T>, AllocError>
    ensures { IfOk result (λ b. b.value ≡ value) }
{
    Ok(Box::new(alloc, value)?)
}

/// A value in a box, if it is made.
pub(crate) fn boxed<T: Drop>(
    alloc: Global,
    made: Result<T, AllocError>,
) -> Result<Box<T>, AllocError>
    ensures { IfOk result (λ b. made ≡ Ok b.value) }
{
    match made {
        Ok(value) => in_box(alloc, value),
        Err(e) => Err(e),
    }
}
