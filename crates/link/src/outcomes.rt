//! Values and what was done to them. A function that holds a large value leaves to these what happens after an error, so
//! that the proof does not tell of that value once for each of its ways out.

ghost use Rattle.std.specs.Prelude.{◌≡◌, Ok};
ghost use Rattle.std.specs.Result.{result_and};

use std::alloc::AllocError;

/// The value, unless what was done fails.
pub(crate) fn when_done<T: Drop>(done: Result<(), AllocError>, value: T) -> Result<T, AllocError>
    ensures { result ≡ result_and done (Ok value) }
{
    match done {
        Ok(()) => Ok(value),
        Err(e) => Err(e),
    }
}
