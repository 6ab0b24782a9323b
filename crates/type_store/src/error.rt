//! Why something was not added to a store.

ghost use Rattle.std.specs.Prelude.{◌≡◌};
ghost use Rattle.type_store.specs.declared.error.AddError.TheVariants.{NoMemory};

use std::alloc::AllocError;

/// Why something was not added to a store.
#[derive(Debug, Drop)]
pub enum AddError {
    /// No types meet it and all that was added before.
    Clash,
    /// Memory ran out, or the numbers below 2^32 did.
    NoMemory(AllocError),
}

impl From<AllocError> for AddError {
    ghost from_gives = { λ error e. e ≡ NoMemory error };

    fn from(error: AllocError) -> AddError {
        AddError::NoMemory(error)
    }
}
