//! Why inference stops.

ghost use Rattle.std.specs.Prelude.{◌≡◌};
ghost use Rattle.infer_steps.specs.declared.bad.InferError.TheVariants.{NoMemory};

use elm_base::names::Name;
use elm_base::position::Pos;
use elm_type::class::Class;
use std::alloc::AllocError;

/// The first item that no types meet, by variables of the store, and where it stands.
#[derive(Drop)]
pub enum Bad {
    /// Two types are not the same.
    Same(Pos, u32, u32),
    /// A type does not meet the class.
    InClass(Pos, u32, Class),
    /// A type is no record without the field.
    Lacks(Pos, u32, Name),
    /// A constant of this name is in a type of what is around its annotation.
    Keeps(Pos, Name),
    /// A type is too large.
    Large(Pos, u32),
}

/// Why inference stops.
#[derive(Drop)]
pub enum InferError {
    /// An item is bad.
    Bad(Bad),
    /// Memory ran out, or the numbers below 2^32 did.
    NoMemory(AllocError),
}

impl From<AllocError> for InferError {
    ghost from_gives = { λ error e. e ≡ NoMemory error };

    fn from(error: AllocError) -> InferError {
        InferError::NoMemory(error)
    }
}
