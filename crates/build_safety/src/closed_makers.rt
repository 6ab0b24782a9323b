//! What holds of the constructors of a union whose fields have no other variables than its parameters.

ghost use Rattle.build_safety.specs.ClosedMakers.{MakersAreClosed};

/// The variables of their types are arguments of the union, by the numbers that they have there.
pub fn makers_law()
    ensures { MakersAreClosed }
{}
