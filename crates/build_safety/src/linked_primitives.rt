//! What a program has of the core, and what stands before its modules.

ghost use Rattle.build_safety.specs.LinkedPrimitives.{LinksAreElsewhere, LinksHavePrimitives};

/// The functions that no text can say have their types in each program that a link makes; and what is bound before a
/// module of it is of other modules, or one of these functions.
pub fn primitives_law()
    ensures primitives { LinksHavePrimitives }
    ensures elsewhere { LinksAreElsewhere }
{}
