//! What holds of each typable module.

ghost use Rattle.type_items.specs.More.{TypedWithMore, AsksTheSame};

/// What inference tells of a module it tells where the types of more names are known, too.
pub fn more_law()
    ensures items { AsksTheSame }
    ensures inferred { TypedWithMore }
{}
