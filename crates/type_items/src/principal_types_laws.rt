//! What is told of the types of a module is determined.

ghost use Rattle.type_items.specs.Uniqueness.{OneSize, OneScheme, NeverBoth, OneFault, RenamedTwice};
ghost use Rattle.type_items.specs.Uniqueness.{RenamedPrincipal};
ghost use Rattle.type_items.specs.PrincipalTypesModules.{OneAnswer, OneRefusal, OneInference};

/// Two principal types of the same have one size, and with their variables in order of appearance they are one.
pub fn principal_law()
    ensures size { OneSize }
    ensures scheme { OneScheme }
{}

/// What is typable has no first bad item, and there is one first bad item at most, with one text.
pub fn fault_law()
    ensures never_both { NeverBoth }
    ensures one { OneFault }
{}

/// A module is inferred or refused, never both; it is refused in one way, and the types that are told of its names are
/// the same whoever tells them.
pub fn module_law()
    ensures answer { OneAnswer }
    ensures refusal { OneRefusal }
    ensures inference { OneInference }
{}

/// To put the variables of a scheme in order of appearance once more changes nothing, and a principal type is principal
/// with its variables in order.
pub fn renaming_law()
    ensures twice { RenamedTwice }
    ensures principal { RenamedPrincipal }
{}
