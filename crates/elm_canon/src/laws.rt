//! Names, unions and trees, worked out.

ghost use Rattle.elm_canon.specs.Examples.{SameLocal, OtherKind, OtherModule, OfTuples, OfLists, OfNoParts, Parameters};
ghost use Rattle.elm_canon.specs.Examples.{OneType, ListPattern, ChainPattern, UnitPattern, Fields};

/// Which names mean the same thing; the constructors of unions; what types, patterns and accesses are as plain data.
pub fn examples()
    ensures same_local { SameLocal }
    ensures other_kind { OtherKind }
    ensures other_module { OtherModule }
    ensures of_tuples { OfTuples }
    ensures of_no_parts { OfNoParts }
    ensures of_lists { OfLists }
    ensures parameters { Parameters }
    ensures one_type { OneType }
    ensures list_pattern { ListPattern }
    ensures chain_pattern { ChainPattern }
    ensures unit_pattern { UnitPattern }
    ensures fields { Fields }
{}
