//! What holds of names in typed programs.

ghost use Rattle.typed_values.specs.Lookup.{FoundServes};
ghost use Rattle.typed_values.specs.Using.{UsesEndWell};
ghost use Rattle.typed_values.specs.Sample.{SampleIsSound, SampleStands};

/// In an environment that fits a scope, each name of the scope that is not hidden is bound, and to what serves its
/// entry.
pub fn lookup_law()
    ensures { FoundServes }
{}

/// Where what a use of a name asks of types is solved, the use evaluates to a value of the type that is wanted of it.
pub fn use_law()
    ensures { UsesEndWell }
{}

/// There is a world of which these laws speak, that of Bool and Maybe; and there is a frame.
pub fn world_law()
    ensures world { SampleIsSound }
    ensures frame { SampleStands }
{}
