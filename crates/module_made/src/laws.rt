//! Small modules, worked out.

ghost use Rattle.module_made.specs.Examples.{OtherName, NoHeader, IsMain, Misplaced, Offered, Unexposed, NoMain};
ghost use Rattle.module_made.specs.Examples.{Hidden, HasType, Plain, TooLong};

/// The faults of small heads, what small modules offer, and a text that is too long.
pub fn examples()
    ensures other_name { OtherName }
    ensures no_header { NoHeader }
    ensures is_main { IsMain }
    ensures misplaced { Misplaced }
    ensures offered { Offered }
    ensures unexposed { Unexposed }
    ensures no_main { NoMain }
    ensures hidden { Hidden }
    ensures has_type { HasType }
    ensures plain { Plain }
    ensures too_long { TooLong }
{}
