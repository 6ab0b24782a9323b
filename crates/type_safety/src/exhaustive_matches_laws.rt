//! What holds of patterns and single steps in typed programs.

ghost use Rattle.type_safety.specs.Matches.{SomePatternMatches, StepsAreSound};

/// Where nothing is reported missing of patterns of a type, some one of them matches each value of the type.
pub fn match_law()
    ensures { SomePatternMatches }
{}

/// Where the unions of a program are as they are declared, each single step of evaluation keeps types.
pub fn steps_law()
    ensures { StepsAreSound }
{}
