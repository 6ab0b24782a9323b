//! What the table of core modules gives the law of typed programs.

ghost use Rattle.told_modules.specs.Facts.{FactsHold};
ghost use Rattle.told_modules.specs.Unions.{CoreUnionsMeet};

/// A module that lacks nothing of what the compiler takes for granted has the unions and the annotations of the table.
pub fn facts_law()
    ensures { FactsHold }
{}

/// Where the unions of the core library are as the table says, they are as the law of typed programs asks.
pub fn unions_law()
    ensures { CoreUnionsMeet }
{}
