//! What holds of what is emitted, whatever the program is.

ghost use Rattle.emit_laws.specs.Expressions.{ExpressionsAlike};
ghost use Rattle.emit_laws.specs.Programs.{ProgramsAlike};

/// An expression and what is emitted for it do the same in environments that agree on the names in scope: what either
/// does with some fuel, the other does with some fuel.
pub fn expression_law()
    ensures { ExpressionsAlike }
{}

/// The JavaScript of a program runs as the program does, with all flags and inputs: what either does with some fuel,
/// the other does with some fuel, wherever something is claimed of the program's runs.
pub fn meaning_law()
    ensures { ProgramsAlike }
{}
