//! The types of programs, worked out.

ghost use Rattle.port_payload.specs.Examples.{Unit_flags, Record_flags, Function_flags, Variable_flags, No_program};

/// What the types of a few programs say.
pub fn examples()
    ensures unit_flags { Unit_flags }
    ensures record_flags { Record_flags }
    ensures function_flags { Function_flags }
    ensures variable_flags { Variable_flags }
    ensures no_program { No_program }
{}
