//! What holds of typed programs under their host.

ghost use Rattle.program_safety.specs.Example.{ExampleIsInferred, ExampleIsTyped};
ghost use Rattle.program_safety.specs.Primitives.{PrimitivesHaveTheirTypes};
ghost use Rattle.program_safety.specs.Told.{InferredModulesTell};
ghost use Rattle.program_safety.specs.Programs.{TypedProgramsAreNeverStuck};

/// A program of typable modules whose patterns leave nothing out is never Stuck, with all flags, inputs at its incoming
/// ports and fuel.
pub fn program_law()
    ensures { TypedProgramsAreNeverStuck }
{}

/// There is a program of which the law speaks: it has two modules, a port of each kind, a start that sends, and what
/// follows on inputs.
pub fn example_law()
    ensures { ExampleIsTyped }
{}

/// Where a module is told as it is inferred, each instance of a scheme that is told is one of what the module has: so
/// the law of programs may be asked of what inference tells.
pub fn told_law()
    ensures { InferredModulesTell }
{}

/// And there is a module that is told as it is inferred.
pub fn inferred_law()
    ensures { ExampleIsInferred }
{}

/// The functions of the fixed JavaScript text have the types that the core's modules give them.
pub fn primitives_law()
    ensures { PrimitivesHaveTheirTypes }
{}
