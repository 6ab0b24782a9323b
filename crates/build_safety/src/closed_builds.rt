//! What holds of the types that the modules of a build declare.

ghost use Rattle.build_safety.specs.ClosedBuilds.{BuildsAreClosed};

/// In each module of a build the variables of declared types are their parameters, and those of a port's type have
/// names.
pub fn builds_law()
    ensures { BuildsAreClosed }
{}
