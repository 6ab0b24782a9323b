//! What builds of good modules are made of.

ghost use Rattle.build_safety.specs.Builds.{BuildsAreCompiled};

/// The modules of a build that are all good were compiled without faults, one after another, each with the types that
/// those before it offer; and a link takes them as they were compiled.
pub fn compiled_law()
    ensures { BuildsAreCompiled }
{}
