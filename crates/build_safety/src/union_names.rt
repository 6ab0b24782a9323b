//! What holds of the names of the unions of a build.

ghost use Rattle.build_safety.specs.UnionNames.{UnionsAreFound};

/// A union of a module of a build is found by its name in the world of the build.
pub fn names_law()
    ensures { UnionsAreFound }
{}
