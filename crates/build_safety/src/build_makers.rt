//! What holds of the constructors that modules of a build mention.

ghost use Rattle.build_safety.specs.BuildMakers.{MentionsAreOfWorld};

/// Each constructor that a module of a build takes apart or builds is one of a union of the build's world, or of tuples
/// or lists.
pub fn makers_law()
    ensures { MentionsAreOfWorld }
{}
