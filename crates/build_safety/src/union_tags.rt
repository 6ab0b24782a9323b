//! What holds of the constructors of the unions of each module.

ghost use Rattle.build_safety.specs.UnionTags.{UnionsAreTagged};

/// They have as many fields as their text says, are told apart by their tags, which are of one kind, and have numbers
/// below 0 all or none. True, False and () have no fields.
pub fn tags_law()
    ensures { UnionsAreTagged }
{}
