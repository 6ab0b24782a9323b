//! What holds of the types that the modules of a build tell.

ghost use Rattle.build_safety.specs.Told.{BuildsAreInferred};

/// Where all modules of a build tell the types of what they declare, each is inferred as the law of typed programs asks.
pub fn inferred_law()
    ensures { BuildsAreInferred }
{}
