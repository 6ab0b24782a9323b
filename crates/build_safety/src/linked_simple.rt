//! What holds of the expressions that a link takes of modules of a build.

ghost use Rattle.build_safety.specs.LinkedSimple.{LinkedPiecesAreSimple};

/// Of a linked program that leaves commands and subscriptions as ports made them, the expressions of each module are as
/// the law of typed programs asks.
pub fn simple_law()
    ensures { LinkedPiecesAreSimple }
{}
