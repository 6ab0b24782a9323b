//! What holds of the expressions of some of the declarations of a module of a build.

ghost use Rattle.build_safety.specs.SimplePieces.{PiecesAreSimple};

/// They are as the law of typed programs asks: where the declarations are proper in order, leave commands and
/// subscriptions as ports made them, and take apart and change records by a field at least; and where the module
/// mentions constructors of the program's unions alone.
pub fn simple_law()
    ensures { PiecesAreSimple }
{}
