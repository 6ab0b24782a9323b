//! What a link takes of the modules of a build.

ghost use Rattle.build_safety.specs.LinkedPieces.{LinksHavePieces};

/// The program of a link has some of the declarations of each module of the build, in order; what these use is bound
/// before them or by them.
pub fn pieces_law()
    ensures { LinksHavePieces }
{}
