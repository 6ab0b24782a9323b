//! The modules of a link in the world of its program.

ghost use Rattle.build_safety.specs.PlacedLinks.{LinksArePlaced};

/// What a link takes of the modules of a build is placed in the world of the program, one module after another, where
/// what has no body has its types there, and all expressions are made of the constructors of that world.
pub fn placed_law()
    ensures { LinksArePlaced }
{}
