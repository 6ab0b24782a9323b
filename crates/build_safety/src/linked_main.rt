//! The `main` of a program that a link makes.

ghost use Rattle.build_safety.specs.LinkedMain.{LinksHaveMain};

/// Where a link of the modules of a build has no fault, the `main` of the program is bound. All modules are told that
/// it is a program, of flags that are read as the program reads them.
pub fn main_law()
    ensures { LinksHaveMain }
{}
