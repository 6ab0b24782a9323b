//! What the names of modules say of the programs that are linked of them.

ghost use Rattle.project_proper.specs.Modules.{LinksProper};

/// Where modules are proper, one after another, what the `main` of one of them reaches is a program with proper names,
/// if the link has no fault: the laws of what is emitted speak of it.
pub fn proper_law()
    ensures { LinksProper }
{}
