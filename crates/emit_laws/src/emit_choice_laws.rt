//! What holds of the tree of tests of a case, whatever the program is.

ghost use Rattle.emit_laws.specs.Choosing.{TreeChooses};

/// A case takes the branch whose number its tree of tests gives: the first whose pattern matches.
pub fn tree_law()
    ensures { TreeChooses }
{}
