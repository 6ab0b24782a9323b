//! What the resolution of a project's modules says of the programs that are linked of them.

ghost use Rattle.project_proper.specs.Flags.{WordsAreFields};
ghost use Rattle.project_proper.specs.Resolved.{ResolvedAreProper, ResolvedLinks, ValuesInScope};

/// What a link takes of modules that were resolved without faults, one after another, is proper; and the program that a
/// link without faults makes of them has proper names: the laws of what is emitted speak of it. What they declare is in
/// scope after them.
pub fn project_law()
    ensures proper { ResolvedAreProper }
    ensures linked { ResolvedLinks }
    ensures values { ValuesInScope }
{}

/// The records of an entry's flags have words for fields, each once.
pub fn flags_law()
    ensures { WordsAreFields }
{}
