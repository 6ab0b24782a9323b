//! What a module has that lacks nothing of what the compiler takes for granted of the core library.

ghost use Rattle.project_proper.specs.Laws.{OwnLaw, TruthLaw, OtherLaw, ReadLaw};

/// A module that lacks nothing declares the functions of its own operators. Those of others are offered to it, or it
/// does not use them. Its truth values, if they are its own, are two at most without fields.
pub fn whole_law()
    ensures own { OwnLaw }
    ensures truths { TruthLaw }
    ensures others { OtherLaw }
{}

/// The declarations of a text have names that can be spelled, of the case that is theirs, and few constructors.
pub fn read_law()
    ensures { ReadLaw }
{}
