//! What is emitted is in the subset, whatever the program is.

ghost use Rattle.elm_meaning.specs.Samples.{adder};
ghost use Rattle.emit_laws.specs.Programs.{ProperProgram};
ghost use Rattle.emit_size_laws.specs.Programs.{CanBeWritten, ProgramsFit};

/// The JavaScript of a program is in the subset, where its names can be spelled.
pub fn subset_law()
    ensures { ProgramsFit }
{}

/// A worked program with flags, an incoming port, an outgoing port and a recursive function is one that the laws speak
/// of.
pub fn adder_law()
    ensures proper { ProperProgram adder }
    ensures written { CanBeWritten adder }
{}
