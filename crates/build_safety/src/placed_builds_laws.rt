//! What holds of programs of the modules of a build.

ghost use Rattle.build_safety.specs.Placed.{ModulesAreParts, PlacedProgramsAreNeverStuck};

/// A module of a build is a part of a typed program where it is placed there, since names and inference give the rest. A
/// program of placed modules is never Stuck, with all flags, inputs at its incoming ports and fuel.
pub fn placed_law()
    ensures parts { ModulesAreParts }
    ensures programs { PlacedProgramsAreNeverStuck }
{}
