//! What holds of the world of a build.

ghost use Rattle.build_safety.specs.BuildWorlds.{MakersAreKnown, ModulesAreKnown};

/// What all modules of a build tell is known in its world, and so is what each module knows of them and of itself. Each
/// constructor is known there as a function of its fields.
pub fn world_law()
    ensures known { ModulesAreKnown }
    ensures makers { MakersAreKnown }
{}
