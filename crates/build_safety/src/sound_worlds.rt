//! What holds of the unions of the world of a build.

ghost use Rattle.build_safety.specs.SoundWorlds.{WorldsAreSound, BuildsHaveCore};

/// Where the modules of the core library are among the modules of a build, the unions of its world are as the law of
/// typed programs asks, and so is the type of programs.
pub fn sound_law()
    ensures { WorldsAreSound }
{}

/// The modules of the core library are among the modules of each build.
pub fn core_law()
    ensures { BuildsHaveCore }
{}
