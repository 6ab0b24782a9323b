//! What the output of a build means, and that its program never gets stuck.

ghost use Rattle.build_safety.specs.Safety.{BuildsAreNeverStuck, LinkedProgramsAreNeverStuck};

use crate::build_world::world_law;
use crate::compiled_builds_laws::compiled_law;
use crate::kept_links::{kept_law, leaving_law};
use crate::linked_builds::pieces_law;
use crate::linked_main::main_law;
use crate::linked_primitives::primitives_law;
use crate::linked_simple::simple_law;
use crate::placed_builds_laws::placed_law as programs_law;
use crate::placed_links::placed_law;
use crate::port_worlds::worlds_law;
use crate::sound_worlds::{core_law, sound_law};
use crate::typed_makers::typed_law;
use emit_size_laws::laws::output_law;
use link::laws::link_law;
use project_parts::laws::build_law;
use project_proper::build_laws::build_law as linked_law;

/// The program that a link makes of modules that were compiled without faults, the core library among them, never gets
/// stuck.
pub fn linked_safety_law()
    ensures { LinkedProgramsAreNeverStuck }
{
    sound_law();
    world_law();
    primitives_law();
    pieces_law();
    leaving_law();
    kept_law();
    simple_law();
    typed_law();
    worlds_law();
    placed_law();
    main_law();
    programs_law();
}

/// The text of fewer than 2 to the 32nd bytes that a build gives is the text of one tree of the subset, which runs as
/// the program does that the modules of the project make. That program never gets stuck, with all flags, inputs at its
/// incoming ports and fuel.
pub fn safety_law()
    ensures { BuildsAreNeverStuck }
{
    build_law();
    linked_law();
    compiled_law();
    core_law();
    linked_safety_law();
    link_law();
    output_law();
}
