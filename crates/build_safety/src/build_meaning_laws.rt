//! What the output of a build means.

ghost use Rattle.build_safety.specs.Meaning.{OutputsMean};

use emit_size_laws::laws::output_law;
use link::laws::link_law;
use project_parts::laws::build_law;
use project_proper::build_laws::build_law as linked_law;

/// The text of fewer than 2 to the 32nd bytes that a build gives is the text of one tree of the subset, which runs as
/// the program does that the modules of the project make, with all flags and inputs, wherever something is claimed of
/// the program's runs.
pub fn meaning_law()
    ensures { OutputsMean }
{
    build_law();
    linked_law();
    link_law();
    output_law();
}
