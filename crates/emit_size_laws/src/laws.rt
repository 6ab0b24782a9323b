//! What holds of programs whose outputs are not huge.

ghost use Rattle.std.specs.Prelude.{◌≡◌, ℕ, List, true};
ghost use Rattle.wire_value.specs.Wire.{Wire};
ghost use Rattle.runs.specs.Trace.{SameRun, IsClaimed};
ghost use Rattle.elm_canon.specs.Names.{Name};
ghost use Rattle.elm_meaning.specs.Run.{Program, SourceRun};
ghost use Rattle.elm_meaning.specs.Samples.{adder};
ghost use Rattle.js_tree.specs.Subset.{in_subset};
ghost use Rattle.js_meaning.specs.Run.{JsRun};
ghost use Rattle.js_emit.specs.Program.{Emit};
ghost use Rattle.emit_size_laws.specs.Small.{NamedProgram, IsSmallOutput, SmallIsProper};

use crate::emit_subset_laws::subset_law;
use emit_laws::laws::meaning_law;

/// Nothing in a program is huge where its output is not: with names as their resolution leaves them, it is one that the
/// laws of what is emitted speak of.
pub fn small_law()
    ensures { SmallIsProper }
{}

/// An output of fewer than 2 to the 32nd bytes, of a program with names as their resolution leaves them, runs as the
/// program does, with all flags and inputs, wherever something is claimed of the program's runs; and it is in the
/// subset.
pub fn output_law()
    ensures runs { (p : Program) (bytes : List ℕ) → NamedProgram p → IsSmallOutput p bytes
        → (flags : Wire) (inputs : List (Name × Wire)) → ((n : ℕ) → IsClaimed (SourceRun p flags inputs n))
        → SameRun (SourceRun p flags inputs) (JsRun (Emit p) flags inputs) }
    ensures subset { (p : Program) (bytes : List ℕ) → NamedProgram p → IsSmallOutput p bytes
        → in_subset (Emit p) ≡ true }
{
    meaning_law();
    subset_law();
}

/// A worked program with flags, an incoming port, an outgoing port and a recursive function is one that the laws speak
/// of, once its output is small.
pub fn adder_law()
    ensures { NamedProgram adder }
{}
