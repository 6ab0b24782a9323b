//! Small declarations and programs, worked out.

ghost use Rattle.js_emit.specs.Examples.{Texts, Runs, InSubset};

/// The text of some declarations.
pub fn texts()
    ensures { Texts }
{}

/// What some programs and their JavaScript do.
pub fn runs()
    ensures { Runs }
{}

/// The JavaScript of some declarations is in the subset.
pub fn subset()
    ensures { InSubset }
{}
