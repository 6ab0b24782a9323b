//! What holds of a module without faults of patterns.

ghost use Rattle.pattern_check.specs.PatternFaultsLaws.{FaultlessIsCovered};

/// A module has no faults of patterns exactly when each of its `case`s, parameters and destructured patterns leaves
/// nothing out, and no branch is covered by earlier ones.
pub fn faultless_law()
    ensures { FaultlessIsCovered }
{}
