//! What the check of patterns gives to typed programs.

ghost use Rattle.type_safety.specs.Resolved.{FaultlessIsSimple, SimpleIsResolved};

/// Where a module has no faults of patterns, its definitions meet what the safety of typed programs asks of patterns:
/// what names give of them is then all that is asked. Nothing more is asked of names than the safety does.
pub fn simple_law()
    ensures simple { FaultlessIsSimple }
    ensures resolved { SimpleIsResolved }
{}
