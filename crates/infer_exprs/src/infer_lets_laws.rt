//! Where a type group that is a pattern with its value stops.

ghost use Rattle.infer_exprs.specs.Begun.{ValueStops};

/// It stops where its value stops.
pub fn value_law()
    ensures { ValueStops }
{}
