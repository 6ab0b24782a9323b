//! Which calls go round.

ghost use Rattle.emit_exprs.specs.Tails.{ExactTurns};

/// A function is a loop exactly when one of the values of its body is a call of it with all its arguments.
pub fn turns_law()
    ensures { ExactTurns }
{}
