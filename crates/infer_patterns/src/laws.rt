//! The scope after a pattern.

ghost use Rattle.infer_patterns.specs.Scopes.{SameKnown, EntersPattern, ReadyPattern, EntersEach, ReadyEach};

use infer_steps::laws::{following_law, scope_law, setting_law};

/// After a pattern the code's scope with its names stands for the scope with its names, and can be used.
pub fn pattern_law()
    ensures known { SameKnown }
    ensures enters { EntersPattern }
    ensures ready { ReadyPattern }
    ensures enters_each { EntersEach }
    ensures ready_each { ReadyEach }
{
    following_law();
    setting_law();
    scope_law();
}
