//! What holds of modules without faults of commands and subscriptions.

ghost use Rattle.program_safety.specs.Signs.{ModulesLeave};

/// Each declaration of a module without such faults leaves commands and subscriptions as ports made them, and uses no
/// constructor of theirs as a name.
pub fn modules_law()
    ensures { ModulesLeave }
{}
