//! What holds of declarations that leave commands and subscriptions as ports made them.

ghost use Rattle.program_safety.specs.Ports.{PortsAreKept};

/// Where a module mentions constructors of the program's unions alone, those of its declarations that leave commands and
/// subscriptions as ports made them, or map them, use constructors as the law of typed programs asks.
pub fn ports_law()
    ensures { PortsAreKept }
{}
