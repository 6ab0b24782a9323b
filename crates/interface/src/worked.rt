//! Interfaces and their texts, worked out.

ghost use Rattle.interface.specs.Examples.{Examples};

/// Interfaces, steps and numbers.
pub fn examples()
    ensures { Examples }
{}
