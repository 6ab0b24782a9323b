//! Numbers, texts and members, worked out.

ghost use Rattle.runs.specs.Examples.{Examples};

/// What is computed with some numbers, texts and members.
pub fn examples()
    ensures { Examples }
{}
