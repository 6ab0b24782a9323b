//! What holds of each module that is compiled without a fault in its names.

ghost use Rattle.build_safety.specs.Laws.{MadeHaveFields};

/// Each record pattern in some of its declarations names a field, and so does each record update. This is what the law
/// of programs asks.
pub fn made_law()
    ensures { MadeHaveFields }
{}
