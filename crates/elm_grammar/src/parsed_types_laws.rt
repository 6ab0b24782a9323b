//! What holds of the types that each text writes.

ghost use Rattle.elm_grammar.specs.Written.{TextsHaveResults};

/// Each function type that a declaration of a module writes has a result, where tokens spell the module. What the
/// parser reads is such a module.
pub fn results_law()
    ensures { TextsHaveResults }
{}
