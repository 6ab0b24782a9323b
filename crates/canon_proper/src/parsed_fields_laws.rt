//! What holds of the tree of each text.

ghost use Rattle.canon_proper.specs.Laws.{TextsUpdateSome};

/// Each record update in a module that tokens spell names a field. What the parser reads is such a module.
pub fn updates_law()
    ensures { TextsUpdateSome }
{}
