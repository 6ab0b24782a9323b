//! What holds of the items of any module.

ghost use Rattle.type_items.specs.Solutions.{CopiesAskTheSame};
ghost use Rattle.type_items.specs.Principal.{UnscopedAskLess};

/// A copy of items, which asks for no sizes, is solved by the same types.
pub fn copies_law()
    ensures { CopiesAskTheSame }
{}

/// Without the items on scopes, which determine no types, no more is asked.
pub fn unscoped_law()
    ensures { UnscopedAskLess }
{}
