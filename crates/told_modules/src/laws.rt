//! What holds of a module without faults of names whose types were inferred.

ghost use Rattle.told_modules.specs.Names.{NamedHaveNames};
ghost use Rattle.told_modules.specs.Parts.{InferredAreParts};
ghost use Rattle.told_modules.specs.Resolved.{ResolvedAreTyped};
ghost use Rattle.told_modules.specs.Told.{FormsHaveInstances, ModulesAreInferred, NamesAreApart};

/// The names that its definitions bind are apart, and at the top level nothing is destructured. Its declarations, and
/// some of them, have names of the module, and use none that is bound after them.
pub fn names_law()
    ensures apart { NamesAreApart }
    ensures some { NamedHaveNames }
{}

/// Its expressions are as the law of programs asks, but for what the check of patterns promises: where what they take
/// apart and build are constructors of the program's unions, and the names that the definitions of a `let` bind inside
/// are none of its own.
pub fn expressions_law()
    ensures { ResolvedAreTyped }
{}

/// It is inferred as the law of programs asks, where all modules tell what they do: also where what they tell of a name
/// is the type that was inferred with its variables, or the fields that they lack, in order.
pub fn inferred_law()
    ensures inferred { ModulesAreInferred }
    ensures forms { FormsHaveInstances }
{}

/// It is a part of a program, as the law of programs asks, where it is placed there: so much is left to the link, and to
/// the unions of the program.
pub fn placed_law()
    ensures { InferredAreParts }
{}
