//! What holds of the types that a module declares in which no fault was found.

ghost use Rattle.told_modules.specs.Closed.{ModulesAreClosed};

/// The variables of the fields of each union are its parameters, and so are those of what each alias stands for, also
/// of the aliases that the module shows. The variables of a port's type have names. All this holds where the aliases
/// that its imports show are such aliases, and each written function type has a result.
pub fn closed_law()
    ensures { ModulesAreClosed }
{}
