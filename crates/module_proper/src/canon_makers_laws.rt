//! What holds of each resolved module.

ghost use Rattle.module_proper.specs.Laws.{ModulesMention};

/// A resolved module builds and takes apart values of the constructors alone that its names mean, and of tuples and
/// lists. Its `let`s bind local names, and it declares names of its own.
pub fn makers_law()
    ensures { ModulesMention }
{}
